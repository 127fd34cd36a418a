ghost use Rattle.std.specs.Prelude.{◌≡◌, ◌<◌, ◌≤◌, length, IfOk};
ghost use Rattle.lq_output.specs.Header.{header_text, refusal_text};

use itoa::write_digits;
use lq_records::{Items, Memory, Refusal};
use std::alloc::Global;

/// The line that stands before a body where `ResponseHeader: fixed16` asks for it: the code, which
/// has three digits, a blank, the length of the body in bytes in 11 places with blanks on the left,
/// and a line feed.
pub fn fixed16(code: u16, len: u64) -> [u8; 16]
    requires least { 100 ≤ code }
    requires most { code ≤ 999 }
    requires len { len < 100000000000 }
    ensures { result ≡ header_text code len }
{
    let mut header = [b' '; 16];
    header[15] = b'\n';
    write_digits(u64::from(code), &mut header, 3);
    write_digits(len, &mut header, 15);
    header
}

/// The reply to what is refused: with `on` the line of `fixed16`, the text and a line feed, else
/// nothing. The code has three digits, and the text fewer than 99,999,999,999 bytes. The only error
/// is out of memory.
pub fn refusal(alloc: Global, refused: &Refusal, on: bool) -> Result<Items<u8>, Memory>
    requires least { 100 ≤ refused.now.code }
    requires most { refused.now.code ≤ 999 }
    requires short { length refused.now.text < 99999999999 }
    ensures { IfOk result (λ bytes. bytes ≡ refusal_text refused.now on) }
{
    if !on {
        return Ok(Items::default());
    }
    let text = refused.text.as_str().as_bytes();
    let mut bytes = Vec::with_capacity(alloc, text.len() + 17)?;
    bytes.extend_from_slice(&fixed16(refused.code, text.len() as u64 + 1))?;
    bytes.extend_from_slice(text)?;
    bytes.push(b'\n')?;
    Ok(Items::from_vec(bytes))
}
