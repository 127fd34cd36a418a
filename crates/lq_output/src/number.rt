ghost use Rattle.std.specs.Prelude.{◌≡◌, ◌++◌, OnErr, OnOk};
ghost use Rattle.std.specs.Fmt.{decimal, signed_decimal};
ghost use Rattle.lq_records.specs.Micros.{micro_text};

use itoa::Buffer;
use lq_records::{Memory, Micro};

/// Adds the digits of a number, after a `-` where it is below 0. It takes no memory but the text's;
/// where that runs out, nothing is added.
#[inline]
pub fn push_number(out: &mut Vec<u8>, number: i128) -> Result<(), Memory>
    ensures ok { OnOk result (out.new.items ≡ out.old.items ++ signed_decimal number) }
    ensures err { OnErr result (out.new.items ≡ out.old.items) }
{
    match u64::try_from(number) {
        Ok(number) => push_unsigned(out, number),
        Err(_) => push_wide(out, number),
    }
}

/// Adds the digits of a number that isn't below 0. Most numbers of a state have one digit alone,
/// which takes no buffer. Where memory runs out, nothing is added.
#[inline]
pub fn push_unsigned(out: &mut Vec<u8>, number: u64) -> Result<(), Memory>
    ensures ok { OnOk result (out.new.items ≡ out.old.items ++ decimal number) }
    ensures err { OnErr result (out.new.items ≡ out.old.items) }
{
    if number < 10 {
        Ok(out.push(b'0' + number as u8)?)
    } else {
        push_digits(out, number)
    }
}

#[inline(never)]
fn push_digits(out: &mut Vec<u8>, number: u64) -> Result<(), Memory>
    ensures ok { OnOk result (out.new.items ≡ out.old.items ++ decimal number) }
    ensures err { OnErr result (out.new.items ≡ out.old.items) }
{
    let mut digits = Buffer::new();
    out.extend_from_slice(digits.format(number).as_bytes())
}

#[inline(never)]
fn push_wide(out: &mut Vec<u8>, number: i128) -> Result<(), Memory>
    ensures ok { OnOk result (out.new.items ≡ out.old.items ++ signed_decimal number) }
    ensures err { OnErr result (out.new.items ≡ out.old.items) }
{
    let mut digits = Buffer::new();
    out.extend_from_slice(digits.format(number).as_bytes())
}

/// Adds the text of an average. It is rare, so that it may have a text of its own.
#[inline(never)]
pub fn push_micro(out: &mut Vec<u8>, micro: Micro) -> Result<(), Memory>
    ensures { OnOk result (out.new.items ≡ out.old.items ++ micro_text micro.millionths) }
{
    let text = micro.to_string(*out.allocator())?;
    out.extend_from_slice(text.as_bytes())
}
