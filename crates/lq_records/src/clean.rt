ghost use Rattle.std.specs.Prelude.{◌≡◌, ◌∷◌, [], drop, find, take, IfOk};
ghost use Rattle.std.specs.Option.{option_copied};
ghost use Rattle.std.specs.Str.{is_utf8};
ghost use Rattle.lq_records.specs.Clean.{text_of_bytes, first_char};

use crate::Memory;
use crate::text::Text;
use std::alloc::Global;
use std::str;

/// The text of any bytes: each valid character is kept, and each byte at which none begins becomes
/// U+FFFD. The only error is that memory runs out.
pub fn clean_text(alloc: Global, b: &[u8]) -> Result<Text, Memory>
    ensures { IfOk result (λ text. text ≡ text_of_bytes b.now) }
{
    match str::from_utf8(b) {
        Ok(text) => Text::new(alloc, text),
        Err(_) => clean_chars(alloc, b),
    }
}

/// The same, character by character.
#[tactic(auto, unfolding(crate::specs::Clean::text_of_bytes))]
fn clean_chars(alloc: Global, b: &[u8]) -> Result<Text, Memory>
    ensures { IfOk result (λ text. text ≡ text_of_bytes b.now) }
{
    let mut whole = String::new(alloc);
    let mut rest = b;
    while !rest.is_empty() {
        match first_char(rest) {
            Some(char) => {
                whole.push_str(char)?;
                rest = after(rest, char.len());
            }
            None => {
                whole.push('\u{FFFD}')?;
                rest = after(rest, 1);
            }
        }
    }
    Text::from_string(whole)
}

/// The character that begins at the front.
fn first_char(bytes: &[u8]) -> Option<&str>
    ensures { option_copied result ≡ first_char bytes.now }
{
    text_of(prefix(bytes, 1))
        .or_else(|| text_of(prefix(bytes, 2)))
        .or_else(|| text_of(prefix(bytes, 3)))
        .or_else(|| text_of(prefix(bytes, 4)))
}

fn prefix(bytes: &[u8], n: usize) -> &[u8]
    ensures { result.now ≡ take n bytes.now }
{
    &bytes[..n.min(bytes.len())]
}

fn after(bytes: &[u8], n: usize) -> &[u8]
    ensures { result.now ≡ drop n bytes.now }
{
    &bytes[n.min(bytes.len())..]
}

/// Bytes as text, None where they aren't UTF-8.
fn text_of(bytes: &[u8]) -> Option<&str>
    ensures { option_copied result ≡ find is_utf8 (bytes.now ∷ []) }
{
    match str::from_utf8(bytes) {
        Ok(text) => Some(text),
        Err(_) => None,
    }
}
