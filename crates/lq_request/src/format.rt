ghost use Rattle.std.specs.Prelude.{◌≡◌, map};
ghost use Rattle.lq_request.specs.Formats.{byte_read, format_of, format_value};
ghost use Rattle.lq_request.specs.Formats.{separators_of, separators_value};
ghost use Rattle.lq_request.specs.Reading.{Finds};

use crate::header_err::{HeaderErr, well_formed};
use crate::number::natural;
use crate::words::words_of;
use lq_records::{Format, Separators};
use lq_text::trim;
use std::alloc::Global;

/// The format that the value of a header says.
pub fn format_value(alloc: Global, name: &str, value: &str) -> Result<Format, HeaderErr>
    ensures { Finds result (format_value name.now value.now) }
{
    well_formed(alloc, name, format_of(trim(value.as_bytes())))
}

fn format_of(word: &[u8]) -> Option<Format>
    ensures { result ≡ format_of word.now }
{
    if word == b"csv".as_slice() {
        Some(Format::Csv)
    } else if word == b"CSV".as_slice() {
        Some(Format::Quoted)
    } else if word == b"json".as_slice() {
        Some(Format::Json)
    } else {
        None
    }
}

/// The separators that the value of a header says.
pub fn separators_value(alloc: Global, name: &str, value: &str) -> Result<Separators, HeaderErr>
    ensures { Finds result (separators_value name.now value.now) }
{
    let words = words_of(alloc, value.as_bytes())?;
    well_formed(alloc, name, separators_of(&words))
}

/// The separators that four words say.
fn separators_of(words: &[&[u8]]) -> Option<Separators>
    ensures { result ≡ separators_of (map byte_read (map (λ word. word.now) words.now)) }
{
    let [row, column, list, pair] = words else {
        return None;
    };
    Some(Separators {
        row: byte(row)?,
        column: byte(column)?,
        list: byte(list)?,
        pair: byte(pair)?,
    })
}

/// The number of 0 to 255 that a word says.
fn byte(word: &[u8]) -> Option<u8>
    ensures { result ≡ byte_read word.now }
{
    let number = natural(word)?;
    if number <= 255 {
        Some(number as u8)
    } else {
        None
    }
}
