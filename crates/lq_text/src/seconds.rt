ghost use Rattle.std.specs.Prelude.{◌≡◌, ◌<◌, ◌^◌, ◌≤◌, All, take, drop, length, IfSome};
ghost use Rattle.std.specs.Char.{IsAsciiDigit, is_ascii_digit};
ghost use Rattle.std.specs.List.{prefix_len};
ghost use Rattle.std.specs.Option.{option_map};
ghost use Rattle.lq_text.specs.Numbers.{number_of};
ghost use Rattle.lq_text.specs.Seconds.{second_of, text_after_second};
ghost use Rattle.lq_text.specs.declared.seconds.TheConstants.{SECOND_DIGITS};

use crate::blanks::blank_count;
use crate::numbers::capped_number;

/// The most digits that a second is written with. A line with one more begins with no second.
const SECOND_DIGITS: usize = 12;

/// The bytes around the digits: `[` and `]`.
const BRACKETS: usize = 2;

/// The second in brackets that a line begins with, counted from the beginning of 1970, and how many
/// bytes stand before the text that follows it and its blanks. None where the line doesn't begin
/// with `[`, 1 to 12 digits and `]`.
pub fn bracketed_second(line: &[u8]) -> Option<(u64, usize)>
    ensures second { option_map (λ found. found.0) result ≡ second_of line.now }
    ensures below { IfSome result (λ found. found.0 < 10 ^ 12) }
    ensures within { IfSome result (λ found. found.1 ≤ length line.now) }
    ensures text { IfSome result (λ found. drop found.1 line.now ≡ text_after_second line.now) }
{
    let Some((b'[', rest)) = line.split_first() else {
        return None;
    };
    let digits = front_digits(rest);
    let count = digits.len();
    if count == 0 || count > SECOND_DIGITS || rest.get(count) != Some(&b']') {
        return None;
    }
    let place = count + BRACKETS;
    Some((short_number(digits), place + blank_count(&line[place..])))
}

/// The number that a few digits say.
#[tactic(auto, using(crate::proofs::NumberLemmas::short_below))]
fn short_number(digits: &[u8]) -> u64
    requires digits { All IsAsciiDigit digits.now }
    requires short { length digits.now ≤ SECOND_DIGITS }
    ensures value { result ≡ number_of digits.now }
    ensures below { result < 10 ^ 12 }
{
    capped_number(digits) as u64
}

/// The digits at the front.
#[tactic(auto, using(crate::proofs::NumberLemmas::front_digits))]
fn front_digits(bytes: &[u8]) -> &[u8]
    ensures value { result.now ≡ take (prefix_len is_ascii_digit bytes.now) bytes.now }
    ensures digits { All IsAsciiDigit result.now }
{
    &bytes[..digit_count(bytes)]
}

/// How many digits stand at the front.
fn digit_count(bytes: &[u8]) -> usize
    ensures count { result ≡ prefix_len is_ascii_digit bytes.now }
    ensures within { result ≤ length bytes.now }
{
    let mut count = 0;
    'digits: while count < bytes.len() && bytes[count].is_ascii_digit() {
        count += 1;
    }
    count
}
