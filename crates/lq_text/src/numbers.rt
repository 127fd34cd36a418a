ghost use Rattle.std.specs.Prelude.{◌≡◌, ◌≤◌, ◌^◌, ◌↔◌, min, neg_ℤ, pos, All, IsTrue};
ghost use Rattle.std.specs.Prelude.{if◌then◌else◌};
ghost use Rattle.std.specs.Char.{IsAsciiDigit};
ghost use Rattle.std.specs.Option.{SomeIff};
ghost use Rattle.lq_text.specs.Numbers.{IsInRange, IsInteger, IsNumber, integer_of, integer_read};
ghost use Rattle.lq_text.specs.Numbers.{number_of};

/// The number that decimal digits say. It may begin with zeros. None where there is no digit, where
/// another byte stands among them, a sign or a blank too, and where the number is above `u64::MAX`.
pub fn read_u64(b: &[u8]) -> Option<u64>
    ensures { SomeIff result (IsNumber b.now) (number_of b.now) }
{
    if b.is_empty() || !are_digits(b) {
        return None;
    }
    let number = capped_number(b);
    if number <= u128::from(u64::MAX) {
        Some(number as u64)
    } else {
        None
    }
}

/// The number that decimal digits after an optional `-` say. None where there is no digit, where
/// another byte stands among them, a `+` or a blank too, and where the number doesn't fit an `i64`.
#[tactic(auto, using(crate::proofs::IntegerLemmas::read_is_integer))]
pub fn read_i64(b: &[u8]) -> Option<i64>
    ensures exact { SomeIff result (IsInteger b.now) (integer_of b.now) }
    ensures read { result ≡ integer_read b.now }
{
    read_integer(b)
}

fn read_integer(b: &[u8]) -> Option<i64>
    ensures { SomeIff result (IsInteger b.now) (integer_of b.now) }
{
    let negative = b.first() == Some(&b'-');
    let digits = if negative { &b[1..] } else { b };
    if digits.is_empty() || !are_digits(digits) {
        return None;
    }
    with_sign(negative, capped_number(digits))
}

/// One more than the largest `u64`: a number from here on fits neither a `u64` nor an `i64`.
const CAP: u128 = 1 << 64;

/// A number with its sign. None where it doesn't fit an `i64`.
fn with_sign(negative: bool, number: u128) -> Option<i64>
    requires { number ≤ 2 ^ 64 }
    ensures { SomeIff result (IsInRange negative number)
        (if negative then neg_ℤ (pos number) else pos number) }
{
    if negative {
        i64::try_from(-(number as i128)).ok()
    } else {
        i64::try_from(number).ok()
    }
}

/// Whether each byte is a decimal digit.
fn are_digits(bytes: &[u8]) -> bool
    ensures { IsTrue result ↔ All IsAsciiDigit bytes.now }
{
    bytes.iter().all(u8::is_ascii_digit)
}

/// The number that digits say, or `CAP` where it is larger.
pub(crate) fn capped_number(digits: &[u8]) -> u128
    requires { All IsAsciiDigit digits.now }
    ensures { result ≡ min (number_of digits.now) (2 ^ 64) }
{
    let mut number: u128 = 0;
    for digit in digits {
        number = (number * 10 + u128::from(*digit - b'0')).min(CAP);
    }
    number
}
