ghost use Rattle.std.specs.Prelude.{◌≡◌, ◌<◌, ◌^◌, unsigned_abs};
ghost use Rattle.lq_records.specs.Micros.{quotient};

use std::fmt::{self, Display};

/// A number in millionths.
#[derive(Clone, Copy)]
pub struct Micro {
    /// How many millionths it is.
    pub millionths: i128,
}

impl Micro {
    /// The quotient of a sum and a count that isn't 0, as the nearest millionth, half of one away
    /// from zero. The sum is less than 2^106 away from zero.
    pub fn quotient(sum: i128, n: u64) -> Micro
        requires some { 0 < n }
        requires size { unsigned_abs sum < 2 ^ 106 }
        ensures { result.millionths ≡ quotient sum n }
    {
        let count = u128::from(n);
        let nearest = (sum.unsigned_abs() * 1_000_000 * 2 + count) / (count * 2);
        let nearest = nearest as i128;
        Micro {
            millionths: if sum < 0 { -nearest } else { nearest },
        }
    }
}

impl Display for Micro {
    ghost use Rattle.std.specs.Prelude.{Some};
    ghost use Rattle.lq_records.specs.Micros.{micro_text};

    ghost output = { λ micro. Some (micro_text micro.millionths) };

    /// The digits before the point, a point, and six more; with `-` before them where it is below
    /// 0.
    fn fmt<W: fmt::Write>(&self, f: &mut fmt::Formatter<W>) -> fmt::Result {
        let size = self.millionths.unsigned_abs();
        let whole = size / 1_000_000;
        let high = ThreeDigits((size % 1_000_000 / 1000) as u16);
        let low = ThreeDigits((size % 1000) as u16);
        if self.millionths < 0 {
            write!(f, "-{whole}.{high}{low}")
        } else {
            write!(f, "{whole}.{high}{low}")
        }
    }
}

/// A number below 1000, with its leading zeros.
#[derive(Clone, Copy)]
struct ThreeDigits(u16);

impl Display for ThreeDigits {
    ghost use Rattle.std.specs.Prelude.{Some};
    ghost use Rattle.lq_records.specs.Micros.{three_digits};

    ghost output = { λ digits. Some (three_digits digits.0) };

    fn fmt<W: fmt::Write>(&self, f: &mut fmt::Formatter<W>) -> fmt::Result {
        write!(f, "{}{}{}", self.0 / 100, self.0 / 10 % 10, self.0 % 10)
    }
}
