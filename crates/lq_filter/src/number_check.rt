ghost use Rattle.std.specs.Prelude.{◌≡◌};
ghost use Rattle.lq_schema.specs.Value.{Number};
ghost use Rattle.lq_filter.specs.Ready.{check_of_number};
ghost use Rattle.lq_filter.specs.Tests.{is_met};

use std::cmp::Ordering;

/// What a check asks of a number. It is copied out of the check, so that a loop over many rows has
/// it at hand.
#[derive(Clone, Copy)]
pub struct NumberCheck {
    /// Whether the number must not compare so.
    pub negated: bool,
    /// How the number compares with the operand.
    pub ordering: Ordering,
    /// What it is compared with.
    pub operand: i64,
}

impl NumberCheck {
    /// Whether a number is as the check asks.
    #[inline]
    pub fn is_met(self, number: i128) -> bool
        ensures { result ≡ is_met (check_of_number self) (Number number) }
    {
        let operand = i128::from(self.operand);
        let compares = match self.ordering {
            Ordering::Equal => number == operand,
            Ordering::Less => number < operand,
            Ordering::Greater => number > operand,
        };
        compares != self.negated
    }
}
