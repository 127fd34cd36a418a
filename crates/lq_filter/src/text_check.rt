ghost use Rattle.std.specs.Prelude.{◌≡◌};
ghost use Rattle.lq_schema.specs.Value.{Words};
ghost use Rattle.lq_filter.specs.Ready.{check_of_text};
ghost use Rattle.lq_filter.specs.Tests.{is_met};

/// The text that a check asks for. It is lent by the check, so that a loop over many rows has it at
/// hand.
#[derive(Clone, Copy)]
pub struct TextCheck<'c> {
    /// Whether the text must be another one.
    pub negated: bool,
    /// The text that is asked for.
    pub operand: &'c str,
}

impl TextCheck<'_> {
    /// Whether a text is as the check asks. Of a text of another length no byte is read.
    #[inline]
    pub fn is_met(self, text: &str) -> bool
        ensures { result ≡ is_met (check_of_text self.entry) (Words text.now) }
    {
        (text == self.operand) != self.negated
    }
}
