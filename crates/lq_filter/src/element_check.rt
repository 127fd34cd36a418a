ghost use Rattle.std.specs.Prelude.{◌≡◌};
ghost use Rattle.lq_filter.specs.Tests.{negated_if};

/// The element that a check asks for in a list. It is lent by the check, so that a loop over many
/// rows has it at hand.
#[derive(Clone, Copy)]
pub struct ElementCheck<'c> {
    /// Whether the list must not have the element.
    pub negated: bool,
    /// The text that is looked for.
    pub element: &'c str,
}

impl ElementCheck<'_> {
    /// Whether a list is as the check asks, by whether it has the element.
    #[inline]
    pub fn is_met(self, found: bool) -> bool
        ensures { result ≡ negated_if self.entry.negated found }
    {
        found != self.negated
    }
}
