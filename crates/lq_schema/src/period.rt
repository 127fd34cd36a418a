ghost use Rattle.std.specs.Prelude.{◌≡◌};
ghost use Rattle.lq_schema.specs.Period.{period_heading};

use crate::columns::ColKind;
use crate::heading::Heading;

/// A column on a time period.
#[derive(Clone, Copy)]
pub enum PeriodColumn {
    Name,
    Alias,
    In,
}

impl PeriodColumn {
    /// The columns, in order.
    pub(crate) const ORDER: &'static [Self] = &[Self::Name, Self::Alias, Self::In];

    /// The name of the column, and the kind of its values.
    pub(crate) fn heading(self) -> Heading
        ensures { result ≡ period_heading self }
    {
        match self {
            Self::Name => Heading::new("name", ColKind::Str),
            Self::Alias => Heading::new("alias", ColKind::Str),
            Self::In => Heading::new("in", ColKind::Int),
        }
    }
}
