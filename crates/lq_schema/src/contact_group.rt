ghost use Rattle.std.specs.Prelude.{◌≡◌};
ghost use Rattle.lq_schema.specs.ContactGroup.{contact_group_heading};

use crate::columns::ColKind;
use crate::heading::Heading;

/// A column on a group of contacts.
#[derive(Clone, Copy)]
pub enum ContactGroupColumn {
    Name,
    Alias,
    Members,
}

impl ContactGroupColumn {
    /// The columns, in order.
    pub(crate) const ORDER: &'static [Self] = &[Self::Name, Self::Alias, Self::Members];

    /// The name of the column, and the kind of its values.
    pub(crate) fn heading(self) -> Heading
        ensures { result ≡ contact_group_heading self }
    {
        match self {
            Self::Name => Heading::new("name", ColKind::Str),
            Self::Alias => Heading::new("alias", ColKind::Str),
            Self::Members => Heading::new("members", ColKind::List),
        }
    }
}
