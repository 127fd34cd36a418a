ghost use Rattle.std.specs.Prelude.{◌≡◌};
ghost use Rattle.lq_schema.specs.SchemaColumn.{schema_heading};

use crate::columns::ColKind;
use crate::heading::Heading;

/// A column on a column.
#[derive(Clone, Copy)]
pub enum SchemaColumn {
    Table,
    Name,
    Type,
    Description,
}

impl SchemaColumn {
    /// The columns, in order.
    pub(crate) const ORDER: &'static [Self] = &[
        Self::Table,
        Self::Name,
        Self::Type,
        Self::Description,
    ];

    /// The name of the column, and the kind of its values.
    pub(crate) fn heading(self) -> Heading
        ensures { result ≡ schema_heading self }
    {
        match self {
            Self::Table => Heading::new("table", ColKind::Str),
            Self::Name => Heading::new("name", ColKind::Str),
            Self::Type => Heading::new("type", ColKind::Str),
            Self::Description => Heading::new("description", ColKind::Str),
        }
    }
}
