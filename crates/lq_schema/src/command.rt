ghost use Rattle.std.specs.Prelude.{◌≡◌};
ghost use Rattle.lq_schema.specs.Command.{command_heading};

use crate::columns::ColKind;
use crate::heading::Heading;

/// A column on a command.
#[derive(Clone, Copy)]
pub enum CommandColumn {
    Name,
    Line,
}

impl CommandColumn {
    /// The columns, in order.
    pub(crate) const ORDER: &'static [Self] = &[Self::Name, Self::Line];

    /// The name of the column, and the kind of its values.
    pub(crate) fn heading(self) -> Heading
        ensures { result ≡ command_heading self }
    {
        match self {
            Self::Name => Heading::new("name", ColKind::Str),
            Self::Line => Heading::new("line", ColKind::Str),
        }
    }
}
