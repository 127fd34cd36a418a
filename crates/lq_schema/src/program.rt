ghost use Rattle.std.specs.Prelude.{◌≡◌};
ghost use Rattle.lq_schema.specs.Program.{program_heading};

use crate::columns::ColKind;
use crate::heading::Heading;

/// A column on the program as a whole.
#[derive(Clone, Copy)]
pub enum ProgramColumn {
    ProgramVersion,
    EnableNotifications,
    NumHosts,
    NumServices,
    PresentSecond,
}

impl ProgramColumn {
    /// The columns, in order.
    pub(crate) const ORDER: &'static [Self] = &[
        Self::ProgramVersion,
        Self::EnableNotifications,
        Self::NumHosts,
        Self::NumServices,
        Self::PresentSecond,
    ];

    /// The name of the column, and the kind of its values.
    pub(crate) fn heading(self) -> Heading
        ensures { result ≡ program_heading self }
    {
        match self {
            Self::ProgramVersion => Heading::new("program_version", ColKind::Str),
            Self::EnableNotifications => Heading::new("enable_notifications", ColKind::Int),
            Self::NumHosts => Heading::new("num_hosts", ColKind::Int),
            Self::NumServices => Heading::new("num_services", ColKind::Int),
            Self::PresentSecond => Heading::new("present_second", ColKind::Int),
        }
    }
}
