ghost use Rattle.std.specs.Prelude.{◌≡◌};
ghost use Rattle.lq_schema.specs.Line.{line_heading};

use crate::columns::ColKind;
use crate::heading::Heading;

/// A column on a line of the log.
#[derive(Clone, Copy)]
pub enum LineColumn {
    Time,
    Class,
    Type,
    Message,
    Options,
    Comment,
    PluginOutput,
    State,
    StateType,
    Attempt,
    ContactName,
    CommandName,
    HostName,
    ServiceDescription,
}

impl LineColumn {
    /// The columns, in order.
    pub(crate) const ORDER: &'static [Self] = &[
        Self::Time,
        Self::Class,
        Self::Type,
        Self::Message,
        Self::Options,
        Self::Comment,
        Self::PluginOutput,
        Self::State,
        Self::StateType,
        Self::Attempt,
        Self::ContactName,
        Self::CommandName,
        Self::HostName,
        Self::ServiceDescription,
    ];

    /// The name of the column, and the kind of its values.
    pub(crate) fn heading(self) -> Heading
        ensures { result ≡ line_heading self }
    {
        match self {
            Self::Time => Heading::new("time", ColKind::Int),
            Self::Class => Heading::new("class", ColKind::Int),
            Self::Type => Heading::new("type", ColKind::Str),
            Self::Message => Heading::new("message", ColKind::Str),
            Self::Options => Heading::new("options", ColKind::Str),
            Self::Comment => Heading::new("comment", ColKind::Str),
            Self::PluginOutput => Heading::new("plugin_output", ColKind::Str),
            Self::State => Heading::new("state", ColKind::Int),
            Self::StateType => Heading::new("state_type", ColKind::Str),
            Self::Attempt => Heading::new("attempt", ColKind::Int),
            Self::ContactName => Heading::new("contact_name", ColKind::Str),
            Self::CommandName => Heading::new("command_name", ColKind::Str),
            Self::HostName => Heading::new("host_name", ColKind::Str),
            Self::ServiceDescription => Heading::new("service_description", ColKind::Str),
        }
    }
}
