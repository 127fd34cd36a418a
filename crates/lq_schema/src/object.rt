ghost use Rattle.std.specs.Prelude.{◌≡◌};
ghost use Rattle.lq_schema.specs.Object.{object_heading};

use crate::columns::ColKind;
use crate::heading::Heading;

/// A column on what hosts and services share as objects.
#[derive(Clone, Copy)]
pub enum ObjectColumn {
    DisplayName,
    CheckCommand,
    CheckPeriod,
    NotificationPeriod,
    MaxCheckAttempts,
    Notes,
    NotesUrl,
    ActionUrl,
    IconImage,
    Contacts,
    ContactGroups,
    Groups,
    CustomVariableNames,
    CustomVariableValues,
}

impl ObjectColumn {
    /// The columns, in order.
    pub(crate) const ORDER: &'static [Self] = &[
        Self::DisplayName,
        Self::CheckCommand,
        Self::CheckPeriod,
        Self::NotificationPeriod,
        Self::MaxCheckAttempts,
        Self::Notes,
        Self::NotesUrl,
        Self::ActionUrl,
        Self::IconImage,
        Self::Contacts,
        Self::ContactGroups,
        Self::Groups,
        Self::CustomVariableNames,
        Self::CustomVariableValues,
    ];

    /// The name of the column, and the kind of its values.
    pub(crate) fn heading(self) -> Heading
        ensures { result ≡ object_heading self }
    {
        match self {
            Self::DisplayName => Heading::new("display_name", ColKind::Str),
            Self::CheckCommand => Heading::new("check_command", ColKind::Str),
            Self::CheckPeriod => Heading::new("check_period", ColKind::Str),
            Self::NotificationPeriod => Heading::new("notification_period", ColKind::Str),
            Self::MaxCheckAttempts => Heading::new("max_check_attempts", ColKind::Int),
            Self::Notes => Heading::new("notes", ColKind::Str),
            Self::NotesUrl => Heading::new("notes_url", ColKind::Str),
            Self::ActionUrl => Heading::new("action_url", ColKind::Str),
            Self::IconImage => Heading::new("icon_image", ColKind::Str),
            Self::Contacts => Heading::new("contacts", ColKind::List),
            Self::ContactGroups => Heading::new("contact_groups", ColKind::List),
            Self::Groups => Heading::new("groups", ColKind::List),
            Self::CustomVariableNames => Heading::new("custom_variable_names", ColKind::List),
            Self::CustomVariableValues => Heading::new("custom_variable_values", ColKind::List),
        }
    }
}
