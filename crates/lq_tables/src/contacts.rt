ghost use Rattle.std.specs.Prelude.{◌≡◌};
ghost use Rattle.std.specs.Option.{option_copied};
ghost use Rattle.lq_schema.specs.Value.{Words};
ghost use Rattle.lq_tables.specs.Parts.{command_cell, contact_cell};

use lq_records::{Command, Contact};
use lq_schema::{CommandColumn, ContactColumn};

/// The text of a column on a contact. All its columns are texts.
pub(crate) fn contact_text(contact: Option<&Contact>, column: ContactColumn) -> &str
    ensures { contact_cell (option_copied contact.entry) column ≡ Words result.now }
{
    let Some(contact) = contact else {
        return "";
    };
    match column {
        ContactColumn::Name => contact.contact_name.as_str(),
        ContactColumn::Alias => contact.alias.as_str(),
        ContactColumn::Email => contact.email.as_str(),
        ContactColumn::Pager => contact.pager.as_str(),
        ContactColumn::HostNotificationPeriod => contact.host_notification_period.as_str(),
        ContactColumn::ServiceNotificationPeriod => contact.service_notification_period.as_str(),
    }
}

/// The text of a column on a command. All its columns are texts.
pub(crate) fn command_text(command: Option<&Command>, column: CommandColumn) -> &str
    ensures { command_cell (option_copied command.entry) column ≡ Words result.now }
{
    let Some(command) = command else {
        return "";
    };
    match column {
        CommandColumn::Name => command.command_name.as_str(),
        CommandColumn::Line => command.command_line.as_str(),
    }
}
