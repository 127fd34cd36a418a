ghost use Rattle.std.specs.Prelude.{◌≡◌};
ghost use Rattle.lq_log.specs.Entries.{blank};
ghost use Rattle.lq_log.specs.Forms.{form_named, no_transition};

use crate::class::{ALERT, CHECK, COMMAND, NOTIFICATION, STATE};
use crate::field::Field;
use crate::read::blank;
use lq_events::{Kind, LogEntry};
use lq_records::Text;
use std::marker::Model;

/// A form of a log line: the class and the kind of its entry, and the fields of its text.
#[derive(Drop)]
pub(crate) struct LineForm {
    class: u8,
    kind: Kind,
    fields: &'static [Field],
}

impl Model for LineForm {
    ghost use Rattle.lq_log.specs.Forms.{LineForm};

    ghost Value = { LineForm };

    ghost view = { λ form. record {
      class = form.class;
      kind = form.kind;
      fields = form.fields.now;
    } };
}

impl LineForm {
    /// The form with a name. None where no form has it.
    pub(crate) fn of_name(name: &str) -> Option<Self>
        ensures { result ≡ form_named name.now }
    {
        Some(match name {
            "HOST ALERT" => form(ALERT, Kind::HostAlert, HOST_STATE),
            "SERVICE ALERT" => form(ALERT, Kind::ServiceAlert, SERVICE_STATE),
            "CURRENT HOST STATE" => form(STATE, Kind::CurrentHostState, HOST_STATE),
            "INITIAL HOST STATE" => form(STATE, Kind::InitialHostState, HOST_STATE),
            "CURRENT SERVICE STATE" => form(STATE, Kind::CurrentServiceState, SERVICE_STATE),
            "INITIAL SERVICE STATE" => form(STATE, Kind::InitialServiceState, SERVICE_STATE),
            "HOST DOWNTIME ALERT" => form(ALERT, Kind::HostDowntimeAlert, HOST_DOWNTIME),
            "SERVICE DOWNTIME ALERT" => form(ALERT, Kind::ServiceDowntimeAlert, SERVICE_DOWNTIME),
            "HOST FLAPPING ALERT" => form(ALERT, Kind::HostFlappingAlert, HOST_FLAPPING),
            "SERVICE FLAPPING ALERT" => form(ALERT, Kind::ServiceFlappingAlert, SERVICE_FLAPPING),
            "HOST NOTIFICATION" => form(NOTIFICATION, Kind::HostNotification, HOST_NOTIFICATION),
            "SERVICE NOTIFICATION" => form(
                NOTIFICATION,
                Kind::ServiceNotification,
                SERVICE_NOTIFICATION,
            ),
            "EXTERNAL COMMAND" => form(COMMAND, Kind::ExternalCommand, NO_FIELDS),
            "PASSIVE HOST CHECK" => form(CHECK, Kind::PassiveHostCheck, HOST_CHECK),
            "PASSIVE SERVICE CHECK" => form(CHECK, Kind::PassiveServiceCheck, SERVICE_CHECK),
            "TIMEPERIOD TRANSITION" => form(STATE, no_transition(), TRANSITION),
            _ => return None,
        })
    }

    /// The fields of its text, in order.
    pub(crate) fn fields(&self) -> &'static [Field]
        ensures { result.now ≡ self.now.fields }
    {
        self.fields
    }

    /// An entry of the form without its fields.
    pub(crate) fn into_blank(self) -> LogEntry
        ensures { result ≡ blank self.class self.kind }
    {
        blank(self.class, self.kind)
    }
}

fn form(class: u8, kind: Kind, fields: &'static [Field]) -> LineForm
    ensures { result ≡ record { class = class; kind = kind; fields = fields.now } }
{
    LineForm {
        class,
        kind,
        fields,
    }
}

/// A transition of which nothing is known yet.
fn no_transition() -> Kind
    ensures { result ≡ no_transition }
{
    Kind::TimeperiodTransition {
        name: Text::empty(),
        from: 0,
        to: 0,
    }
}

const HOST_STATE: &[Field] = &[
    Field::HostName,
    Field::HostState,
    Field::StateType,
    Field::Attempt,
    Field::PluginOutput,
];

const SERVICE_STATE: &[Field] = &[
    Field::HostName,
    Field::ServiceDescription,
    Field::ServiceState,
    Field::StateType,
    Field::Attempt,
    Field::PluginOutput,
];

const HOST_DOWNTIME: &[Field] = &[Field::HostName, Field::DowntimeWord, Field::Comment];

const SERVICE_DOWNTIME: &[Field] = &[
    Field::HostName,
    Field::ServiceDescription,
    Field::DowntimeWord,
    Field::Comment,
];

const HOST_FLAPPING: &[Field] = &[Field::HostName, Field::FlappingWord, Field::Comment];

const SERVICE_FLAPPING: &[Field] = &[
    Field::HostName,
    Field::ServiceDescription,
    Field::FlappingWord,
    Field::Comment,
];

const HOST_NOTIFICATION: &[Field] = &[
    Field::ContactName,
    Field::HostName,
    Field::HostWord,
    Field::CommandName,
    Field::PluginOutput,
];

const SERVICE_NOTIFICATION: &[Field] = &[
    Field::ContactName,
    Field::HostName,
    Field::ServiceDescription,
    Field::ServiceWord,
    Field::CommandName,
    Field::PluginOutput,
];

const HOST_CHECK: &[Field] = &[Field::HostName, Field::Code, Field::PluginOutput];

const SERVICE_CHECK: &[Field] = &[
    Field::HostName,
    Field::ServiceDescription,
    Field::Code,
    Field::PluginOutput,
];

const TRANSITION: &[Field] = &[Field::PeriodName, Field::From, Field::To];

const NO_FIELDS: &[Field] = &[];
