ghost use Rattle.std.specs.Prelude.{◌≡◌, ◌<◌, IfSome, length};
ghost use Rattle.lq_log.specs.LastTold.{flapping_told, is_flapping, is_period_on, period_of_kind};
ghost use Rattle.lq_log.specs.LastTold.{period_told};
ghost use Rattle.lq_log.specs.Told.{has_started, is_hard, object_named, object_of, form_subject};
ghost use Rattle.lq_log.specs.Told.{told_by};

use lq_events::{Kind, LogEntry};
use lq_records::{Base, Object, ObjectKind};

/// What a log line tells of the object or the time period that it is about.
#[derive(Clone, Copy)]
pub enum Told {
    /// A state, whose number, attempt and output the entry has.
    State {
        /// Whether it is a hard one.
        hard: bool,
    },
    /// A downtime.
    Downtime {
        /// Whether it goes on from the line on.
        on: bool,
    },
    /// Flapping.
    Flapping {
        /// Whether it goes on from the line on.
        on: bool,
    },
    /// A time period.
    Period {
        /// Whether it is on from the line on.
        on: bool,
    },
}

/// What a line tells. None for a line that tells none of these.
pub fn told_by(entry: &LogEntry) -> Option<Told>
    ensures { result ≡ told_by entry.now }
{
    let word = entry.word.as_str();
    match &entry.kind {
        Kind::HostAlert
        | Kind::ServiceAlert
        | Kind::CurrentHostState
        | Kind::InitialHostState
        | Kind::CurrentServiceState
        | Kind::InitialServiceState => Some(Told::State {
            hard: is_hard(word),
        }),
        Kind::HostDowntimeAlert | Kind::ServiceDowntimeAlert => Some(Told::Downtime {
            on: has_started(word),
        }),
        Kind::HostFlappingAlert | Kind::ServiceFlappingAlert => Some(Told::Flapping {
            on: has_started(word),
        }),
        Kind::TimeperiodTransition { to, .. } => Some(Told::Period { on: *to == 1 }),
        _ => None,
    }
}

/// The object of a base that a line is about: the host, or the service, that its form names, where
/// the base has it. The line of an external command is about none.
pub fn object_of(base: &Base, entry: &LogEntry) -> Option<Object>
    ensures { result ≡ object_of base.now entry.now }
{
    let host = entry.host.as_str();
    match form_subject(&entry.kind)? {
        ObjectKind::Host => Some(Object::Host(base.hosts.find(host)?)),
        ObjectKind::Service => {
            let description = entry.service.as_str();
            Some(Object::Service(base.services.find(host, description)?))
        }
    }
}

/// Whether an object of a base is flapping after the lines of a log: the last line that tells of it
/// says so.
pub fn is_flapping(base: &Base, log: &[LogEntry], about: Object) -> bool
    ensures { result ≡ is_flapping base.now log.now about }
{
    let mut known = false;
    for entry in log {
        known = flapping_told(base, about, entry).unwrap_or(known);
    }
    known
}

/// What a line tells of an object's flapping.
fn flapping_told(base: &Base, about: Object, entry: &LogEntry) -> Option<bool>
    ensures { result ≡ flapping_told base.now about entry.now }
{
    let Some(Told::Flapping { on }) = told_by(entry) else {
        return None;
    };
    match object_of(base, entry) {
        Some(found) if about.is_same(found) => Some(on),
        _ => None,
    }
}

/// Whether the time period with a name is on after the lines of a log: the last line that tells of
/// it says so. It is on before the first such line, and where the name is empty.
pub fn is_period_on(log: &[LogEntry], name: &str) -> bool
    ensures { result ≡ is_period_on log.now name.now }
{
    let mut known = true;
    for entry in log {
        known = period_told(name, entry).unwrap_or(known);
    }
    known
}

/// What a line tells of the period with a name.
fn period_told(name: &str, entry: &LogEntry) -> Option<bool>
    ensures { result ≡ period_told name.now entry.now }
{
    match told_by(entry) {
        Some(Told::Period { on }) if !name.is_empty() && name == period_of(entry) => Some(on),
        _ => None,
    }
}

/// The name of the time period that goes over by a line, empty for a line of another form.
pub fn period_of(entry: &LogEntry) -> &str
    ensures { result.now ≡ period_of_kind entry.now.kind }
{
    match &entry.kind {
        Kind::TimeperiodTransition { name, .. } => name.as_str(),
        _ => "",
    }
}

/// Whether lines of a kind name a host or a service.
fn form_subject(kind: &Kind) -> Option<ObjectKind>
    ensures { result ≡ form_subject kind.now }
{
    match kind {
        Kind::HostAlert
        | Kind::CurrentHostState
        | Kind::InitialHostState
        | Kind::HostDowntimeAlert
        | Kind::HostFlappingAlert
        | Kind::HostNotification
        | Kind::PassiveHostCheck => Some(ObjectKind::Host),
        Kind::ServiceAlert
        | Kind::CurrentServiceState
        | Kind::InitialServiceState
        | Kind::ServiceDowntimeAlert
        | Kind::ServiceFlappingAlert
        | Kind::ServiceNotification
        | Kind::PassiveServiceCheck => Some(ObjectKind::Service),
        Kind::ExternalCommand | Kind::TimeperiodTransition { .. } | Kind::Other => None,
    }
}

fn is_hard(word: &str) -> bool
    ensures { result ≡ is_hard word.now }
{
    word == "HARD"
}

fn has_started(word: &str) -> bool
    ensures { result ≡ has_started word.now }
{
    word == "STARTED"
}
