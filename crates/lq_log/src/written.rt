ghost use Rattle.std.specs.Prelude.{◌≡◌, ◌<◌, ◌++◌, IfOk, OnOk, Some, codes, string_bytes, true};
ghost use Rattle.std.specs.Fmt.{decimal};
ghost use Rattle.lq_log.specs.Entries.{IsOfLine, blank, entry_of, entry_of_text};
ghost use Rattle.lq_log.specs.Book.{time_limit};
ghost use Rattle.lq_log.specs.Fields.{has_semicolon};
ghost use Rattle.lq_log.specs.Said.{kind_of_alert, downtime_comment, kind_of_downtime, downtime_word};
ghost use Rattle.lq_log.specs.Said.{host_comment, is_plain_object, is_plain_result};
ghost use Rattle.lq_log.specs.Said.{says_own_fields, service_comment};
ghost use Rattle.lq_log.specs.Written.{alert_name, downtime_fields, downtime_name, form_text};
ghost use Rattle.lq_log.specs.Written.{entry_of_form, line_at_second, next_field, object_text};
ghost use Rattle.lq_log.specs.Written.{state_word, type_word};

use crate::class::{ALERT, COMMAND};
use crate::read::{blank, entry_of_text};
use crate::texts::Texts;
use crate::words::{host_state_name, service_state_name};
use itoa::Buffer;
use lq_events::{Kind, LogEntry};
use lq_records::{Memory, Text};
use std::alloc::Global;

/// Room for a second in brackets, of 20 digits at most, and the blank after it. A line that has its
/// room at once is moved no more as it grows.
const STAMP_BYTES: usize = 23;

/// Room for what stands before an external command.
const EXTERNAL_BYTES: usize = 18;

/// Room for what stands before the output of an alert, where names are no longer than most are.
const ALERT_BYTES: usize = 128;

/// An attempt below it has 9 digits at most, and reads as one.
const ATTEMPT_LIMIT: u32 = 1_000_000_000;

/// What happens to a downtime.
#[derive(Clone, Copy)]
pub enum DowntimeChange {
    /// It begins.
    Started,
    /// It ends.
    Stopped,
    /// It is removed before its end.
    Cancelled,
}

/// A line that the program writes.
#[derive(Drop)]
pub enum Form {
    /// An external command.
    External {
        /// The command's text, its own second left out.
        text: Text,
    },
    /// A check's result that changed the state of a host or a service, the type of that state or
    /// the attempt.
    Alert {
        host: Text,
        /// The service's description; empty where the host's own state changed.
        service: Text,
        /// Of a host 0 to 2, of a service 0 to 3; another number is written as no name.
        state: i64,
        /// Whether the state is a hard one.
        hard: bool,
        attempt: u32,
        output: Text,
    },
    /// A downtime that begins, ends or is removed.
    Downtime {
        host: Text,
        /// The service's description; empty where the downtime is the host's own.
        service: Text,
        change: DowntimeChange,
    },
}

/// The entry of a line that the program writes at a second, which is counted from the beginning of
/// 1970. Its message is the line with that second in brackets, and the rest is what the line's text
/// says. Of a command, and of an alert or a downtime whose names have no `;`, that is what the form
/// says, and the entry is made of it at once; an alert also has to have a state with a name and an
/// attempt of 9 digits at most. Any other text is read back, since it says something else: a host's
/// name with a `;` reads as two fields. A second below `TIME_LIMIT` has at most 12 digits, so that
/// `read_line` gives the same entry of the line. The only error is running out of memory.
pub fn make_line(alloc: Global, time: u64, form: &Form) -> Result<LogEntry, Memory>
    ensures made { IfOk result (λ entry. entry ≡ entry_of_form time form.now) }
    ensures own_text { time < time_limit
        → IfOk result (λ entry. entry_of entry.message 0 ≡ Some entry) }
    ensures line { time < time_limit → IfOk result IsOfLine }
{
    let text = form_text(alloc, form)?;
    let message = line_at_second(alloc, time, text.as_str())?;
    let mut entry = if says_own_fields(form) {
        entry_of_own_fields(alloc, form, &message)?
    } else {
        entry_read_back(alloc, text.as_str(), &message)?
    };
    entry.time = time;
    entry.message = message;
    Ok(entry)
}

/// Whether the text of a form says the form's own fields, so that it need not be read back.
fn says_own_fields(form: &Form) -> bool
    ensures { result ≡ says_own_fields form.now }
{
    match form {
        Form::External { .. } => true,
        Form::Alert {
            host,
            service,
            state,
            attempt,
            ..
        } => {
            let service = service.as_str();
            is_plain_object(host.as_str(), service) && is_plain_result(service, *state, *attempt)
        }
        Form::Downtime { host, service, .. } => is_plain_object(host.as_str(), service.as_str()),
    }
}

/// Whether a host's name and a service's description read as one field each.
fn is_plain_object(host: &str, service: &str) -> bool
    ensures { result ≡ is_plain_object host.now service.now }
{
    !has_semicolon(host) && !has_semicolon(service)
}

/// Whether a state and an attempt read as such.
fn is_plain_result(service: &str, state: i64, attempt: u32) -> bool
    ensures { result ≡ is_plain_result service.now state attempt }
{
    !state_word(service, state).is_empty() && attempt < ATTEMPT_LIMIT
}

fn has_semicolon(text: &str) -> bool
    ensures { result ≡ has_semicolon text.now }
{
    text.as_bytes().contains(&b';')
}

/// The entry of a form whose text says the form's own fields, without its time and its message.
fn entry_of_own_fields(alloc: Global, form: &Form, message: &Text) -> Result<LogEntry, Memory>
    requires { says_own_fields form.now ≡ true }
    ensures { IfOk result (λ entry. entry ≡ entry_of_text (form_text form.now)) }
{
    match form {
        Form::External { .. } => Ok(blank(COMMAND, Kind::ExternalCommand)),
        Form::Alert {
            host,
            service,
            state,
            hard,
            attempt,
            output,
        } => {
            let mut entry = entry_of_object(kind_of_alert(service.as_str()), host, service)?;
            entry.state = *state;
            entry.word = Text::new(alloc, type_word(*hard))?;
            entry.attempt = *attempt;
            // It is the end of the line, as a downtime's comment below: both share its bytes.
            entry.output = message.with_end(alloc, output.as_str())?;
            Ok(entry)
        }
        Form::Downtime {
            host,
            service,
            change,
        } => {
            let mut entry = entry_of_object(kind_of_downtime(service.as_str()), host, service)?;
            entry.word = Text::new(alloc, downtime_word(*change))?;
            entry.comment = message.with_end(alloc, downtime_comment(service.as_str(), *change))?;
            Ok(entry)
        }
    }
}

/// An entry of an alert or a downtime that says no more than its kind, its host and its service.
fn entry_of_object(kind: Kind, host: &Text, service: &Text) -> Result<LogEntry, Memory>
    ensures { IfOk result
        (λ entry. entry ≡ record (blank 1 kind) { host = host.now; service = service.now }) }
{
    let mut entry = blank(ALERT, kind);
    entry.host = host.clone()?;
    entry.service = service.clone()?;
    Ok(entry)
}

/// What a text says, found by reading it. Few forms need it.
#[inline(never)]
fn entry_read_back(alloc: Global, text: &str, message: &Text) -> Result<LogEntry, Memory>
    ensures { IfOk result (λ entry. entry ≡ entry_of_text text.now) }
{
    let mut texts = Texts::of_a_line(alloc);
    texts.begin(message)?;
    entry_of_text(&mut texts, text)
}

/// The line of a text, with its second.
#[tactic(auto, unfolding(crate::specs::Written::line_at_second))]
fn line_at_second(alloc: Global, time: u64, text: &str) -> Result<Text, Memory>
    ensures { IfOk result (λ line. line ≡ line_at_second time text.now) }
{
    let mut line = String::with_capacity(alloc, text.len() + STAMP_BYTES)?;
    line.push_str("[")?;
    push_digits(&mut line, time)?;
    line.push_str("] ")?;
    line.push_str(text)?;
    Text::from_string(line)
}

/// The text of a form.
#[tactic(auto, unfolding(crate::specs::Written::form_text))]
fn form_text(alloc: Global, form: &Form) -> Result<String, Memory>
    ensures { IfOk result (λ text. string_bytes text ≡ form_text form.now) }
{
    match form {
        Form::External { text } => external_text(alloc, text.as_str()),
        Form::Alert {
            host,
            service,
            state,
            hard,
            attempt,
            output,
        } => {
            let output = output.as_str();
            let mut text = String::with_capacity(alloc, output.len() + ALERT_BYTES)?;
            push_alert_start(&mut text, host.as_str(), service.as_str(), *state)?;
            push_result(&mut text, *hard, *attempt, output)?;
            Ok(text)
        }
        Form::Downtime {
            host,
            service,
            change,
        } => downtime_text(alloc, host.as_str(), service.as_str(), *change),
    }
}

fn external_text(alloc: Global, command: &str) -> Result<String, Memory>
    ensures { IfOk result (λ text. string_bytes text ≡ codes "EXTERNAL COMMAND: " ++ command.now) }
{
    let mut text = String::with_capacity(alloc, command.len() + EXTERNAL_BYTES)?;
    text.push_str("EXTERNAL COMMAND: ")?;
    text.push_str(command)?;
    Ok(text)
}

/// Appends an alert up to its state.
fn push_alert_start(text: &mut String, host: &str, service: &str, state: i64) -> Result<(), Memory>
    ensures { OnOk result
        (string_bytes text.new
        ≡ string_bytes text.old ++ alert_name service.now ++ object_text host.now service.now
        ++ next_field (state_word service.now state)) }
{
    text.push_str(alert_name(service))?;
    push_object(text, host, service)?;
    push_field(text, state_word(service, state))
}

/// Appends the fields of an alert that follow its state.
fn push_result(text: &mut String, hard: bool, attempt: u32, output: &str) -> Result<(), Memory>
    ensures { OnOk result
        (string_bytes text.new
        ≡ string_bytes text.old ++ next_field (type_word hard) ++ next_field (decimal attempt)
        ++ next_field output.now) }
{
    push_field(text, type_word(hard))?;
    let mut digits = Buffer::new();
    push_field(text, digits.format(attempt))?;
    push_field(text, output)
}

/// Appends the digits of a number.
fn push_digits(text: &mut String, number: u64) -> Result<(), Memory>
    ensures { OnOk result (string_bytes text.new ≡ string_bytes text.old ++ decimal number) }
{
    let mut digits = Buffer::new();
    text.push_str(digits.format(number))
}

fn downtime_text(
    alloc: Global,
    host: &str,
    service: &str,
    change: DowntimeChange,
) -> Result<String, Memory>
    ensures { IfOk result
        (λ text. string_bytes text
        ≡ downtime_name service.now ++ object_text host.now service.now
        ++ next_field (downtime_fields service.now change)) }
{
    let mut text = String::from_str(alloc, downtime_name(service))?;
    push_object(&mut text, host, service)?;
    push_field(&mut text, downtime_word(change))?;
    push_field(&mut text, downtime_comment(service, change))?;
    Ok(text)
}

/// Appends a host, and a service's description after it.
#[tactic(auto, unfolding(crate::specs::Written::object_text))]
fn push_object(text: &mut String, host: &str, service: &str) -> Result<(), Memory>
    ensures { OnOk result
        (string_bytes text.new ≡ string_bytes text.old ++ object_text host.now service.now) }
{
    text.push_str(host)?;
    if service.is_empty() {
        return Ok(());
    }
    push_field(text, service)
}

/// Appends a field after another one.
fn push_field(text: &mut String, field: &str) -> Result<(), Memory>
    ensures { OnOk result (string_bytes text.new ≡ string_bytes text.old ++ next_field field.now) }
{
    text.push_str(";")?;
    text.push_str(field)
}

fn alert_name(service: &str) -> &'static str
    ensures { result.now ≡ alert_name service.now }
{
    if service.is_empty() {
        "HOST ALERT: "
    } else {
        "SERVICE ALERT: "
    }
}

fn state_word(service: &str, state: i64) -> &'static str
    ensures { result.now ≡ state_word service.now state }
{
    if service.is_empty() {
        host_state_name(state)
    } else {
        service_state_name(state)
    }
}

fn downtime_name(service: &str) -> &'static str
    ensures { result.now ≡ downtime_name service.now }
{
    if service.is_empty() {
        "HOST DOWNTIME ALERT: "
    } else {
        "SERVICE DOWNTIME ALERT: "
    }
}

fn kind_of_alert(service: &str) -> Kind
    ensures { result ≡ kind_of_alert service.now }
{
    if service.is_empty() {
        Kind::HostAlert
    } else {
        Kind::ServiceAlert
    }
}

fn kind_of_downtime(service: &str) -> Kind
    ensures { result ≡ kind_of_downtime service.now }
{
    if service.is_empty() {
        Kind::HostDowntimeAlert
    } else {
        Kind::ServiceDowntimeAlert
    }
}

fn type_word(hard: bool) -> &'static str
    ensures { result.now ≡ type_word hard }
{
    if hard { "HARD" } else { "SOFT" }
}

/// What happens to a downtime.
fn downtime_word(change: DowntimeChange) -> &'static str
    ensures { result.now ≡ downtime_word change }
{
    match change {
        DowntimeChange::Started => "STARTED",
        DowntimeChange::Stopped => "STOPPED",
        DowntimeChange::Cancelled => "CANCELLED",
    }
}

/// The comment that follows what happens to a downtime. It begins with a blank.
fn downtime_comment(service: &str, change: DowntimeChange) -> &'static str
    ensures { result.now ≡ downtime_comment service.now change }
{
    if service.is_empty() {
        host_comment(change)
    } else {
        service_comment(change)
    }
}

fn host_comment(change: DowntimeChange) -> &'static str
    ensures { result.now ≡ host_comment change }
{
    match change {
        DowntimeChange::Started => " Host has entered a period of scheduled downtime",
        DowntimeChange::Stopped => " Host has exited from a period of scheduled downtime",
        DowntimeChange::Cancelled => " Scheduled downtime for host has been cancelled.",
    }
}

fn service_comment(change: DowntimeChange) -> &'static str
    ensures { result.now ≡ service_comment change }
{
    match change {
        DowntimeChange::Started => " Service has entered a period of scheduled downtime",
        DowntimeChange::Stopped => " Service has exited from a period of scheduled downtime",
        DowntimeChange::Cancelled => " Scheduled downtime for service has been cancelled.",
    }
}
