ghost use Rattle.std.specs.Prelude.{◌≡◌, IfOk, OnOk, Some, pos, true, unwrap_or};
ghost use Rattle.std.specs.Option.{option_map};
ghost use Rattle.lq_events.specs.declared.log_entry.Kind.TheVariants.{TimeperiodTransition};
ghost use Rattle.lq_log.specs.Fields.{entry_where, with_field, with_fields, with_from, with_state};
ghost use Rattle.lq_log.specs.Fields.{with_to};

use crate::field::Field;
use crate::texts::Texts;
use crate::words::{
    attempt, code, host_state, integer, is_downtime_word, is_flapping_word, is_state_type,
    service_state,
};
use lq_events::{Kind, LogEntry};
use lq_records::{Memory, Text};

/// Fills an entry with the fields of a text, each up to its `;`, the last one to the end, and says
/// whether all of them are there and have their forms. What the entry holds is left open where they
/// don't. Entries are filled in place, since one has some 200 bytes.
pub(crate) fn fill_all(
    texts: &mut Texts,
    entry: &mut LogEntry,
    fields: &[Field],
    text: &str,
) -> Result<bool, Memory>
    ensures { IfOk result
        (λ fits. entry_where fits entry.new ≡ with_fields fields.now text.now entry.old) }
{
    let Some((field, later)) = fields.split_first() else {
        return Ok(true);
    };
    if later.is_empty() {
        return fill(texts, entry, *field, text);
    }
    let Some((front, rest)) = text.split_once(';') else {
        return Ok(false);
    };
    if !fill(texts, entry, *field, front)? {
        return Ok(false);
    }
    fill_all(texts, entry, later, rest)
}

/// Fills an entry with a field, and says whether the field has its form.
fn fill(texts: &mut Texts, entry: &mut LogEntry, field: Field, text: &str) -> Result<bool, Memory>
    ensures { IfOk result
        (λ fits. entry_where fits entry.new ≡ with_field entry.old field text.now) }
{
    match field {
        Field::HostName => share(texts, &mut entry.host, text),
        Field::ServiceDescription => share(texts, &mut entry.service, text),
        Field::HostState => Ok(fill_state(entry, host_state(text))),
        Field::ServiceState => Ok(fill_state(entry, service_state(text))),
        Field::StateType => fill_word(texts, entry, is_state_type(text), text),
        Field::Attempt => Ok(fill_attempt(entry, attempt(text))),
        Field::Code => Ok(fill_state(entry, code(text))),
        Field::DowntimeWord => fill_word(texts, entry, is_downtime_word(text), text),
        Field::FlappingWord => fill_word(texts, entry, is_flapping_word(text), text),
        Field::HostWord => fill_notice(texts, entry, host_state(text), text),
        Field::ServiceWord => fill_notice(texts, entry, service_state(text), text),
        Field::PluginOutput => set(texts, &mut entry.output, text),
        Field::Comment => set(texts, &mut entry.comment, text),
        Field::ContactName => share(texts, &mut entry.contact, text),
        Field::CommandName => share(texts, &mut entry.command, text),
        Field::PeriodName => fill_period(texts, entry, text),
        Field::From => Ok(fill_from(entry, integer(text))),
        Field::To => Ok(fill_to(entry, integer(text))),
    }
}

/// Sets a field that may be any text, and in most lines is the end of the line.
fn set(texts: &Texts, place: &mut Text, text: &str) -> Result<bool, Memory>
    ensures fits { IfOk result (λ fits. fits ≡ true) }
    ensures set { OnOk result (place.new ≡ text.now) }
{
    *place = texts.of_line(text)?;
    Ok(true)
}

/// Sets a field that many lines have alike.
fn share(texts: &mut Texts, place: &mut Text, text: &str) -> Result<bool, Memory>
    ensures fits { IfOk result (λ fits. fits ≡ true) }
    ensures set { OnOk result (place.new ≡ text.now) }
{
    *place = texts.share(text)?;
    Ok(true)
}

/// Fills in a state, where there is one.
fn fill_state(entry: &mut LogEntry, state: Option<i64>) -> bool
    ensures { entry_where result entry.new ≡ with_state state entry.old }
{
    match state {
        Some(state) => {
            entry.state = state;
            true
        }
        None => false,
    }
}

/// Fills in an attempt, where there is one.
fn fill_attempt(entry: &mut LogEntry, attempt: Option<u32>) -> bool
    ensures { entry_where result entry.new
        ≡ option_map (λ number. record entry.old { attempt = number }) attempt }
{
    match attempt {
        Some(attempt) => {
            entry.attempt = attempt;
            true
        }
        None => false,
    }
}

/// Fills in a word, where it is one of its field.
fn fill_word(
    texts: &mut Texts,
    entry: &mut LogEntry,
    fits: bool,
    text: &str,
) -> Result<bool, Memory>
    ensures { IfOk result (λ filled. entry_where filled entry.new
        ≡ entry_where fits (record entry.old { word = text.now })) }
{
    if !fits {
        return Ok(false);
    }
    share(texts, &mut entry.word, text)
}

/// Fills in the word of a notification, and the state that it names, where it names one.
fn fill_notice(
    texts: &mut Texts,
    entry: &mut LogEntry,
    state: Option<i64>,
    text: &str,
) -> Result<bool, Memory>
    ensures { IfOk result (λ fits. entry_where fits entry.new
        ≡ Some (record entry.old { word = text.now; state = unwrap_or state (pos 0) })) }
{
    entry.state = state.unwrap_or(0);
    share(texts, &mut entry.word, text)
}

/// Fills in the name of the period that goes over.
fn fill_period(texts: &mut Texts, entry: &mut LogEntry, text: &str) -> Result<bool, Memory>
    ensures { IfOk result (λ fits. entry_where fits entry.new
        ≡ Some (record entry.old { kind = TimeperiodTransition text.now (pos 0) (pos 0) })) }
{
    entry.kind = Kind::TimeperiodTransition {
        name: texts.share(text)?,
        from: 0,
        to: 0,
    };
    Ok(true)
}

/// Fills in what a period goes over from, where that is a number.
fn fill_from(entry: &mut LogEntry, number: Option<i64>) -> bool
    ensures { entry_where result entry.new
        ≡ option_map (λ from. record entry.old { kind = with_from from entry.old.kind }) number }
{
    let Some(number) = number else {
        return false;
    };
    if let Kind::TimeperiodTransition { from, .. } = &mut entry.kind {
        *from = number;
    }
    true
}

/// Fills in what a period goes over to, where that is a number.
fn fill_to(entry: &mut LogEntry, number: Option<i64>) -> bool
    ensures { entry_where result entry.new
        ≡ option_map (λ to. record entry.old { kind = with_to to entry.old.kind }) number }
{
    let Some(number) = number else {
        return false;
    };
    if let Kind::TimeperiodTransition { to, .. } = &mut entry.kind {
        *to = number;
    }
    true
}
