ghost use Rattle.std.specs.Prelude.{◌≡◌, ◌<◌, ◌≤◌, IfOk, IfSome, nat_eq};
ghost use Rattle.std.specs.List.{list_any, starts_with};
ghost use Rattle.std.specs.Option.{option_and_then};
ghost use Rattle.lq_log.specs.Entries.{IsOfLine, blank, entry_of, entry_of_parts, other};
ghost use Rattle.lq_log.specs.Entries.{parts_at_colon, program_beginnings, entry_of_text};
ghost use Rattle.lq_log.specs.Book.{time_limit};

use crate::class;
use crate::fill::fill_all;
use crate::form::LineForm;
use crate::split::{parts_at_colon, second_and_text};
use crate::texts::Texts;
use lq_events::{Kind, LogEntry};
use lq_records::{Memory, Text};
use std::alloc::Global;

/// The entry of a line. `before` is the time of the entry before it, 0 for the first; the entry's
/// own time is never less. Both are seconds counted from the beginning of 1970. None where no `[`,
/// 1 to 12 digits and `]` stand at its front. A line whose text has the name of a form and not its
/// fields says nothing but its message and its time. The only error is running out of memory.
pub fn read_line(alloc: Global, line: &str, before: u64) -> Result<Option<LogEntry>, Memory>
    ensures read { IfOk result (λ entry. entry ≡ entry_of line.now before) }
    ensures line { IfOk result (λ read. IfSome read IsOfLine) }
    ensures order { IfOk result (λ read. IfSome read (λ entry. before ≤ entry.time)) }
    ensures below { before < time_limit
        → IfOk result (λ read. IfSome read (λ entry. entry.time < time_limit)) }
{
    entry_of(
        &mut Texts::of_a_line(alloc),
        Text::new(alloc, line)?,
        before,
    )
}

/// The entry of a line, which becomes its message.
pub(crate) fn entry_of(
    texts: &mut Texts,
    line: Text,
    before: u64,
) -> Result<Option<LogEntry>, Memory>
    ensures read { IfOk result (λ entry. entry ≡ entry_of line before) }
    ensures line { IfOk result (λ read. IfSome read IsOfLine) }
    ensures order { IfOk result (λ read. IfSome read (λ entry. before ≤ entry.time)) }
    ensures below { before < time_limit
        → IfOk result (λ read. IfSome read (λ entry. entry.time < time_limit)) }
{
    let Some((second, text)) = second_and_text(line.as_str()) else {
        return Ok(None);
    };
    texts.begin(&line)?;
    let mut entry = entry_of_text(texts, text)?;
    entry.time = second.max(before);
    entry.message = line;
    Ok(Some(entry))
}

/// What a text says.
pub(crate) fn entry_of_text(texts: &mut Texts, text: &str) -> Result<LogEntry, Memory>
    ensures { IfOk result (λ entry. entry ≡ entry_of_text text.now) }
{
    match with_form(texts, text)? {
        Some(entry) => Ok(entry),
        None => Ok(other(text)),
    }
}

/// What a text says that has the name and the fields of a form.
fn with_form(texts: &mut Texts, text: &str) -> Result<Option<LogEntry>, Memory>
    ensures { IfOk result (λ entry. entry ≡ option_and_then entry_of_parts
        (parts_at_colon text.now)) }
{
    let Some((name, rest)) = parts_at_colon(text) else {
        return Ok(None);
    };
    let Some(form) = LineForm::of_name(name) else {
        return Ok(None);
    };
    let fields = form.fields();
    let mut entry = form.into_blank();
    if fill_all(texts, &mut entry, fields, rest)? {
        Ok(Some(entry))
    } else {
        Ok(None)
    }
}

/// The entry of a text without a form.
fn other(text: &str) -> LogEntry
    ensures { result ≡ other text.now }
{
    let class = if is_of_program(text) {
        class::PROGRAM
    } else {
        class::OTHER
    };
    blank(class, Kind::Other)
}

/// Whether a text tells of the program's own run.
fn is_of_program(text: &str) -> bool
    ensures { result ≡ list_any (starts_with nat_eq text.now) program_beginnings }
{
    let bytes = text.as_bytes();
    bytes.starts_with(b"LOG VERSION")
        || bytes.starts_with(b"LOG ROTATION")
        || bytes.starts_with(b"Nagios ")
        || bytes.starts_with(b"Caught ")
        || bytes.starts_with(b"Successfully shutdown")
        || bytes.starts_with(b"Bailing out")
        || bytes.starts_with(b"Finished daemonizing")
        || bytes.starts_with(b"Auto-save of retention data")
}

/// An entry of a class and a kind that says nothing more.
pub(crate) fn blank(class: u8, kind: Kind) -> LogEntry
    ensures { result ≡ blank class kind }
{
    LogEntry {
        time: 0,
        class,
        kind,
        message: Text::empty(),
        host: Text::empty(),
        service: Text::empty(),
        state: 0,
        word: Text::empty(),
        attempt: 0,
        contact: Text::empty(),
        command: Text::empty(),
        output: Text::empty(),
        comment: Text::empty(),
    }
}
