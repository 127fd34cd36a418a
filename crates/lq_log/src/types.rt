ghost use Rattle.std.specs.Prelude.{◌≡◌};
ghost use Rattle.lq_log.specs.Types.{line_options, text_of_entry, line_type};

use crate::split::{parts_at_colon, second_and_text};
use lq_events::LogEntry;

/// The type of a line: what stands before the first colon with a blank after it in the text that
/// follows its second, or the whole text.
pub fn line_type(entry: &LogEntry) -> &str
    ensures { result.now ≡ line_type entry.now }
{
    let text = text_of_entry(entry);
    match parts_at_colon(text) {
        Some((name, _)) => name,
        None => text,
    }
}

/// The options of a line: what follows that colon and blank. Empty where there is none.
pub fn line_options(entry: &LogEntry) -> &str
    ensures { result.now ≡ line_options entry.now }
{
    match parts_at_colon(text_of_entry(entry)) {
        Some((_, options)) => options,
        None => "",
    }
}

/// The text that follows a line's second.
fn text_of_entry(entry: &LogEntry) -> &str
    ensures { result.now ≡ text_of_entry entry.now }
{
    let line = entry.message.as_str();
    match second_and_text(line) {
        Some((_, text)) => text,
        None => line,
    }
}
