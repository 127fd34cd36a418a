//! Lines of the log.

ghost use Rattle.std.specs.Prelude.{◌≡◌};
ghost use Rattle.std.specs.Option.{IfSome, IsSome, option_copied};
ghost use Rattle.lq_columns.specs.Plain.{HasNumbers, HasTexts};
ghost use Rattle.lq_schema.specs.Kinds.{line_kind};
ghost use Rattle.lq_schema.specs.Value.{Number, Words, meaning_of};
ghost use Rattle.lq_tables.specs.Parts.{line_cell};

use lq_columns::{empty_number, empty_text, empty_value};
use lq_events::LogEntry;
use lq_log::{line_options, line_type};
use lq_schema::{LineColumn, OwnColumn, Val};

/// The number of a column on a line, None where it is a text.
pub(crate) fn line_number(line: Option<&LogEntry>, column: LineColumn) -> Option<i128>
    ensures value { IfSome result (λ number.
        line_cell (option_copied line.entry) column ≡ Number number) }
    ensures given { HasNumbers (line_kind column) → IsSome result }
{
    let Some(line) = line else {
        return empty_number(OwnColumn::Line(column).kind());
    };
    Some(match column {
        LineColumn::Time => i128::from(line.time),
        LineColumn::Class => i128::from(line.class),
        LineColumn::State => i128::from(line.state),
        LineColumn::Attempt => i128::from(line.attempt),
        _ => return None,
    })
}

/// The text of a column on a line, None where it is a number.
pub(crate) fn line_text(line: Option<&LogEntry>, column: LineColumn) -> Option<&str>
    ensures value { IfSome result (λ text.
        line_cell (option_copied line.entry) column ≡ Words text.now) }
    ensures given { HasTexts (line_kind column) → IsSome result }
{
    let Some(line) = line else {
        return empty_text(OwnColumn::Line(column).kind());
    };
    Some(match column {
        LineColumn::Type => line_type(line),
        LineColumn::Message => line.message.as_str(),
        LineColumn::Options => line_options(line),
        LineColumn::Comment => line.comment.as_str(),
        LineColumn::PluginOutput => line.output.as_str(),
        LineColumn::StateType => line.word.as_str(),
        LineColumn::ContactName => line.contact.as_str(),
        LineColumn::CommandName => line.command.as_str(),
        LineColumn::HostName => line.host.as_str(),
        LineColumn::ServiceDescription => line.service.as_str(),
        _ => return None,
    })
}

pub(crate) fn line_value(line: Option<&LogEntry>, column: LineColumn) -> Val<'_>
    ensures { meaning_of result ≡ line_cell (option_copied line.entry) column }
{
    let Some(line) = line else {
        return empty_value(OwnColumn::Line(column).kind());
    };
    match column {
        LineColumn::Time => Val::Int(i128::from(line.time)),
        LineColumn::Class => Val::Int(i128::from(line.class)),
        LineColumn::Type => Val::Str(line_type(line)),
        LineColumn::Message => Val::Str(line.message.as_str()),
        LineColumn::Options => Val::Str(line_options(line)),
        LineColumn::Comment => Val::Str(line.comment.as_str()),
        LineColumn::PluginOutput => Val::Str(line.output.as_str()),
        LineColumn::State => Val::Int(i128::from(line.state)),
        LineColumn::StateType => Val::Str(line.word.as_str()),
        LineColumn::Attempt => Val::Int(i128::from(line.attempt)),
        LineColumn::ContactName => Val::Str(line.contact.as_str()),
        LineColumn::CommandName => Val::Str(line.command.as_str()),
        LineColumn::HostName => Val::Str(line.host.as_str()),
        LineColumn::ServiceDescription => Val::Str(line.service.as_str()),
    }
}
