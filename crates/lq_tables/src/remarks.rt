//! Downtimes and comments.

ghost use Rattle.std.specs.Prelude.{◌≡◌};
ghost use Rattle.std.specs.Option.{IfSome, IsSome, option_copied};
ghost use Rattle.lq_columns.specs.Plain.{HasNumbers, HasTexts};
ghost use Rattle.lq_schema.specs.Kinds.{comment_kind, downtime_kind};
ghost use Rattle.lq_schema.specs.Value.{Number, Words, empty_value, meaning_of};
ghost use Rattle.lq_tables.specs.Parts.{comment_cell, downtime_cell};

use crate::value::service_flag;
use lq_columns::{empty_number, empty_text, empty_value};
use lq_events::{Comment, Downtime};
use lq_schema::{CommentColumn, DowntimeColumn, OwnColumn, Val};

// ---- downtimes

/// The number of a column on a downtime, None where it is a text.
pub(crate) fn downtime_number(downtime: Option<&Downtime>, column: DowntimeColumn) -> Option<i128>
    ensures value { IfSome result (λ number.
        downtime_cell (option_copied downtime.entry) column ≡ Number number) }
    ensures given { HasNumbers (downtime_kind column) → IsSome result }
{
    let Some(downtime) = downtime else {
        return empty_number(OwnColumn::Downtime(column).kind());
    };
    Some(match column {
        DowntimeColumn::Id => i128::from(downtime.id),
        DowntimeColumn::EntryTime => i128::from(downtime.entry_time),
        DowntimeColumn::StartTime => i128::from(downtime.start),
        DowntimeColumn::EndTime => i128::from(downtime.end),
        DowntimeColumn::Fixed => 1,
        DowntimeColumn::Duration => i128::from(downtime.duration),
        DowntimeColumn::TriggeredBy => 0,
        DowntimeColumn::IsService => service_flag(downtime.object),
        _ => return None,
    })
}

/// The text of a column on a downtime, None where it is a number.
pub(crate) fn downtime_text(downtime: Option<&Downtime>, column: DowntimeColumn) -> Option<&str>
    ensures value { IfSome result (λ text.
        downtime_cell (option_copied downtime.entry) column ≡ Words text.now) }
    ensures given { HasTexts (downtime_kind column) → IsSome result }
{
    let Some(downtime) = downtime else {
        return empty_text(OwnColumn::Downtime(column).kind());
    };
    match column {
        DowntimeColumn::Author => Some(downtime.author.as_str()),
        DowntimeColumn::Comment => Some(downtime.comment.as_str()),
        _ => None,
    }
}

pub(crate) fn downtime_value(downtime: Option<&Downtime>, column: DowntimeColumn) -> Val<'_>
    ensures { meaning_of result ≡ downtime_cell (option_copied downtime.entry) column }
{
    let Some(downtime) = downtime else {
        return empty_value(OwnColumn::Downtime(column).kind());
    };
    match column {
        DowntimeColumn::Id => Val::Int(i128::from(downtime.id)),
        DowntimeColumn::Author => Val::Str(downtime.author.as_str()),
        DowntimeColumn::Comment => Val::Str(downtime.comment.as_str()),
        DowntimeColumn::EntryTime => Val::Int(i128::from(downtime.entry_time)),
        DowntimeColumn::StartTime => Val::Int(i128::from(downtime.start)),
        DowntimeColumn::EndTime => Val::Int(i128::from(downtime.end)),
        DowntimeColumn::Fixed => Val::Int(1),
        DowntimeColumn::Duration => Val::Int(i128::from(downtime.duration)),
        DowntimeColumn::TriggeredBy => Val::Int(0),
        DowntimeColumn::IsService => Val::Int(service_flag(downtime.object)),
    }
}

// ---- comments

/// The number of a column on a comment, None where it is a text.
pub(crate) fn comment_number(comment: Option<&Comment>, column: CommentColumn) -> Option<i128>
    ensures value { IfSome result (λ number.
        comment_cell (option_copied comment.entry) column ≡ Number number) }
    ensures given { HasNumbers (comment_kind column) → IsSome result }
{
    let Some(comment) = comment else {
        return empty_number(OwnColumn::Comment(column).kind());
    };
    Some(match column {
        CommentColumn::Id => i128::from(comment.id),
        CommentColumn::EntryTime => i128::from(comment.time),
        CommentColumn::EntryType => i128::from(comment.entry_type),
        CommentColumn::Persistent => i128::from(comment.persistent),
        CommentColumn::IsService => service_flag(comment.object),
        _ => return None,
    })
}

/// The text of a column on a comment, None where it is a number.
pub(crate) fn comment_text(comment: Option<&Comment>, column: CommentColumn) -> Option<&str>
    ensures value { IfSome result (λ text.
        comment_cell (option_copied comment.entry) column ≡ Words text.now) }
    ensures given { HasTexts (comment_kind column) → IsSome result }
{
    let Some(comment) = comment else {
        return empty_text(OwnColumn::Comment(column).kind());
    };
    match column {
        CommentColumn::Author => Some(comment.author.as_str()),
        CommentColumn::Comment => Some(comment.text.as_str()),
        _ => None,
    }
}

pub(crate) fn comment_value(comment: Option<&Comment>, column: CommentColumn) -> Val<'_>
    ensures { meaning_of result ≡ comment_cell (option_copied comment.entry) column }
{
    let Some(comment) = comment else {
        return empty_value(OwnColumn::Comment(column).kind());
    };
    match column {
        CommentColumn::Id => Val::Int(i128::from(comment.id)),
        CommentColumn::Author => Val::Str(comment.author.as_str()),
        CommentColumn::Comment => Val::Str(comment.text.as_str()),
        CommentColumn::EntryTime => Val::Int(i128::from(comment.time)),
        CommentColumn::EntryType => Val::Int(i128::from(comment.entry_type)),
        CommentColumn::Persistent => Val::Int(i128::from(comment.persistent)),
        CommentColumn::IsService => Val::Int(service_flag(comment.object)),
    }
}
