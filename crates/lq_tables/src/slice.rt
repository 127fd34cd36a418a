//! Slices of the histories of hosts and services.

ghost use Rattle.std.specs.Prelude.{◌≡◌, Some};
ghost use Rattle.std.specs.Option.{IfSome, IsSome, option_copied};
ghost use Rattle.lq_columns.specs.Plain.{HasNumbers, HasTexts};
ghost use Rattle.lq_live.specs.State.{State};
ghost use Rattle.lq_schema.specs.Kinds.{slice_kind};
ghost use Rattle.lq_schema.specs.Value.{Number, Words, meaning_of};
ghost use Rattle.lq_tables.specs.Slices.{description_of, duration_of, host_name_of, millionths};
ghost use Rattle.lq_tables.specs.Slices.{name_of_host, output_at, part_of_interval, seconds_in};
ghost use Rattle.lq_tables.specs.Slices.{slice_cell};
ghost use Rattle.lq_columns.specs.Cells.{natural};

use crate::history_row::HistoryRow;
use lq_columns::{empty_number, empty_text, empty_value, flag, notification_period_of};
use lq_events::LogEntry;
use lq_live::Live;
use lq_records::{Base, HostId, Object};
use lq_schema::{OwnColumn, SliceColumn, Val};
use lq_statehist::Slice;

/// The number of a column on a slice, None where it is a text.
pub(crate) fn slice_number(row: Option<&HistoryRow>, column: SliceColumn) -> Option<i128>
    ensures value { (s : State) → IfSome result (λ number.
        slice_cell s (option_copied row.entry) column ≡ Number number) }
    ensures given { HasNumbers (slice_kind column) → IsSome result }
{
    let Some(row) = row else {
        return empty_number(OwnColumn::Slice(column).kind());
    };
    let slice = &row.slice;
    Some(match column {
        SliceColumn::Time | SliceColumn::From => i128::from(slice.from),
        SliceColumn::Until => i128::from(slice.until),
        SliceColumn::Duration => i128::from(duration_of(slice)),
        SliceColumn::DurationPart => part_of_interval(row),
        SliceColumn::DurationOk => seconds_in(slice, 0),
        SliceColumn::DurationWarning => seconds_in(slice, 1),
        SliceColumn::DurationCritical => seconds_in(slice, 2),
        SliceColumn::DurationUnknown => seconds_in(slice, 3),
        SliceColumn::DurationUnmonitored => seconds_in(slice, -1),
        SliceColumn::State => i128::from(slice.state),
        SliceColumn::HostDown => flag(slice.host_down),
        SliceColumn::InDowntime => flag(slice.in_downtime),
        SliceColumn::InHostDowntime => flag(slice.in_host_downtime),
        SliceColumn::IsFlapping => flag(slice.is_flapping),
        SliceColumn::InNotificationPeriod => flag(slice.in_period),
        _ => return None,
    })
}

/// The text of a column on a slice, None where it is a number.
pub(crate) fn slice_text<'a>(
    live: &'a Live,
    row: Option<&HistoryRow>,
    column: SliceColumn,
) -> Option<&'a str>
    ensures value { IfSome result (λ text.
        slice_cell live.now.state (option_copied row.entry) column ≡ Words text.now) }
    ensures given { HasTexts (slice_kind column) → IsSome result }
{
    let Some(row) = row else {
        return empty_text(OwnColumn::Slice(column).kind());
    };
    let slice = &row.slice;
    match column {
        SliceColumn::NotificationPeriod => Some(notification_period_of(live.base(), slice.object)),
        SliceColumn::HostName => Some(host_name_of(live.base(), slice.object)),
        SliceColumn::ServiceDescription => Some(description_of(live.base(), slice.object)),
        SliceColumn::LogOutput => Some(output_at(live.log().entries(), slice.line)),
        _ => None,
    }
}

pub(crate) fn slice_value<'a>(
    live: &'a Live,
    row: Option<&HistoryRow>,
    column: SliceColumn,
) -> Val<'a>
    ensures { meaning_of result ≡ slice_cell live.now.state (option_copied row.entry) column }
{
    let Some(row) = row else {
        return empty_value(OwnColumn::Slice(column).kind());
    };
    let slice = &row.slice;
    match column {
        SliceColumn::Time | SliceColumn::From => Val::Int(i128::from(slice.from)),
        SliceColumn::Until => Val::Int(i128::from(slice.until)),
        SliceColumn::Duration => Val::Int(i128::from(duration_of(slice))),
        SliceColumn::DurationPart => Val::Int(part_of_interval(row)),
        SliceColumn::DurationOk => Val::Int(seconds_in(slice, 0)),
        SliceColumn::DurationWarning => Val::Int(seconds_in(slice, 1)),
        SliceColumn::DurationCritical => Val::Int(seconds_in(slice, 2)),
        SliceColumn::DurationUnknown => Val::Int(seconds_in(slice, 3)),
        SliceColumn::DurationUnmonitored => Val::Int(seconds_in(slice, -1)),
        SliceColumn::State => Val::Int(i128::from(slice.state)),
        SliceColumn::HostDown => Val::Int(flag(slice.host_down)),
        SliceColumn::InDowntime => Val::Int(flag(slice.in_downtime)),
        SliceColumn::InHostDowntime => Val::Int(flag(slice.in_host_downtime)),
        SliceColumn::IsFlapping => Val::Int(flag(slice.is_flapping)),
        SliceColumn::InNotificationPeriod => Val::Int(flag(slice.in_period)),
        SliceColumn::NotificationPeriod => Val::Str(notification_period_of(
            live.base(),
            slice.object,
        )),
        SliceColumn::HostName => Val::Str(host_name_of(live.base(), slice.object)),
        SliceColumn::ServiceDescription => Val::Str(description_of(live.base(), slice.object)),
        SliceColumn::LogOutput => Val::Str(output_at(live.log().entries(), slice.line)),
    }
}

// ---- seconds

/// How many seconds a slice has.
fn duration_of(slice: &Slice) -> u64
    ensures { result ≡ duration_of slice.now }
{
    slice.until.saturating_sub(slice.from)
}

/// How many seconds a slice has where its state is this one, else 0.
fn seconds_in(slice: &Slice, state: i64) -> i128
    ensures { Number result ≡ natural (seconds_in state slice.now) }
{
    if slice.state == state {
        i128::from(duration_of(slice))
    } else {
        0
    }
}

/// How much of the asked interval a slice takes, in millionths.
fn part_of_interval(row: &HistoryRow) -> i128
    ensures { Number result ≡ natural (part_of_interval row.now) }
{
    millionths(duration_of(&row.slice), row.until.saturating_sub(row.from))
}

/// How many millionths of a whole some seconds are, rounded down; 0 of nothing.
fn millionths(seconds: u64, whole: u64) -> i128
    ensures { Number result ≡ natural (millionths seconds whole) }
{
    if whole == 0 {
        return 0;
    }
    (u128::from(seconds) * 1_000_000 / u128::from(whole)) as i128
}

// ---- what a slice is of

/// The name of the host itself, or of the one that the service runs on.
fn host_name_of(base: &Base, object: Object) -> &str
    ensures { result.now ≡ host_name_of base.now object }
{
    match object {
        Object::Host(id) => name_of_host(base, id),
        Object::Service(id) => match base.services.as_slice().get(id.0 as usize) {
            Some(service) => name_of_host(base, service.host),
            None => "",
        },
    }
}

/// The name of the host with an id.
fn name_of_host(base: &Base, id: HostId) -> &str
    ensures { result.now ≡ name_of_host base.now id }
{
    match base.hosts.as_slice().get(id.0 as usize) {
        Some(host) => host.host_name.as_str(),
        None => "",
    }
}

/// The description of the service, empty for a host.
fn description_of(base: &Base, object: Object) -> &str
    ensures { result.now ≡ description_of base.now object }
{
    match object {
        Object::Host(_) => "",
        Object::Service(id) => match base.services.as_slice().get(id.0 as usize) {
            Some(service) => service.service_description.as_str(),
            None => "",
        },
    }
}

/// The output of the line at a place of the log, empty without a line.
fn output_at(log: &[LogEntry], place: Option<u64>) -> &str
    ensures { result.now ≡ output_at log.now place }
{
    match place {
        Some(place) => match log.get(place as usize) {
            Some(line) => line.output.as_str(),
            None => "",
        },
        None => "",
    }
}
