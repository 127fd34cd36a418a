//! What a row is about.

ghost use Rattle.std.specs.Prelude.{◌≡◌};
ghost use Rattle.std.specs.List.{slice_get};
ghost use Rattle.std.specs.Option.{option_and_then, option_copied, option_map};
ghost use Rattle.lq_columns.specs.Cells.{host_record, service_record};
ghost use Rattle.lq_records.specs.declared.object.Object.TheVariants as object;
ghost use Rattle.lq_tables.specs.About as Spec;

use crate::history_row::HistoryRow;
use crate::row::Row;
use crate::schema::{Entry, entry_at};
use lq_columns::{HostRow, ServiceRow};
use lq_events::{Comment, Downtime, LogEntry};
use lq_live::Live;
use lq_log::object_of;
use lq_records::{
    Base, Command, Contact, ContactGroup, HostGroupId, HostId, Object, Period, ServiceGroupId,
    ServiceId,
};

// ---- downtimes and comments

#[inline(always)]
pub(crate) fn row_downtime<'a>(live: &'a Live, row: &Row) -> Option<&'a Downtime>
    ensures { option_copied result ≡ Spec.row_downtime live.now.state row.now }
{
    match row {
        Row::Downtime(id) => downtime_with(live, *id),
        _ => None,
    }
}

#[inline(always)]
pub(crate) fn row_comment<'a>(live: &'a Live, row: &Row) -> Option<&'a Comment>
    ensures { option_copied result ≡ Spec.row_comment live.now.state row.now }
{
    match row {
        Row::Comment(id) => comment_with(live, *id),
        _ => None,
    }
}

/// The downtime with an id.
fn downtime_with(live: &Live, id: u64) -> Option<&Downtime>
    ensures { option_copied result ≡ Spec.downtime_with id live.now.state.downtimes }
{
    let downtimes = live.downtimes();
    match downtimes.binary_search_by_key(&id, |downtime| downtime.id) {
        Ok(place) => Some(&downtimes[place]),
        Err(_) => None,
    }
}

/// The comment with an id.
fn comment_with(live: &Live, id: u64) -> Option<&Comment>
    ensures { option_copied result ≡ Spec.comment_with id live.now.state.comments }
{
    let comments = live.comments();
    match comments.binary_search_by_key(&id, |comment| comment.id) {
        Ok(place) => Some(&comments[place]),
        Err(_) => None,
    }
}

// ---- lines of the log

#[inline(always)]
pub(crate) fn row_line<'a>(live: &'a Live, row: &Row) -> Option<&'a LogEntry>
    ensures { option_copied result ≡ Spec.row_line live.now.state row.now }
{
    match row {
        Row::Line(place) => live.log().entries().get(*place as usize),
        _ => None,
    }
}

// ---- slices of histories

pub(crate) fn row_slice(row: &Row) -> Option<&HistoryRow>
    ensures { option_copied result ≡ Spec.row_slice row.now }
{
    match row {
        Row::Slice(history) => Some(history.row()),
        _ => None,
    }
}

// ---- hosts and services

/// The host or service that a row is about, or its downtime, its comment, its line of the log or
/// its slice of a history.
#[inline(always)]
pub(crate) fn row_object(live: &Live, row: &Row) -> Option<Object>
    ensures { result ≡ Spec.row_object live.now.state row.now }
{
    match row {
        Row::Host(id) | Row::HostOf(_, id) => Some(Object::Host(*id)),
        Row::Service(id) | Row::ServiceOf(_, id) | Row::GroupService(_, id) => {
            Some(Object::Service(*id))
        }
        Row::Downtime(id) => match downtime_with(live, *id) {
            Some(downtime) => Some(downtime.object),
            None => None,
        },
        Row::Comment(id) => match comment_with(live, *id) {
            Some(comment) => Some(comment.object),
            None => None,
        },
        Row::Line(_) => match row_line(live, row) {
            Some(entry) => object_of(live.base(), entry),
            None => None,
        },
        Row::Slice(history) => Some(history.row().slice.object),
        _ => None,
    }
}

/// The service that an object is.
#[inline(always)]
pub(crate) fn service_of(live: &Live, object: Option<Object>) -> Option<ServiceRow<'_>>
    ensures { option_map service_record result
        ≡ option_and_then (Spec.service_of_object live.now.state) object }
{
    match object {
        Some(Object::Service(id)) => ServiceRow::at(live, id),
        Some(Object::Host(_)) | None => None,
    }
}

/// The host that an object is, or that it runs on as a service.
#[inline(always)]
pub(crate) fn host_of(live: &Live, object: Option<Object>) -> Option<HostRow<'_>>
    ensures { option_map host_record result
        ≡ option_and_then (Spec.host_of_object live.now.state) object }
{
    match object {
        Some(Object::Host(id)) => HostRow::at(live, id),
        Some(Object::Service(id)) => host_of_service(live, id),
        None => None,
    }
}

/// The host that a service runs on. Its place is read from the list of all such places, which lie
/// close together, so that nothing waits for the record of the service.
#[inline(always)]
fn host_of_service(live: &Live, id: ServiceId) -> Option<HostRow<'_>>
    ensures { option_map host_record result
        ≡ Spec.host_of_object live.now.state (object.Service id) }
{
    // Tells the proof that each service has a status.
    let _ = live.service_statuses();
    let owners = live.base().services.contact_index().owners;
    match owners.get(id.0 as usize) {
        Some(place) => HostRow::at(live, HostId(*place)),
        None => None,
    }
}

// ---- groups

pub(crate) fn row_host_group_id(row: &Row) -> Option<HostGroupId>
    ensures { result ≡ Spec.row_host_group_id row.now }
{
    match row {
        Row::HostGroup(id) | Row::HostOf(id, _) | Row::GroupService(id, _) => Some(*id),
        _ => None,
    }
}

pub(crate) fn row_service_group_id(row: &Row) -> Option<ServiceGroupId>
    ensures { result ≡ Spec.row_service_group_id row.now }
{
    match row {
        Row::ServiceGroup(id) | Row::ServiceOf(id, _) => Some(*id),
        _ => None,
    }
}

// ---- the rest of the base

pub(crate) fn row_contact<'a>(base: &'a Base, row: &Row) -> Option<&'a Contact>
    ensures { option_copied result ≡ Spec.row_contact base.now row.now }
{
    match row {
        Row::Contact(id) => base.contacts.as_slice().get(id.0 as usize),
        _ => None,
    }
}

pub(crate) fn row_contact_group<'a>(base: &'a Base, row: &Row) -> Option<&'a ContactGroup>
    ensures { option_copied result ≡ Spec.row_contact_group base.now row.now }
{
    match row {
        Row::ContactGroup(id) => base.contact_groups.as_slice().get(id.0 as usize),
        _ => None,
    }
}

pub(crate) fn row_command<'a>(base: &'a Base, row: &Row) -> Option<&'a Command>
    ensures { option_copied result ≡ Spec.row_command base.now row.now }
{
    match row {
        Row::Command(id) => base.commands.as_slice().get(id.0 as usize),
        _ => None,
    }
}

pub(crate) fn row_period<'a>(base: &'a Base, row: &Row) -> Option<&'a Period>
    ensures { option_copied result ≡ Spec.row_period base.now row.now }
{
    match row {
        Row::Period(id) => base.periods.as_slice().get(id.0 as usize),
        _ => None,
    }
}

// ---- the schema

pub(crate) fn row_entry(row: &Row) -> Option<Entry>
    ensures { result ≡ Spec.row_entry row.now }
{
    match row {
        Row::Column(place) => entry_at(*place),
        _ => None,
    }
}
