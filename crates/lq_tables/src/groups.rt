ghost use Rattle.std.specs.Prelude.{◌≡◌, IfOk, IsOk, filter};
ghost use Rattle.lq_auth.specs.Rights.{sees_host, sees_service};
ghost use Rattle.std.specs.Option.{IfSome, IsSome, option_and_then, option_copied};
ghost use Rattle.lq_auth.specs.declared.view.View.{View};
ghost use Rattle.lq_columns.specs.Names.{host_names_of};
ghost use Rattle.lq_columns.specs.Plain.{HasTexts, IsPlain};
ghost use Rattle.lq_records.specs.declared.base.Base.{Base};
ghost use Rattle.lq_schema.specs.Kinds.{contact_group_kind, host_group_kind, service_group_kind};
ghost use Rattle.lq_schema.specs.Value.{Pairs, Texts, Words, meaning_of};
ghost use Rattle.lq_tables.specs.About.{host_group_at, service_group_at};
ghost use Rattle.lq_tables.specs.Cells.{contact_group_cell, host_group_cell, host_group_part};
ghost use Rattle.lq_tables.specs.Cells.{service_group_cell, service_group_part};
ghost use Rattle.lq_tables.specs.Parts.{pairs_of};

use crate::pairs::pairs_of;
use lq_auth::View;
use lq_columns::{Scope, empty_text, empty_value, hosts_value, names_of, services_value};
use lq_live::Live;
use lq_records::{
    Base, ContactGroup, HostGroup, HostGroupId, Memory, ServiceGroup, ServiceGroupId,
};
use lq_schema::{ContactGroupColumn, HostGroupColumn, OwnColumn, ServiceGroupColumn, Val};
use std::alloc::Global;

// ---- groups of contacts

/// The text of a column on a group of contacts, None for its members.
pub(crate) fn contact_group_text(
    group: Option<&ContactGroup>,
    column: ContactGroupColumn,
) -> Option<&str>
    ensures value { (base : Base) → IfSome result (λ text.
        contact_group_cell base (option_copied group.entry) column ≡ Words text.now) }
    ensures given { HasTexts (contact_group_kind column) → IsSome result }
{
    let Some(group) = group else {
        return empty_text(OwnColumn::ContactGroup(column).kind());
    };
    match column {
        ContactGroupColumn::Name => Some(group.contactgroup_name.as_str()),
        ContactGroupColumn::Alias => Some(group.alias.as_str()),
        ContactGroupColumn::Members => None,
    }
}

/// The value of a column on a group of contacts. Its members take memory, which is the only error.
pub(crate) fn contact_group_value<'a>(
    alloc: Global,
    base: &'a Base,
    group: Option<&'a ContactGroup>,
    column: ContactGroupColumn,
) -> Result<Val<'a>, Memory>
    ensures value { IfOk result (λ v.
        meaning_of v ≡ contact_group_cell base.now (option_copied group.entry) column) }
    ensures plain { IsPlain (contact_group_kind column) → IsOk result }
{
    let Some(group) = group else {
        return Ok(empty_value(OwnColumn::ContactGroup(column).kind()));
    };
    match column {
        ContactGroupColumn::Name => Ok(Val::Str(group.contactgroup_name.as_str())),
        ContactGroupColumn::Alias => Ok(Val::Str(group.alias.as_str())),
        ContactGroupColumn::Members => {
            let names = names_of(alloc, base, group.members.as_slice())?;
            Ok(Val::List(names))
        }
    }
}

// ---- groups of hosts

/// The text of a column on a group of hosts, None for its members and counters.
pub(crate) fn host_group_text(
    live: &Live,
    id: Option<HostGroupId>,
    column: HostGroupColumn,
) -> Option<&str>
    ensures value { (view : View) → IfSome result (λ text.
        host_group_part live.now.state view
        (option_and_then (host_group_at live.now.state.base) id) column ≡ Words text.now) }
    ensures given { HasTexts (host_group_kind column) → IsSome result }
{
    let Some(id) = id else {
        return empty_text(OwnColumn::HostGroup(column).kind());
    };
    let Some(group) = live.base().host_groups.as_slice().get(id.0 as usize) else {
        return empty_text(OwnColumn::HostGroup(column).kind());
    };
    match column {
        HostGroupColumn::Name => Some(group.hostgroup_name.as_str()),
        HostGroupColumn::Alias => Some(group.alias.as_str()),
        HostGroupColumn::Notes => Some(group.notes.as_str()),
        HostGroupColumn::NotesUrl => Some(group.notes_url.as_str()),
        HostGroupColumn::ActionUrl => Some(group.action_url.as_str()),
        _ => None,
    }
}

/// The value of a column on a group of hosts. Its members and its counters are of those that a
/// query sees. Its members take memory, which is the only error.
pub(crate) fn host_group_value<'a>(
    alloc: Global,
    live: &'a Live,
    view: &View,
    id: Option<HostGroupId>,
    column: HostGroupColumn,
) -> Result<Val<'a>, Memory>
    ensures value { IfOk result (λ v.
        meaning_of v ≡ host_group_part live.now.state view.now
        (option_and_then (host_group_at live.now.state.base) id) column) }
    ensures plain { IsPlain (host_group_kind column) → IsOk result }
{
    let Some(id) = id else {
        return Ok(empty_value(OwnColumn::HostGroup(column).kind()));
    };
    let Some(group) = live.base().host_groups.as_slice().get(id.0 as usize) else {
        return Ok(empty_value(OwnColumn::HostGroup(column).kind()));
    };
    match column {
        HostGroupColumn::Name => Ok(Val::Str(group.hostgroup_name.as_str())),
        HostGroupColumn::Alias => Ok(Val::Str(group.alias.as_str())),
        HostGroupColumn::Notes => Ok(Val::Str(group.notes.as_str())),
        HostGroupColumn::NotesUrl => Ok(Val::Str(group.notes_url.as_str())),
        HostGroupColumn::ActionUrl => Ok(Val::Str(group.action_url.as_str())),
        HostGroupColumn::Members => seen_hosts(alloc, live, view, group),
        HostGroupColumn::Hosts(column) => Ok(hosts_value(live, view, id, column)),
        HostGroupColumn::Services(column) => {
            Ok(services_value(live, view, Scope::HostGroup(id), column))
        }
    }
}

/// The names of the hosts that a group lists and a query sees.
fn seen_hosts<'a>(
    alloc: Global,
    live: &'a Live,
    view: &View,
    group: &HostGroup,
) -> Result<Val<'a>, Memory>
    ensures { IfOk result (λ v. meaning_of v ≡ Texts
        (host_names_of live.now.state.base (filter (sees_host view.now) group.now.members))) }
{
    let members = view.seen_of(alloc, group.members.as_slice())?;
    let names = names_of(alloc, live.base(), &members)?;
    Ok(Val::List(names))
}

// ---- groups of services

/// The text of a column on a group of services, None for its members and counters.
pub(crate) fn service_group_text(
    live: &Live,
    id: Option<ServiceGroupId>,
    column: ServiceGroupColumn,
) -> Option<&str>
    ensures value { (view : View) → IfSome result (λ text.
        service_group_part live.now.state view
        (option_and_then (service_group_at live.now.state.base) id) column ≡ Words text.now) }
    ensures given { HasTexts (service_group_kind column) → IsSome result }
{
    let Some(id) = id else {
        return empty_text(OwnColumn::ServiceGroup(column).kind());
    };
    let Some(group) = live.base().service_groups.as_slice().get(id.0 as usize) else {
        return empty_text(OwnColumn::ServiceGroup(column).kind());
    };
    match column {
        ServiceGroupColumn::Name => Some(group.servicegroup_name.as_str()),
        ServiceGroupColumn::Alias => Some(group.alias.as_str()),
        ServiceGroupColumn::Notes => Some(group.notes.as_str()),
        ServiceGroupColumn::NotesUrl => Some(group.notes_url.as_str()),
        ServiceGroupColumn::ActionUrl => Some(group.action_url.as_str()),
        _ => None,
    }
}

/// The value of a column on a group of services. Its members and its
/// counters are of those that a query sees. Its members take memory, which is the only error.
pub(crate) fn service_group_value<'a>(
    alloc: Global,
    live: &'a Live,
    view: &View,
    id: Option<ServiceGroupId>,
    column: ServiceGroupColumn,
) -> Result<Val<'a>, Memory>
    ensures value { IfOk result (λ v.
        meaning_of v ≡ service_group_part live.now.state view.now
        (option_and_then (service_group_at live.now.state.base) id) column) }
    ensures plain { IsPlain (service_group_kind column) → IsOk result }
{
    let Some(id) = id else {
        return Ok(empty_value(OwnColumn::ServiceGroup(column).kind()));
    };
    let Some(group) = live.base().service_groups.as_slice().get(id.0 as usize) else {
        return Ok(empty_value(OwnColumn::ServiceGroup(column).kind()));
    };
    match column {
        ServiceGroupColumn::Name => Ok(Val::Str(group.servicegroup_name.as_str())),
        ServiceGroupColumn::Alias => Ok(Val::Str(group.alias.as_str())),
        ServiceGroupColumn::Notes => Ok(Val::Str(group.notes.as_str())),
        ServiceGroupColumn::NotesUrl => Ok(Val::Str(group.notes_url.as_str())),
        ServiceGroupColumn::ActionUrl => Ok(Val::Str(group.action_url.as_str())),
        ServiceGroupColumn::Members => seen_services(alloc, live, view, group),
        ServiceGroupColumn::Services(column) => {
            Ok(services_value(live, view, Scope::ServiceGroup(id), column))
        }
    }
}

/// The pairs of the services that a group lists and a query sees.
fn seen_services<'a>(
    alloc: Global,
    live: &'a Live,
    view: &View,
    group: &ServiceGroup,
) -> Result<Val<'a>, Memory>
    ensures { IfOk result (λ v. meaning_of v ≡ Pairs
        (pairs_of live.now.state.base (filter (sees_service view.now) group.now.members))) }
{
    let members = view.seen_of(alloc, group.members.as_slice())?;
    let pairs = pairs_of(alloc, live.base(), &members)?;
    Ok(Val::Pairs(pairs))
}
