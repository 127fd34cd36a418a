ghost use Rattle.std.specs.Prelude.{◌≡◌, ◌++◌, ◌<◌, ◌^◌, ℕ, IfOk, List, OnOk, Option, filter, filter_map};
ghost use Rattle.std.specs.Prelude.{length, map, option_to_list};
ghost use Rattle.lq_auth.specs.Rights.{sees_service};
ghost use Rattle.lq_records.specs.Places.{field_at};
ghost use Rattle.lq_records.specs.declared.base.Base.{Base};
ghost use Rattle.std.specs.Option.{option_copied};
ghost use Rattle.lq_columns.specs.Names as Spec;

use lq_auth::View;
use lq_records::{
    Base, ContactGroupId, ContactId, Host, HostGroup, HostId, Items, Memory, Object, ObjectFields,
    ServiceGroup, ServiceId, Text,
};
use std::alloc::Global;

// ---- by their places

/// The id of an object that goes by a name.
pub trait Named: Copy {
    ghost name_of: { Base → Self → Option (List ℕ) };

    /// The name of the object, None where the base has no such object.
    fn name(self, base: &Base) -> Option<&Text>
        ensures { option_copied result ≡ name_of base.now self };
}

impl Named for HostId {
    ghost name_of = { λ base id. field_at (λ host. host.host_name) base.hosts id.0 };

    fn name(self, base: &Base) -> Option<&Text> {
        match base.hosts.as_slice().get(self.0 as usize) {
            Some(host) => Some(&host.host_name),
            None => None,
        }
    }
}

impl Named for ServiceId {
    ghost name_of = { λ base id.
        field_at (λ service. service.service_description) base.services id.0 };

    fn name(self, base: &Base) -> Option<&Text> {
        match base.services.as_slice().get(self.0 as usize) {
            Some(service) => Some(&service.service_description),
            None => None,
        }
    }
}

impl Named for ContactId {
    ghost name_of = { Spec.name_of_contact };

    fn name(self, base: &Base) -> Option<&Text> {
        match base.contacts.as_slice().get(self.0 as usize) {
            Some(contact) => Some(&contact.contact_name),
            None => None,
        }
    }
}

impl Named for ContactGroupId {
    ghost name_of = { λ base id.
        field_at (λ group. group.contactgroup_name) base.contact_groups id.0 };

    fn name(self, base: &Base) -> Option<&Text> {
        match base.contact_groups.as_slice().get(self.0 as usize) {
            Some(group) => Some(&group.contactgroup_name),
            None => None,
        }
    }
}

/// The names of some objects, in the order of their ids. An id that names nothing is left out. The
/// only error is out of memory.
pub fn names_of<I: Named>(alloc: Global, base: &Base, ids: &[I]) -> Result<Items<Text>, Memory>
    ensures { IfOk result (λ names. names ≡ filter_map (I.name_of base.now) ids.now) }
{
    let mut names = Items::default();
    for id in ids {
        push_name(alloc, &mut names, id.name(base))?;
    }
    Ok(names)
}

/// Whether one of some objects has a name.
pub(crate) fn has_name<I: Named>(base: &Base, ids: &[I], name: &str) -> bool
    ensures { result ≡ Spec.has_text name.now (filter_map (I.name_of base.now) ids.now) }
{
    ids.iter().any(|id| has_own_name(base, *id, name))
}

fn has_own_name<I: Named>(base: &Base, id: I, name: &str) -> bool
    ensures { result ≡ Spec.has_own_name name.now (I.name_of base.now id) }
{
    match id.name(base) {
        Some(own) => own.as_str() == name,
        None => false,
    }
}

/// Adds a name, where there is one. The text is shared.
fn push_name(alloc: Global, names: &mut Items<Text>, name: Option<&Text>) -> Result<(), Memory>
    ensures { OnOk result (names.new ≡ names.old ++ option_to_list (option_copied name.entry)) }
{
    let Some(name) = name else {
        return Ok(());
    };
    names.push(alloc, name.clone()?)
}

// ---- groups that list an object

/// The names of the groups that list an object.
pub(crate) fn group_names(alloc: Global, base: &Base, about: Object) -> Result<Items<Text>, Memory>
    ensures { IfOk result (λ names. names ≡ Spec.group_names_of base.now about) }
{
    match about {
        Object::Host(id) => names_with_host(alloc, base.host_groups.as_slice(), id),
        Object::Service(id) => names_with_service(alloc, base.service_groups.as_slice(), id),
    }
}

fn names_with_host(alloc: Global, groups: &[HostGroup], id: HostId) -> Result<Items<Text>, Memory>
    ensures { IfOk result (λ names. names ≡ filter_map (Spec.name_with_host id) groups.now) }
{
    let mut names = Items::default();
    for group in groups {
        push_name(alloc, &mut names, name_with_host(group, id))?;
    }
    Ok(names)
}

fn name_with_host(group: &HostGroup, id: HostId) -> Option<&Text>
    ensures { option_copied result ≡ Spec.name_with_host id group.now }
{
    if has_host(group.members.as_slice(), id) {
        Some(&group.hostgroup_name)
    } else {
        None
    }
}

/// Whether a list has a host.
pub(crate) fn has_host(members: &[HostId], id: HostId) -> bool
    ensures { result ≡ Spec.has_host members.now id }
{
    members.iter().any(|member| member.0 == id.0)
}

fn names_with_service(
    alloc: Global,
    groups: &[ServiceGroup],
    id: ServiceId,
) -> Result<Items<Text>, Memory>
    ensures { IfOk result (λ names. names ≡ filter_map (Spec.name_with_service id) groups.now) }
{
    let mut names = Items::default();
    for group in groups {
        push_name(alloc, &mut names, name_with_service(group, id))?;
    }
    Ok(names)
}

fn name_with_service(group: &ServiceGroup, id: ServiceId) -> Option<&Text>
    ensures { option_copied result ≡ Spec.name_with_service id group.now }
{
    if has_service(group.members.as_slice(), id) {
        Some(&group.servicegroup_name)
    } else {
        None
    }
}

fn has_service(members: &[ServiceId], id: ServiceId) -> bool
    ensures { result ≡ Spec.has_service members.now id }
{
    members.iter().any(|member| member.0 == id.0)
}

// ---- hosts and services below a host

/// The names of the hosts that name a host as parent, as far as they are seen.
pub(crate) fn child_names(
    alloc: Global,
    base: &Base,
    view: &View,
    id: HostId,
) -> Result<Items<Text>, Memory>
    requires few { length base.now.hosts < 2 ^ 32 }
    ensures { IfOk result (λ names. names ≡ Spec.child_names_of base.now view.now id) }
{
    let children = seen_children(alloc, base, view, id)?;
    names_of(alloc, base, &children)
}

fn seen_children(alloc: Global, base: &Base, view: &View, id: HostId) -> Result<Vec<HostId>, Memory>
    requires few { length base.now.hosts < 2 ^ 32 }
    ensures { IfOk result (λ ids. ids.items ≡ Spec.seen_children base.now view.now id) }
{
    (0..base.hosts.len() as u32)
        .map(HostId)
        .filter(|child| is_child_of(base, id, *child))
        .filter(|child| view.sees_host(*child))
        .collect(alloc)
}

/// Whether a host names another one as parent.
fn is_child_of(base: &Base, id: HostId, child: HostId) -> bool
    ensures { result ≡ Spec.is_child_of base.now id child }
{
    match base.hosts.as_slice().get(child.0 as usize) {
        Some(host) => has_host(host.parents.as_slice(), id),
        None => false,
    }
}

/// The names of the hosts that a host names as parents, as far as they are seen.
pub(crate) fn parent_names(
    alloc: Global,
    base: &Base,
    view: &View,
    host: &Host,
) -> Result<Items<Text>, Memory>
    ensures { IfOk result (λ names. names ≡ Spec.parent_names_of base.now view.now host.now) }
{
    let parents = view.seen_of(alloc, host.parents.as_slice())?;
    names_of(alloc, base, &parents)
}

/// The descriptions of the services of a host, as far as they are seen.
pub(crate) fn descriptions(
    alloc: Global,
    base: &Base,
    view: &View,
    id: HostId,
) -> Result<Items<Text>, Memory>
    ensures { IfOk result (λ names. names ≡ Spec.descriptions_of base.now view.now id) }
{
    let services = seen_services(alloc, base, view, id)?;
    names_of(alloc, base, &services)
}

#[tactic(auto, using(crate::proofs::HostServices::seen_by_their_places))]
fn seen_services(
    alloc: Global,
    base: &Base,
    view: &View,
    id: HostId,
) -> Result<Vec<ServiceId>, Memory>
    ensures { IfOk result (λ ids. ids.items ≡ Spec.seen_services base.now view.now id) }
{
    seen_at(alloc, view, base.services.owned_by(id.0))
}

/// The services at some places that are seen.
fn seen_at(alloc: Global, view: &View, places: &[u32]) -> Result<Vec<ServiceId>, Memory>
    ensures { IfOk result (λ ids. ids.items
        ≡ filter (sees_service view.now) (map (λ place. record { 0 = place }) places.now)) }
{
    places
        .iter()
        .map(|place| ServiceId(*place))
        .filter(|service| view.sees_service(*service))
        .collect(alloc)
}

// ---- custom variables

pub(crate) fn variable_names(alloc: Global, fields: &ObjectFields) -> Result<Items<Text>, Memory>
    ensures { IfOk result (λ names. names ≡ Spec.variable_names_of fields.now) }
{
    let mut names = Items::default();
    let variables = fields.custom_variables.as_slice();
    for variable in variables {
        let name = without_underscore(variable.0.as_str());
        names.push(alloc, Text::new(alloc, name)?)?;
    }
    Ok(names)
}

/// A name without the underscore that it begins with.
fn without_underscore(name: &str) -> &str
    ensures { result.now ≡ Spec.without_underscore name.now }
{
    match name.strip_prefix("_") {
        Some(rest) => rest,
        None => name,
    }
}

pub(crate) fn variable_values(alloc: Global, fields: &ObjectFields) -> Result<Items<Text>, Memory>
    ensures { IfOk result (λ values. values ≡ Spec.variable_values_of fields.now) }
{
    let mut values = Items::default();
    let variables = fields.custom_variables.as_slice();
    for variable in variables {
        values.push(alloc, variable.1.clone()?)?;
    }
    Ok(values)
}
