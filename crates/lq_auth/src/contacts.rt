ghost use Rattle.std.specs.Prelude.{◌≡◌, ◌==◌, ◌||◌, false, IfOk, map, slice_index_or, zip};
ghost use Rattle.std.specs.List.{list_any};
ghost use Rattle.lq_auth.specs.Lists.{is_in_lists};
ghost use Rattle.lq_auth.specs.Rights.{has_contact, is_host_group_seen, is_host_seen};
ghost use Rattle.lq_auth.specs.Rights.{is_service_group_seen, is_service_seen, seen_by};

use crate::marks::{is_group_seen, is_marked, is_one_marked};
use crate::view::Seen;
use lq_records::{
    Base, ContactGroup, ContactId, ContactIndex, ContactLists, HostGroup, Items, Memory,
    ServiceGroup,
};
use std::alloc::Global;
use std::marker::Model;

/// A contact by whom the objects of a base are seen, None for one whom the base doesn't know.
#[derive(Drop)]
pub(crate) struct Viewer<'a> {
    base: &'a Base,
    contact: Option<ContactId>,
    /// For each contact group, whether it has the contact.
    groups: Vec<bool>,
}

impl<'a> Model for Viewer<'a> {
    ghost use Rattle.std.specs.Prelude.{◌≡◌, map};
    ghost use Rattle.lq_auth.specs.Rights.{BaseContact, has_contact};

    ghost Value = { BaseContact };

    ghost view = { λ viewer. record { base = viewer.base.now; contact = viewer.contact } };

    ghost invariant = { λ viewer. viewer.groups.items
        ≡ map (λ group. has_contact viewer.contact group.members) viewer.base.now.contact_groups };
}

impl<'a> Viewer<'a> {
    /// The contact with a name. The only error is out of memory.
    pub(crate) fn new(
        alloc: Global,
        base: &'a Base,
        contact: Option<ContactId>,
    ) -> Result<Self, Memory>
        ensures { IfOk result (λ viewer. viewer ≡ record { base = base.now; contact = contact }) }
    {
        let groups = groups_with(alloc, base.contact_groups.as_slice(), contact)?;
        Ok(Viewer {
            base,
            contact,
            groups,
        })
    }

    /// Whether it is one of the contacts of objects with some lists of contacts.
    fn is_in_lists(&self, lists: &ContactLists) -> bool
        ensures { result ≡ is_in_lists self.now.base self.now.contact lists.now }
    {
        is_contact(self.contact, &self.groups, lists)
    }

    /// For each of some objects, whether it is one of their contacts. Objects with the same lists
    /// of contacts are asked about once.
    fn marks(&self, alloc: Global, index: ContactIndex<'_>) -> Result<Vec<bool>, Memory>
        ensures { IfOk result (λ marks. marks.items ≡ map (λ place. slice_index_or
            (map (is_in_lists self.now.base self.now.contact) index.entry.lists.now) place false)
            index.entry.places.now) }
    {
        let lists = self.list_marks(alloc, index.lists)?;
        index
            .places
            .iter()
            .map(|place| is_marked(&lists, *place as usize))
            .collect(alloc)
    }

    fn list_marks(&self, alloc: Global, lists: &[ContactLists]) -> Result<Vec<bool>, Memory>
        ensures { IfOk result (λ marks. marks.items
            ≡ map (is_in_lists self.now.base self.now.contact) lists.now) }
    {
        lists
            .iter()
            .map(|lists| self.is_in_lists(lists))
            .collect(alloc)
    }

    /// What the contact sees of the base. The only error is out of memory.
    pub(crate) fn seen_lists(&self, alloc: Global) -> Result<Seen, Memory>
        ensures { IfOk result (λ seen. seen ≡ seen_by self.now.base self.now.contact) }
    {
        let hosts = self.hosts(alloc)?;
        let services = self.services(alloc, &hosts)?;
        let host_groups = self.host_groups(alloc, &hosts)?;
        let service_groups = self.service_groups(alloc, &services)?;
        Ok(Seen {
            known: self.contact.is_some(),
            hosts: Items::from_vec(hosts),
            services: Items::from_vec(services),
            host_groups: Items::from_vec(host_groups),
            service_groups: Items::from_vec(service_groups),
        })
    }

    /// For each host, whether it is seen.
    fn hosts(&self, alloc: Global) -> Result<Vec<bool>, Memory>
        ensures { IfOk result (λ seen. seen.items
            ≡ map (is_host_seen self.now.base self.now.contact) self.now.base.hosts) }
    {
        self.marks(alloc, self.base.hosts.contact_index())
    }

    /// For each service, whether it is seen, by which hosts are.
    fn services(&self, alloc: Global, hosts: &[bool]) -> Result<Vec<bool>, Memory>
        requires { hosts.now
            ≡ map (is_host_seen self.now.base self.now.contact) self.now.base.hosts }
        ensures { IfOk result (λ seen. seen.items
            ≡ map (is_service_seen self.now.base self.now.contact) self.now.base.services) }
    {
        let index = self.base.services.contact_index();
        let marks = self.marks(alloc, index)?;
        if self.base.rules.service_strict {
            return Ok(marks);
        }
        or_of_hosts(alloc, &marks, index.owners, hosts)
    }

    /// For each group of hosts, whether it is seen, by which hosts are.
    fn host_groups(&self, alloc: Global, hosts: &[bool]) -> Result<Vec<bool>, Memory>
        requires { hosts.now
            ≡ map (is_host_seen self.now.base self.now.contact) self.now.base.hosts }
        ensures { IfOk result (λ seen. seen.items
            ≡ map (is_host_group_seen self.now.base self.now.contact) self.now.base.host_groups) }
    {
        self.base
            .host_groups
            .as_slice()
            .iter()
            .map(|group| self.sees_host_group(hosts, group))
            .collect(alloc)
    }

    fn sees_host_group(&self, hosts: &[bool], group: &HostGroup) -> bool
        requires { hosts.now
            ≡ map (is_host_seen self.now.base self.now.contact) self.now.base.hosts }
        ensures { result ≡ is_host_group_seen self.now.base self.now.contact group.now }
    {
        is_group_seen(
            self.base.rules.group_strict,
            hosts,
            group.members.as_slice(),
        )
    }

    /// For each group of services, whether it is seen, by which services are.
    fn service_groups(&self, alloc: Global, services: &[bool]) -> Result<Vec<bool>, Memory>
        requires { services.now
            ≡ map (is_service_seen self.now.base self.now.contact) self.now.base.services }
        ensures { IfOk result (λ seen. seen.items
            ≡ map (is_service_group_seen self.now.base self.now.contact)
            self.now.base.service_groups) }
    {
        self.base
            .service_groups
            .as_slice()
            .iter()
            .map(|group| self.sees_service_group(services, group))
            .collect(alloc)
    }

    fn sees_service_group(&self, services: &[bool], group: &ServiceGroup) -> bool
        requires { services.now
            ≡ map (is_service_seen self.now.base self.now.contact) self.now.base.services }
        ensures { result ≡ is_service_group_seen self.now.base self.now.contact group.now }
    {
        is_group_seen(
            self.base.rules.group_strict,
            services,
            group.members.as_slice(),
        )
    }
}

/// For each contact group, whether it has a contact.
fn groups_with(
    alloc: Global,
    groups: &[ContactGroup],
    contact: Option<ContactId>,
) -> Result<Vec<bool>, Memory>
    ensures { IfOk result (λ marks. marks.items
        ≡ map (λ group. has_contact contact group.members) groups.now) }
{
    groups
        .iter()
        .map(|group| has_contact(contact, group.members.as_slice()))
        .collect(alloc)
}

/// Whether a contact stands in lists of contacts, by the marks of the contact groups that have it.
fn is_contact(contact: Option<ContactId>, groups: &[bool], lists: &ContactLists) -> bool
    ensures { result ≡ (has_contact contact lists.now.contacts
        || list_any (λ id. slice_index_or groups.now id.0 false) lists.now.contact_groups) }
{
    has_contact(contact, lists.contacts.as_slice())
        || is_one_marked(groups, lists.contact_groups.as_slice())
}

/// For each service, whether it is marked or its host is.
fn or_of_hosts(
    alloc: Global,
    marks: &[bool],
    owners: &[u32],
    hosts: &[bool],
) -> Result<Vec<bool>, Memory>
    ensures { IfOk result (λ seen. seen.items
        ≡ map (λ pair. pair.0 || slice_index_or hosts.now pair.1 false)
        (zip marks.now owners.now)) }
{
    marks
        .iter()
        .zip(owners)
        .map(|(mark, host)| *mark || is_marked(hosts, *host as usize))
        .collect(alloc)
}

/// Whether a list of contacts has one.
fn has_contact(contact: Option<ContactId>, ids: &[ContactId]) -> bool
    ensures { result ≡ has_contact contact ids.now }
{
    match contact {
        Some(contact) => lists(ids, contact),
        None => false,
    }
}

fn lists(ids: &[ContactId], contact: ContactId) -> bool
    ensures { result ≡ list_any (λ id. id.0 == contact.0) ids.now }
{
    ids.iter().any(|id| id.0 == contact.0)
}
