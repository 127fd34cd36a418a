ghost use Rattle.std.specs.Prelude.{◌≡◌, ◌<◌, ◌^◌, ◌↔◌, ℕ, List, [], length, map, IfSome, IsTrue};
ghost use Rattle.std.specs.List.{position, slice_get};
ghost use Rattle.std.specs.Option.{option_copied, option_map};
ghost use Rattle.lq_records.specs.Named.{has_name, contact_group_named, contact_named};
ghost use Rattle.lq_records.specs.Named.{host_group_named, host_named, service_group_named};
ghost use Rattle.lq_records.specs.Named.{service_named};

use crate::base::{Contact, ContactGroup, Host, HostGroup, Service, ServiceGroup};
use crate::ids::{ContactGroupId, ContactId, HostGroupId, HostId, ServiceGroupId, ServiceId};
use crate::name_query::NameQuery;
use crate::text::Text;
use indexmap::IndexSet;
use std::marker::Model;

/// An object that is found by its name. A service's name has two parts, its host's name and its
/// description; any other has an empty second part.
pub trait NamedObject {
    ghost name_of: { Self → List ℕ × List ℕ };
}

/// A list whose items are found by their names. Contracts see it as the list of its items.
pub struct NamedItems<T: NamedObject> {
    items: Vec<T>,
    /// The name of each item, in the order of the items.
    names: IndexSet<(Text, Text)>,
}

// Written by hand: where one is dropped a proof then meets a call, and not each of the fields.
impl<T: NamedObject + Drop> Drop for NamedItems<T> {
    fn drop(self) {
        let NamedItems {
            items: _items,
            names: _names,
        } = self;
    }
}

impl<T: NamedObject> Model for NamedItems<T> {
    ghost use Rattle.std.specs.Prelude.{◌≡◌, ◌<◌, ◌^◌, List, length, map};

    ghost Value = { List T };

    ghost view = { λ list. list.items.items };

    ghost invariant = { λ list. (length list.items.items < 2 ^ 32)
        × (list.names.keys ≡ map T.name_of list.items.items) };
}

impl<T: NamedObject> NamedItems<T> {
    /// Items in order, which are found by names that are handed on: theirs, in the same order. It
    /// takes no memory.
    pub fn new(items: Vec<T>, names: IndexSet<(Text, Text)>) -> Self
        requires few { length items.items < 2 ^ 32 }
        requires names { names.keys ≡ map T.name_of items.items }
        ensures { result ≡ items.items }
    {
        NamedItems { items, names }
    }

    /// How many items it has.
    pub fn len(&self) -> usize
        ensures { result ≡ length self.now }
    {
        self.items.len()
    }

    /// Whether it has no item.
    pub fn is_empty(&self) -> bool
        ensures { IsTrue result ↔ (self.now ≡ []) }
    {
        self.items.is_empty()
    }

    /// The items, in order.
    pub fn as_slice(&self) -> &[T]
        ensures { result.now ≡ self.now }
    {
        self.items.as_slice()
    }

    /// The name of the item at a place, in its two parts: of a service its host's name and its
    /// description, of any other item its own name and an empty text. It lies beside the names of
    /// the others: who goes over names alone looks at no item. None after the last one.
    #[inline(always)]
    pub fn name_at(&self, place: usize) -> Option<&(Text, Text)>
        ensures { option_copied result ≡ option_map T.name_of (slice_get self.now place) }
    {
        self.names.get_index(place)
    }

    /// The place of the item with a name. None where no item has it.
    fn place_of(&self, name: NameQuery<'_>) -> Option<u32>
        ensures value { result ≡ position
            (λ own. has_name name.entry.first.now name.entry.second.now (T.name_of own)) self.now }
        ensures within { IfSome result (λ place. place < length self.now) }
    {
        match self.names.get_index_of(name) {
            Some(place) => Some(place as u32),
            None => None,
        }
    }

    /// The place of the item with a name of one part.
    fn place_of_single(&self, name: &str) -> Option<u32>
        ensures value { result ≡ position
            (λ item. has_name name.now [] (T.name_of item)) self.now }
        ensures within { IfSome result (λ place. place < length self.now) }
    {
        self.place_of(NameQuery {
            first: name,
            second: "",
        })
    }
}

impl NamedItems<Host> {
    /// The host with a name. None where no host has it.
    #[tactic(auto, using(crate::proofs::NameLemmas::by_one_part))]
    pub fn find(&self, name: &str) -> Option<HostId>
        ensures value { result ≡ host_named self.now name.now }
        ensures within { IfSome result (λ id. id.0 < length self.now) }
    {
        Some(HostId(self.place_of_single(name)?))
    }
}

impl NamedItems<Service> {
    /// The service with a description on the host with a name. None where no service has them.
    pub fn find(&self, host_name: &str, description: &str) -> Option<ServiceId>
        ensures value { result ≡ service_named self.now host_name.now description.now }
        ensures within { IfSome result (λ id. id.0 < length self.now) }
    {
        Some(ServiceId(self.place_of(NameQuery {
            first: host_name,
            second: description,
        })?))
    }
}

impl NamedItems<HostGroup> {
    /// The group with a name. None where no group has it.
    #[tactic(auto, using(crate::proofs::NameLemmas::by_one_part))]
    pub fn find(&self, name: &str) -> Option<HostGroupId>
        ensures value { result ≡ host_group_named self.now name.now }
        ensures within { IfSome result (λ id. id.0 < length self.now) }
    {
        Some(HostGroupId(self.place_of_single(name)?))
    }
}

impl NamedItems<ServiceGroup> {
    /// The group with a name. None where no group has it.
    #[tactic(auto, using(crate::proofs::NameLemmas::by_one_part))]
    pub fn find(&self, name: &str) -> Option<ServiceGroupId>
        ensures value { result ≡ service_group_named self.now name.now }
        ensures within { IfSome result (λ id. id.0 < length self.now) }
    {
        Some(ServiceGroupId(self.place_of_single(name)?))
    }
}

impl NamedItems<Contact> {
    /// The contact with a name. None where no contact has it.
    #[tactic(auto, using(crate::proofs::NameLemmas::by_one_part))]
    pub fn find(&self, name: &str) -> Option<ContactId>
        ensures value { result ≡ contact_named self.now name.now }
        ensures within { IfSome result (λ id. id.0 < length self.now) }
    {
        Some(ContactId(self.place_of_single(name)?))
    }
}

impl NamedItems<ContactGroup> {
    /// The group with a name. None where no group has it.
    #[tactic(auto, using(crate::proofs::NameLemmas::by_one_part))]
    pub fn find(&self, name: &str) -> Option<ContactGroupId>
        ensures value { result ≡ contact_group_named self.now name.now }
        ensures within { IfSome result (λ id. id.0 < length self.now) }
    {
        Some(ContactGroupId(self.place_of_single(name)?))
    }
}
