ghost use Rattle.std.specs.Prelude.{◌≡◌, ◌<◌, ◌↔◌, ◌++◌, ◌∷◌, ℕ, List, [], Some, length, map, IfOk};
ghost use Rattle.std.specs.Prelude.{IfSome, IsTrue, OnOk};
ghost use Rattle.std.specs.List.{slice_get};
ghost use Rattle.std.specs.Option.{option_copied, option_map};
ghost use Rattle.lq_records.specs.Contacts.{AreListsOf, IsIndexOf, lists_of};
ghost use Rattle.lq_records.specs.Named.{host_named, service_named};
ghost use Rattle.lq_records.specs.Owned.{owned_places};
ghost use Rattle.lq_records.specs.declared.base.ObjectFields.{ObjectFields};
ghost use Rattle.lq_records.specs.declared.monitored.ContactLists.{ContactLists};

use crate::Memory;
use crate::base::{Host, ObjectFields, Service};
use crate::ids::{ContactGroupId, ContactId, HostId, ServiceId};
use crate::items::Items;
use crate::named::{NamedItems, NamedObject};
use crate::owned::lists_by_owner;
use crate::text::Text;
use std::alloc::{AllocError, Global};
use std::marker::Model;

/// A host or a service.
pub trait MonitoredObject: NamedObject {
    ghost fields_of: { Self → ObjectFields };

    ghost owner_of: { Self → ℕ };

    /// The directives that hosts and services share.
    fn fields(&self) -> &ObjectFields
        ensures { result.now ≡ fields_of self.now };

    /// The place of its owner: for a service that of its host, and 0 for a host.
    fn owner(&self) -> u32
        ensures { result ≡ owner_of self.now };
}

impl MonitoredObject for Host {
    ghost fields_of = { λ host. host.fields };

    ghost owner_of = { λ _. 0 };

    fn fields(&self) -> &ObjectFields {
        &self.fields
    }

    fn owner(&self) -> u32 {
        0
    }
}

impl MonitoredObject for Service {
    ghost fields_of = { λ service. service.fields };

    ghost owner_of = { λ service. service.host.0 };

    fn fields(&self) -> &ObjectFields {
        &self.fields
    }

    fn owner(&self) -> u32 {
        self.host.0
    }
}

/// The contacts and the contact groups that an object names.
#[derive(Drop)]
pub struct ContactLists {
    pub contacts: Items<ContactId>,
    pub contact_groups: Items<ContactGroupId>,
}

impl ContactLists {
    fn of(alloc: Global, fields: &ObjectFields) -> Result<Self, Memory>
        ensures { IfOk result (λ lists. lists ≡ lists_of fields.now) }
    {
        Ok(ContactLists {
            contacts: Items::from_vec(Vec::from_slice(alloc, fields.contacts.as_slice())?),
            contact_groups: Items::from_vec(Vec::from_slice(
                alloc,
                fields.contact_groups.as_slice(),
            )?),
        })
    }

    /// Whether they are those of an object.
    fn are_of(&self, fields: &ObjectFields) -> bool
        ensures { IsTrue result → self.now ≡ lists_of fields.now }
    {
        self.contacts == fields.contacts && self.contact_groups == fields.contact_groups
    }
}

/// The contacts of hosts or services where they lie close together: what a contact sees of many
/// objects is found without a look at each.
#[derive(Clone, Copy)]
pub struct ContactIndex<'a> {
    /// The lists that objects have, most of them once.
    pub lists: &'a [ContactLists],
    /// For each object, the place of its lists among these.
    pub places: &'a [u32],
    /// For each service, the place of its host.
    pub owners: &'a [u32],
}

/// Hosts or services. Contracts see them as the list of them.
pub struct MonitoredItems<T: MonitoredObject> {
    items: NamedItems<T>,
    contacts: Gathered,
    owners: Vec<u32>,
    /// For each owner, the places of its items.
    owned: Vec<Items<u32>>,
}

// Written by hand: where one is dropped a proof then meets a call, and not each of the fields.
impl<T: MonitoredObject + Drop> Drop for MonitoredItems<T> {
    fn drop(self) {
        let MonitoredItems {
            items: _items,
            contacts: _contacts,
            owners: _owners,
            owned: _owned,
        } = self;
    }
}

impl<T: MonitoredObject> Model for MonitoredItems<T> {
    ghost use Rattle.std.specs.Prelude.{◌≡◌, List, map};
    ghost use Rattle.lq_records.specs.Contacts.{AreListsOf, lists_of};
    ghost use Rattle.lq_records.specs.Owned.{AreOwned};

    ghost Value = { List T };

    ghost view = { λ list. list.items };

    ghost invariant = { λ list.
        AreListsOf list.contacts.lists.items list.contacts.places.items
        (map (λ item. lists_of (T.fields_of item)) list.items)
        × (list.owners.items ≡ map T.owner_of list.items)
        × AreOwned T.owner_of list.items list.owned.items };
}

impl<T: MonitoredObject> MonitoredItems<T> {
    /// The items of a list that finds them by their names. The only error is that memory runs out.
    pub fn new(alloc: Global, items: NamedItems<T>) -> Result<Self, Memory>
    where
        T: Drop,
        ensures { IfOk result (λ list. list ≡ items) }
    {
        let contacts = gather(alloc, items.as_slice())?;
        let owners = owners_of(alloc, items.as_slice())?;
        let owned = lists_by_owner(alloc, items.as_slice())?;
        Ok(MonitoredItems {
            items,
            contacts,
            owners,
            owned,
        })
    }

    /// How many items it has.
    pub fn len(&self) -> usize
        ensures { result ≡ length self.now }
    {
        self.items.len()
    }

    /// Whether it has no item.
    pub fn is_empty(&self) -> bool
        ensures { IsTrue result ↔ (self.now ≡ []) }
    {
        self.items.is_empty()
    }

    /// The items, in order.
    pub fn as_slice(&self) -> &[T]
        ensures { result.now ≡ self.now }
    {
        self.items.as_slice()
    }

    /// The name of the item at a place, in its two parts, as `name_at` of `NamedItems` gives it.
    /// None after the last one.
    #[inline(always)]
    pub fn name_at(&self, place: usize) -> Option<&(Text, Text)>
        ensures { option_copied result
            ≡ option_map T.NamedObject.name_of (slice_get self.now place) }
    {
        self.items.name_at(place)
    }

    /// Their contacts, and the places of their owners.
    pub fn contact_index(&self) -> ContactIndex<'_>
        ensures { IsIndexOf result (map (λ item. lists_of (T.fields_of item)) self.now)
            (map T.owner_of self.now) }
    {
        ContactIndex {
            lists: &self.contacts.lists,
            places: &self.contacts.places,
            owners: &self.owners,
        }
    }

    /// The places of the items that an owner has, in order: of a host, those of its services.
    pub fn owned_by(&self, owner: u32) -> &[u32]
        ensures { result.now ≡ owned_places T.owner_of self.now owner }
    {
        match self.owned.get(owner as usize) {
            Some(places) => places.as_slice(),
            None => &[],
        }
    }
}

impl MonitoredItems<Host> {
    /// The host with a name. None where no host has it.
    pub fn find(&self, name: &str) -> Option<HostId>
        ensures value { result ≡ host_named self.now name.now }
        ensures within { IfSome result (λ id. id.0 < length self.now) }
    {
        self.items.find(name)
    }
}

impl MonitoredItems<Service> {
    /// The service with a description on the host with a name. None where no service has them.
    pub fn find(&self, host_name: &str, description: &str) -> Option<ServiceId>
        ensures value { result ≡ service_named self.now host_name.now description.now }
        ensures within { IfSome result (λ id. id.0 < length self.now) }
    {
        self.items.find(host_name, description)
    }
}

/// The places of the owners of items.
fn owners_of<T: MonitoredObject>(alloc: Global, items: &[T]) -> Result<Vec<u32>, Memory>
    ensures { IfOk result (λ owners. owners.items ≡ map T.owner_of items.now) }
{
    items.iter().map(|item| item.owner()).collect(alloc)
}

// ---- lists of contacts that are kept once

/// The lists of contacts of objects.
#[derive(Drop)]
struct Gathered {
    lists: Vec<ContactLists>,
    /// For each object, the place of its lists.
    places: Vec<u32>,
}

/// How many hints there are where lists may be found again. Where objects differ in a few lists
/// alone, most of them meet.
const HINTS: usize = 1024;

/// The most lists.
const MOST_LISTS: usize = 0xFFFF_FFFF;

/// The lists of contacts of all items.
fn gather<T: MonitoredObject>(alloc: Global, items: &[T]) -> Result<Gathered, Memory>
    ensures { IfOk result (λ all. AreListsOf all.lists.items all.places.items
        (map (λ item. lists_of (T.fields_of item)) items.now)) }
{
    let mut all = Gathered {
        lists: Vec::new(alloc),
        places: Vec::new(alloc),
    };
    let mut hints = [0; HINTS];
    for item in items {
        let hint = hint_of(item.fields());
        hints[hint] = all.add(alloc, item.fields(), hints[hint])?;
    }
    Ok(all)
}

impl Gathered {
    /// Adds the lists of an object, and gives their place.
    #[tactic(auto, using(crate::proofs::Contacts::one_more))]
    fn add(&mut self, alloc: Global, fields: &ObjectFields, hint: u32) -> Result<u32, Memory>
        ensures { (objects : List ContactLists)
            → AreListsOf self.old.lists.items self.old.places.items objects
            → OnOk result (AreListsOf self.new.lists.items self.new.places.items
            (objects ++ lists_of fields.now ∷ [])) }
    {
        let place = self.place_of(alloc, fields, hint)?;
        self.places.push(place)?;
        Ok(place)
    }

    /// The place of the lists of an object. They are added where they don't stand at the hint.
    #[tactic(auto, using(crate::proofs::Contacts::still_found, crate::proofs::Contacts::last_kept))]
    fn place_of(&mut self, alloc: Global, fields: &ObjectFields, hint: u32) -> Result<u32, Memory>
        ensures found { IfOk result
            (λ place. slice_get self.new.lists.items place ≡ Some (lists_of fields.now)) }
        ensures kept { (places : List ℕ) (objects : List ContactLists)
            → AreListsOf self.old.lists.items places objects
            → AreListsOf self.new.lists.items places objects }
        ensures places { self.new.places.items ≡ self.old.places.items }
    {
        if self.has_at(fields, hint) {
            return Ok(hint);
        }
        let place = self.lists.len();
        if place > MOST_LISTS {
            return Err(AllocError);
        }
        self.lists.push(ContactLists::of(alloc, fields)?)?;
        Ok(place as u32)
    }

    /// Whether the lists of an object stand at a place.
    fn has_at(&self, fields: &ObjectFields, place: u32) -> bool
        ensures { IsTrue result
            → slice_get self.now.lists.items place ≡ Some (lists_of fields.now) }
    {
        match self.lists.get(place as usize) {
            Some(lists) => lists.are_of(fields),
            None => false,
        }
    }
}

/// Where the lists of an object are hinted at: the same for the same lists.
fn hint_of(fields: &ObjectFields) -> usize
    ensures { result < HINTS }
{
    let mut mixed = 0_u32;
    for id in fields.contacts.as_slice() {
        mixed = mixed.wrapping_mul(31).wrapping_add(id.0);
    }
    for id in fields.contact_groups.as_slice() {
        mixed = mixed.wrapping_mul(31).wrapping_add(id.0);
    }
    mixed as usize % HINTS
}
