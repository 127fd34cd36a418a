ghost use Rattle.std.specs.Prelude.{◌≡◌, ◌==◌, ◌++◌, ℕ, [], IfOk, List, OnOk, flat_map};
ghost use Rattle.std.specs.List.{list_any};
ghost use Rattle.lq_records.specs.Sound.{IsSound};
ghost use Rattle.lq_columns.specs.Distinct.{stands_in, with_new, with_one};
ghost use Rattle.lq_columns.specs.Names.{IsContactNamed, contact_names_of, contacts_of, has_text};
ghost use Rattle.lq_columns.specs.Names.{members_of};

use crate::names::has_name;
use lq_records::{Base, ContactGroupId, ContactId, Memory, ObjectFields};
use std::alloc::Global;

/// The contacts at an object itself, then those of its contact groups, repeats dropped.
#[tactic(auto, using(crate::proofs::Distinct::contacts_found))]
pub(crate) fn contacts_of(
    alloc: Global,
    base: &Base,
    fields: &ObjectFields,
) -> Result<Vec<ContactId>, Memory>
    ensures { IfOk result (λ found. found.items ≡ contacts_of base.now fields.now) }
{
    let mut found = Vec::new(alloc);
    add_new(&mut found, fields.contacts.as_slice())?;
    add_members(&mut found, base, fields.contact_groups.as_slice())?;
    Ok(found)
}

/// Whether a contact at the object itself, or a member of one of its contact groups, has a name.
#[tactic(auto, using(crate::proofs::Found::contact_found))]
pub(crate) fn has_contact(base: &Base, fields: &ObjectFields, name: &str) -> bool
    ensures { result
        ≡ has_text name.now (contact_names_of base.now (contacts_of base.now fields.now)) }
{
    has_name(base, fields.contacts.as_slice(), name)
        || has_member(base, fields.contact_groups.as_slice(), name)
}

/// Whether a member of one of the contact groups has a name.
fn has_member(base: &Base, groups: &[ContactGroupId], name: &str) -> bool
    ensures { result ≡ list_any
        (λ group. has_text name.now (contact_names_of base.now (members_of base.now group)))
        groups.now }
{
    groups
        .iter()
        .any(|group| has_name(base, members_of(base, *group), name))
}

/// The contact with a name, None where the base has no such contact. Where the contacts of many
/// objects are looked through, this finds it once.
pub fn contact_named(base: &Base, name: &str) -> Option<ContactId>
    requires { IsSound base.now }
    ensures { IsContactNamed base.now name.now result }
{
    let contacts = base.contacts.as_slice();
    for (place, contact) in contacts.iter().enumerate() {
        if contact.contact_name.as_str() == name {
            return Some(ContactId(place as u32));
        }
    }
    None
}

/// Whether a contact at the object itself, or a member of one of its contact groups, is the one
/// that is looked for.
pub(crate) fn lists_contact(base: &Base, fields: &ObjectFields, contact: Option<ContactId>) -> bool
    ensures { (name : List ℕ) → IsContactNamed base.now name contact
        → result ≡ has_text name (contact_names_of base.now (contacts_of base.now fields.now)) }
{
    match contact {
        Some(contact) => lists_id(base, fields, contact),
        None => false,
    }
}

fn lists_id(base: &Base, fields: &ObjectFields, contact: ContactId) -> bool
    ensures { result
        ≡ list_any (λ id. id.0 == contact.0) (contacts_of base.now fields.now) }
{
    lists(fields.contacts.as_slice(), contact)
        || lists_member(base, fields.contact_groups.as_slice(), contact)
}

fn lists(ids: &[ContactId], contact: ContactId) -> bool
    ensures { result ≡ list_any (λ id. id.0 == contact.0) ids.now }
{
    ids.iter().any(|id| id.0 == contact.0)
}

/// Whether the contact is a member of one of the contact groups.
fn lists_member(base: &Base, groups: &[ContactGroupId], contact: ContactId) -> bool
    ensures { result ≡ list_any
        (λ group. list_any (λ id. id.0 == contact.0) (members_of base.now group)) groups.now }
{
    groups
        .iter()
        .any(|group| lists(members_of(base, *group), contact))
}

/// Adds the members of contact groups, as far as they aren't there.
fn add_members(
    found: &mut Vec<ContactId>,
    base: &Base,
    groups: &[ContactGroupId],
) -> Result<(), Memory>
    ensures { OnOk result (found.new.items
        ≡ with_new found.old.items (flat_map (members_of base.now) groups.now)) }
{
    for group in groups {
        add_new(found, members_of(base, *group))?;
    }
    Ok(())
}

fn members_of(base: &Base, group: ContactGroupId) -> &[ContactId]
    ensures { result.now ≡ members_of base.now group }
{
    match base.contact_groups.as_slice().get(group.0 as usize) {
        Some(group) => group.members.as_slice(),
        None => &[],
    }
}

/// Adds contacts, as far as they aren't there.
fn add_new(found: &mut Vec<ContactId>, ids: &[ContactId]) -> Result<(), Memory>
    ensures { OnOk result (found.new.items ≡ with_new found.old.items ids.now) }
{
    for id in ids {
        push_new(found, *id)?;
    }
    Ok(())
}

/// Adds a contact, unless it is there.
fn push_new(found: &mut Vec<ContactId>, id: ContactId) -> Result<(), Memory>
    ensures { OnOk result (found.new.items ≡ with_one found.old.items id) }
{
    if stands_in(found, id) {
        return Ok(());
    }
    found.push(id)?;
    Ok(())
}

fn stands_in(found: &[ContactId], id: ContactId) -> bool
    ensures { result ≡ stands_in found.now id }
{
    found.iter().any(|other| other.0 == id.0)
}
