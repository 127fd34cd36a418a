ghost use Rattle.std.specs.Prelude.{◌≡◌, ◌++◌, ◌∷◌, [], if◌then◌else◌, nat_eq, IfOk, OnOk, map};
ghost use Rattle.std.specs.List.{filter_map, list_any};
ghost use Rattle.std.specs.Option.{option_to_list};
ghost use Rattle.lq_objects.specs.Checks.{MakesUnless};
ghost use Rattle.lq_objects.specs.Directories.{names_in};
ghost use Rattle.lq_objects.specs.Faults.{lacks_named};
ghost use Rattle.lq_names.specs.Names.{place_of};
ghost use Rattle.lq_objects.specs.Names.{text_or};
ghost use Rattle.lq_objects.specs.Needed.{directive_word};
ghost use Rattle.lq_objects.specs.Objects.{distinct, host_place, places};

use crate::directive::directive;
use crate::directory::Directory;
use crate::fault::ObjectErr;
use crate::kind::{BlockKind, Reference};
use crate::known::Directive;
use crate::line::Line;
use crate::names::{lacks_any, named_in};
use crate::texts::Texts;
use indexmap::IndexSet;
use lq_names::{NameIndex, ObjectName};
use lq_records::{HostId, Id, Items, Text};
use std::alloc::{AllocError, Global};

/// The most names whose places are gone over one by one, where one is there before.
const FEW: usize = 8;

/// The objects that a block's directive names, in order and without repeats. All must be there.
pub(crate) fn ids<T: Id>(
    texts: &Texts,
    directory: &Directory,
    reference: Reference,
    lines: &[Line<'_>],
) -> Result<Items<T>, ObjectErr>
    ensures ids { IfOk result
        (λ ids. ids ≡ map T.id_at (places (names_in directory.now) reference lines.now)) }
    ensures unknown { MakesUnless result
        (lacks_named (names_in directory.now) lines.now reference) }
{
    let Some(value) = directive(reference.directive(), lines) else {
        return Ok(Items::default());
    };
    let Some(names) = named_in(texts, reference, value)? else {
        return Err(ObjectErr::UnknownName);
    };
    let index = directory.of(reference.target());
    if lacks_any(index, &names) {
        return Err(ObjectErr::UnknownName);
    }
    Ok(ids_of(texts.alloc(), index, &names)?)
}

/// The objects that have names, in order and without repeats.
fn ids_of<T: Id>(
    alloc: Global,
    index: &NameIndex,
    names: &[ObjectName],
) -> Result<Items<T>, AllocError>
    ensures { IfOk result
        (λ ids. ids ≡ map T.id_at (distinct (filter_map (place_of index.now) names.now))) }
{
    if names.len() == 1 {
        return id_at(alloc, index.find(&names[0]));
    }
    if names.len() <= FEW {
        return ids_at(alloc, &few_places(alloc, index, names)?);
    }
    let places = places_of(alloc, index, names)?;
    ids_at(alloc, places.as_slice())
}

/// The same as `places_of`, where an index of the places would cost more than going over them.
fn few_places(
    alloc: Global,
    index: &NameIndex,
    names: &[ObjectName],
) -> Result<Vec<u32>, AllocError>
    ensures { IfOk result
        (λ found. found.items ≡ distinct (filter_map (place_of index.now) names.now)) }
{
    let mut places = Vec::new(alloc);
    for name in names {
        if let Some(place) = index.find(name) {
            push_new(&mut places, place)?;
        }
    }
    Ok(places)
}

/// Adds a place at the end, unless it is there.
fn push_new(places: &mut Vec<u32>, place: u32) -> Result<(), AllocError>
    ensures { OnOk result (places.new.items ≡ (if list_any (nat_eq place) places.old.items
        then places.old.items else places.old.items ++ place ∷ [])) }
{
    if !places.contains(&place) {
        places.push(place)?;
    }
    Ok(())
}

/// The places of names that are there, in order and without repeats.
fn places_of(
    alloc: Global,
    index: &NameIndex,
    names: &[ObjectName],
) -> Result<IndexSet<u32>, AllocError>
    ensures { IfOk result
        (λ found. found.keys ≡ distinct (filter_map (place_of index.now) names.now)) }
{
    let mut places = IndexSet::new(alloc);
    for name in names {
        if let Some(place) = index.find(name) {
            let Ok(_) = places.insert(place) else {
                return Err(AllocError);
            };
        }
    }
    Ok(places)
}

/// The place of the host that a service names. The name is the one that its lines say.
pub(crate) fn host_place(
    directory: &Directory,
    host_name: &Text,
    lines: &[Line<'_>],
) -> Result<HostId, ObjectErr>
    requires { host_name.now ≡ text_or [] (directive_word Directive.HostName) lines.now }
    ensures host { IfOk result (λ id. id ≡ record {
      0 = host_place (places (names_in directory.now) Reference.ServiceHost lines.now);
    }) }
    ensures unknown { MakesUnless result
        (lacks_named (names_in directory.now) lines.now Reference.ServiceHost) }
{
    let Some(_said) = directive(Directive::HostName, lines) else {
        return Ok(HostId(0));
    };
    let name = ObjectName::single(host_name.clone()?);
    match directory.of(BlockKind::Host).find(&name) {
        Some(place) => Ok(HostId(place)),
        None => Err(ObjectErr::UnknownName),
    }
}

/// The id of the object at a place, where there is one.
fn id_at<T: Id>(alloc: Global, place: Option<u32>) -> Result<Items<T>, AllocError>
    ensures { IfOk result (λ ids. ids ≡ map T.id_at (option_to_list place)) }
{
    let mut ids = Items::default();
    if let Some(place) = place {
        ids.push(alloc, T::at(place))?;
    }
    Ok(ids)
}

/// The ids of the objects at places.
fn ids_at<T: Id>(alloc: Global, places: &[u32]) -> Result<Items<T>, AllocError>
    ensures { IfOk result (λ ids. ids ≡ map T.id_at places.now) }
{
    let ids: Vec<T> = places.iter().map(|place| T::at(*place)).collect(alloc)?;
    Ok(Items::from_vec(ids))
}
