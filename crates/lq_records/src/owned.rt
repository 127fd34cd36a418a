//! Which items each owner has. It is found once, so that the services of a host are found without a
//! walk over all services.

ghost use Rattle.std.specs.Prelude.{◌≡◌, ◌<◌, ◌==◌, ◌++◌, ◌∷◌, ℕ, [], length, IfOk, OnOk};
ghost use Rattle.std.specs.Prelude.{if◌then◌else◌};
ghost use Rattle.lq_records.specs.Owned.{AreOwned, places_at};

use crate::Memory;
use crate::items::Items;
use crate::monitored::MonitoredObject;
use std::alloc::{AllocError, Global};

/// For each owner, the places of its items, in order. An owner after the last one that has items
/// has no list.
pub(crate) fn lists_by_owner<T: MonitoredObject>(
    alloc: Global,
    items: &[T],
) -> Result<Vec<Items<u32>>, Memory>
    ensures { IfOk result (λ lists. AreOwned T.owner_of items.now lists.items) }
{
    let mut lists = Vec::new(alloc);
    for (place, item) in items.iter().enumerate() {
        let place = u32::try_from(place).map_err(|_| AllocError)?;
        add_place(alloc, &mut lists, item.owner() as usize, place)?;
    }
    Ok(lists)
}

/// Adds a place to the list of an owner.
fn add_place(
    alloc: Global,
    lists: &mut Vec<Items<u32>>,
    owner: usize,
    place: u32,
) -> Result<(), Memory>
    ensures { OnOk result ((other : ℕ) → places_at lists.new.items other
        ≡ places_at lists.old.items other ++ (if owner == other then place ∷ [] else [])) }
{
    grow(lists, owner)?;
    lists[owner].push(alloc, place)
}

/// Adds empty lists until an owner has one.
fn grow(lists: &mut Vec<Items<u32>>, owner: usize) -> Result<(), Memory>
    ensures long { OnOk result (owner < length lists.new.items) }
    ensures same { OnOk result ((other : ℕ) → places_at lists.new.items other
        ≡ places_at lists.old.items other) }
{
    'owners: while lists.len() <= owner {
        lists.push(Items::default())?;
    }
    Ok(())
}
