ghost use Rattle.std.specs.Prelude.{◌≡◌, ◌++◌, IfOk, OnOk, option_to_list};
ghost use Rattle.std.specs.Option.{option_map};
ghost use Rattle.lq_records.specs.Places.{found_at};
ghost use Rattle.lq_tables.specs.Parts.{pair_of, pairs_of};

use lq_records::{Base, Items, Memory, Service, ServiceId, Text};
use std::alloc::Global;

/// How a list names a service: by its host's name and its description.
#[derive(Clone, Copy)]
struct Pair<'a> {
    host: &'a str,
    description: &'a str,
}

/// The services at some places, in the order of the ids, each as its host's name and its
/// description. An id that names nothing is left out. The only error is out of memory.
pub(crate) fn pairs_of(
    alloc: Global,
    base: &Base,
    ids: &[ServiceId],
) -> Result<Items<(Text, Text)>, Memory>
    ensures { IfOk result (λ pairs. pairs ≡ pairs_of base.now ids.now) }
{
    let mut pairs = Items::default();
    for id in ids {
        push_pair(alloc, &mut pairs, pair_at(base, *id))?;
    }
    Ok(pairs)
}

/// Adds a copy of a pair, where there is one.
fn push_pair(
    alloc: Global,
    pairs: &mut Items<(Text, Text)>,
    pair: Option<Pair<'_>>,
) -> Result<(), Memory>
    ensures { OnOk result (pairs.new
        ≡ pairs.old
        ++ option_to_list (option_map (λ pair. (pair.host.now, pair.description.now)) pair.entry)) }
{
    let Some(pair) = pair else {
        return Ok(());
    };
    let host = Text::new(alloc, pair.host)?;
    let description = Text::new(alloc, pair.description)?;
    pairs.push(alloc, (host, description))
}

fn pair_at(base: &Base, id: ServiceId) -> Option<Pair<'_>>
    ensures { option_map (λ pair. (pair.host.now, pair.description.now)) result
        ≡ found_at (pair_of base.now) base.now.services id.0 }
{
    match base.services.as_slice().get(id.0 as usize) {
        Some(service) => pair_of(base, service),
        None => None,
    }
}

fn pair_of<'a>(base: &'a Base, service: &'a Service) -> Option<Pair<'a>>
    ensures { option_map (λ pair. (pair.host.now, pair.description.now)) result
        ≡ pair_of base.now service.now }
{
    match base.hosts.as_slice().get(service.host.0 as usize) {
        Some(host) => Some(Pair {
            host: host.host_name.as_str(),
            description: service.service_description.as_str(),
        }),
        None => None,
    }
}
