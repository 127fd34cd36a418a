ghost use Rattle.std.specs.Prelude.{◌≡◌, [], ◌∷◌, length, filter, map, max, fold};
ghost use Rattle.std.specs.List.{filter_map, slice_get};
ghost use Rattle.lq_schema.specs.Value.{meaning_of};
ghost use Rattle.lq_auth.specs.Rights.{sees_host};
ghost use Rattle.lq_columns.specs.Cells.{hosts_cell, natural, services_cell};
ghost use Rattle.lq_columns.specs.Counts.{counts_at, hosts_counted, services_counted, worst_host};
ghost use Rattle.lq_columns.specs.Counts.{worst_of, worst_service};
ghost use Rattle.lq_columns.specs.Severity.{host_severity, severity_at};

use crate::counted::{Counted, counts_at};
use crate::scope::Scope;
use crate::seen::{SeenServices, members_of_hosts};
use crate::severity::{host_severity_at, host_state_by};
use lq_auth::View;
use lq_events::Status;
use lq_live::Live;
use lq_records::{HostGroupId, HostId};
use lq_schema::{HostCounter, ServiceCounter, Val};

// ---- services

/// The value of a counter over the services of a host, of the hosts in a group, or in a group, as
/// far as they are seen: how many there are, how many were never checked, how many of the others
/// are in a state, and the worst state of all. 0 where there is no such host or group. It takes no
/// memory, and looks at the services of the scope alone.
pub fn services_value(
    live: &Live,
    view: &View,
    scope: Scope,
    column: ServiceCounter,
) -> Val<'static>
    ensures { meaning_of result ≡ services_cell live.now.state view.now scope column }
{
    match column {
        ServiceCounter::NumServices => services_in(live, view, scope, Counted::All),
        ServiceCounter::NumServicesOk => services_in(live, view, scope, Counted::In(0)),
        ServiceCounter::NumServicesWarn => services_in(live, view, scope, Counted::In(1)),
        ServiceCounter::NumServicesCrit => services_in(live, view, scope, Counted::In(2)),
        ServiceCounter::NumServicesUnknown => services_in(live, view, scope, Counted::In(3)),
        ServiceCounter::NumServicesPending => services_in(live, view, scope, Counted::Pending),
        ServiceCounter::WorstServiceState => worst_service(live, view, scope),
    }
}

fn services_in(live: &Live, view: &View, scope: Scope, which: Counted) -> Val<'static>
    ensures { meaning_of result
        ≡ natural (services_counted live.now.state view.now scope which) }
{
    Val::Int(SeenServices::of(live, view).count(scope, which) as i128)
}

fn worst_service(live: &Live, view: &View, scope: Scope) -> Val<'static>
    ensures { meaning_of result ≡ natural (worst_service live.now.state view.now scope) }
{
    Val::Int(i128::from(SeenServices::of(live, view).worst(scope)))
}

// ---- hosts

/// The value of a counter over the hosts in a group that are seen: how many there are, how many
/// were never checked, how many of the others are in a state, and the worst state of all. 0 where
/// there is no such group.
pub fn hosts_value(
    live: &Live,
    view: &View,
    group: HostGroupId,
    column: HostCounter,
) -> Val<'static>
    ensures { meaning_of result ≡ hosts_cell live.now.state view.now group column }
{
    match column {
        HostCounter::NumHosts => hosts_in(live, view, group, Counted::All),
        HostCounter::NumHostsUp => hosts_in(live, view, group, Counted::In(0)),
        HostCounter::NumHostsDown => hosts_in(live, view, group, Counted::In(1)),
        HostCounter::NumHostsUnreach => hosts_in(live, view, group, Counted::In(2)),
        HostCounter::NumHostsPending => hosts_in(live, view, group, Counted::Pending),
        HostCounter::WorstHostState => worst_host(live, view, group),
    }
}

fn hosts_in(live: &Live, view: &View, group: HostGroupId, which: Counted) -> Val<'static>
    ensures { meaning_of result ≡ natural (hosts_counted live.now.state view.now group which) }
{
    let members = members_of_hosts(live.base(), group);
    Val::Int(count_hosts(live.host_statuses(), view, members, which) as i128)
}

fn count_hosts(statuses: &[Status], view: &View, members: &[HostId], which: Counted) -> usize
    ensures { result ≡ length (filter (λ id. counts_at statuses.now which id.0)
        (filter (sees_host view.now) members.now)) }
{
    members
        .iter()
        .filter(|id| view.sees_host(**id))
        .filter(|id| counts_at(statuses, which, id.0 as usize))
        .count()
}

fn worst_host(live: &Live, view: &View, group: HostGroupId) -> Val<'static>
    ensures { meaning_of result ≡ natural (worst_host live.now.state view.now group) }
{
    let members = members_of_hosts(live.base(), group);
    Val::Int(i128::from(worst_among(live.host_statuses(), view, members)))
}

/// The worst state of those of some hosts that are seen.
fn worst_among(statuses: &[Status], view: &View, members: &[HostId]) -> u8
    ensures { result
        ≡ worst_of (0 ∷ 2 ∷ 1 ∷ []) (filter_map (λ id. slice_get statuses.now id.0)
        (filter (sees_host view.now) members.now)) }
{
    host_state_by(severity_among(statuses, view, members))
}

fn severity_among(statuses: &[Status], view: &View, members: &[HostId]) -> u8
    ensures { result
        ≡ fold max 0 (map (λ id. severity_at host_severity statuses.now id.0)
        (filter (sees_host view.now) members.now)) }
{
    members
        .iter()
        .filter(|id| view.sees_host(**id))
        .map(|id| host_severity_at(statuses, id.0 as usize))
        .fold(0, |worst, severity| worst.max(severity))
}
