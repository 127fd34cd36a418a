//! What is counted over services. A base knows which services each host has, and names each member
//! of a group once, so that only the services of a scope are looked at.

ghost use Rattle.std.specs.Prelude.{◌≡◌, ◌<◌, ◌^◌, [], ◌∷◌, length, filter, map, max, fold};
ghost use Rattle.std.specs.List.{filter_map, slice_get};
ghost use Rattle.lq_auth.specs.Rights.{sees_service, sees_service_at};
ghost use Rattle.lq_records.specs.Sound.{IsSound};
ghost use Rattle.lq_columns.specs.Counts.{counts_at, group_members, seen_places};
ghost use Rattle.lq_columns.specs.Counts.{service_members, worst_of};
ghost use Rattle.lq_columns.specs.Hosts.{seen_of_hosts};
ghost use Rattle.lq_columns.specs.Severity.{service_severity, severity_at};

use crate::counted::{Counted, counts_at};
use crate::scope::Scope;
use crate::severity::{service_severity_at, service_state_by};
use lq_auth::View;
use lq_events::Status;
use lq_live::Live;
use lq_records::{Base, HostGroupId, HostId, ServiceGroupId, ServiceId};

/// The services of a base at a state, as far as a query sees them.
#[derive(Drop)]
pub(crate) struct SeenServices<'a> {
    base: &'a Base,
    statuses: &'a [Status],
    view: &'a View,
}

impl<'a> SeenServices<'a> {
    pub(crate) fn of(live: &'a Live, view: &'a View) -> Self
        ensures base { result.base.now ≡ live.now.state.base }
        ensures statuses { result.statuses.now ≡ live.now.state.service_status }
        ensures view { result.view.now ≡ view.now }
        ensures sound { IsSound result.base.now }
    {
        SeenServices {
            base: live.base(),
            statuses: live.service_statuses(),
            view,
        }
    }

    /// How many of a scope's count.
    pub(crate) fn count(&self, scope: Scope, which: Counted) -> usize
        requires { IsSound self.now.base.now }
        ensures { result ≡ length (filter (counts_at self.now.statuses.now which)
            (seen_places self.now.base.now self.now.view.now scope)) }
    {
        match scope {
            Scope::Host(id) => self.count_at(self.base.services.owned_by(id.0), which),
            Scope::HostGroup(group) => {
                self.count_of_hosts(members_of_hosts(self.base, group), which)
            }
            Scope::ServiceGroup(group) => {
                self.count_members(members_of_services(self.base, group), which)
            }
        }
    }

    /// The worst state of a scope's.
    #[tactic(auto, using(crate::proofs::Worst::greatest_is_worst_service))]
    pub(crate) fn worst(&self, scope: Scope) -> u8
        requires { IsSound self.now.base.now }
        ensures { result ≡ worst_of (0 ∷ 1 ∷ 3 ∷ 2 ∷ [])
            (filter_map (slice_get self.now.statuses.now)
            (seen_places self.now.base.now self.now.view.now scope)) }
    {
        service_state_by(self.severity(scope))
    }

    /// The greatest severity of their states.
    fn severity(&self, scope: Scope) -> u8
        requires { IsSound self.now.base.now }
        ensures { result ≡ fold max 0 (map (severity_at service_severity self.now.statuses.now)
            (seen_places self.now.base.now self.now.view.now scope)) }
    {
        match scope {
            Scope::Host(id) => self.severity_of_hosts(&[id]),
            Scope::HostGroup(group) => self.severity_of_hosts(members_of_hosts(self.base, group)),
            Scope::ServiceGroup(group) => {
                self.severity_among(members_of_services(self.base, group))
            }
        }
    }

    // ---- of hosts

    fn count_of_hosts(&self, hosts: &[HostId], which: Counted) -> usize
        requires { length (filter (counts_at self.now.statuses.now which)
            (seen_of_hosts self.now.base.now self.now.view.now hosts.now)) < 2 ^ 64 }
        ensures { result ≡ length (filter (counts_at self.now.statuses.now which)
            (seen_of_hosts self.now.base.now self.now.view.now hosts.now)) }
    {
        let mut count = 0;
        for id in hosts {
            count += self.count_at(self.base.services.owned_by(id.0), which);
        }
        count
    }

    fn count_at(&self, places: &[u32], which: Counted) -> usize
        ensures { result ≡ length (filter (counts_at self.now.statuses.now which)
            (filter (sees_service_at self.now.view.now) places.now)) }
    {
        places
            .iter()
            .filter(|place| self.view.sees_service_at(**place as usize))
            .filter(|place| counts_at(self.statuses, which, **place as usize))
            .count()
    }

    fn severity_of_hosts(&self, hosts: &[HostId]) -> u8
        ensures { result ≡ fold max 0 (map (severity_at service_severity self.now.statuses.now)
            (seen_of_hosts self.now.base.now self.now.view.now hosts.now)) }
    {
        hosts
            .iter()
            .flat_map(|id| self.base.services.owned_by(id.0))
            .filter(|place| self.view.sees_service_at(**place as usize))
            .map(|place| service_severity_at(self.statuses, *place as usize))
            .fold(0, |worst, severity| worst.max(severity))
    }

    // ---- of a list

    fn count_members(&self, members: &[ServiceId], which: Counted) -> usize
        ensures { result ≡ length (filter (λ id. counts_at self.now.statuses.now which id.0)
            (filter (sees_service self.now.view.now) members.now)) }
    {
        members
            .iter()
            .filter(|id| self.view.sees_service(**id))
            .filter(|id| counts_at(self.statuses, which, id.0 as usize))
            .count()
    }

    fn severity_among(&self, members: &[ServiceId]) -> u8
        ensures { result
            ≡ fold max 0 (map (λ id. severity_at service_severity self.now.statuses.now id.0)
            (filter (sees_service self.now.view.now) members.now)) }
    {
        members
            .iter()
            .filter(|id| self.view.sees_service(**id))
            .map(|id| service_severity_at(self.statuses, id.0 as usize))
            .fold(0, |worst, severity| worst.max(severity))
    }
}

/// The hosts that a group lists.
pub(crate) fn members_of_hosts(base: &Base, group: HostGroupId) -> &[HostId]
    ensures { result.now ≡ group_members base.now group }
{
    match base.host_groups.as_slice().get(group.0 as usize) {
        Some(group) => group.members.as_slice(),
        None => &[],
    }
}

/// The services that a group lists.
fn members_of_services(base: &Base, group: ServiceGroupId) -> &[ServiceId]
    ensures { result.now ≡ service_members base.now group }
{
    match base.service_groups.as_slice().get(group.0 as usize) {
        Some(group) => group.members.as_slice(),
        None => &[],
    }
}
