ghost use Rattle.std.specs.Prelude.{◌≡◌, Bool, IfOk, IsOk, None, Some, filter};
ghost use Rattle.std.specs.Option.{option_copied};
ghost use Rattle.lq_auth.specs.declared.view.View.{View};
ghost use Rattle.lq_auth.specs.Lines.{is_open, sees_line};
ghost use Rattle.lq_auth.specs.Rights.{sees_host, sees_host_group, sees_object, sees_service};
ghost use Rattle.lq_auth.specs.Rights.{sees_service_at, sees_service_group, view_of};

use crate::contacts::Viewer;
use crate::marks::is_marked;
use lq_events::{Kind, LogEntry};
use lq_records::{Base, HostGroupId, HostId, Items, Memory, Object, ServiceGroupId, ServiceId};
use std::alloc::Global;

/// What a contact sees of a base. Each list has one mark an object, in the base's order.
#[derive(Drop)]
pub struct Seen {
    /// Whether the base has the contact. One whom it doesn't know sees nothing.
    pub known: bool,
    /// For each host, whether it is seen.
    pub hosts: Items<bool>,
    /// For each service, whether it is seen.
    pub services: Items<bool>,
    /// For each group of hosts, whether it is seen.
    pub host_groups: Items<bool>,
    /// For each group of services, whether it is seen.
    pub service_groups: Items<bool>,
}

/// What a query sees of a base. It is made once a query, in time linear in the base; each question
/// after that is one look.
#[derive(Drop)]
pub enum View {
    /// All of it: the query has no user.
    All,
    /// What its user sees.
    Only(Seen),
}

/// The id of an object that not every contact sees.
pub trait Guarded: Copy {
    ghost is_seen: { View → Self → Bool };

    /// Whether a query sees the object.
    fn is_seen(self, view: &View) -> bool
        ensures { result ≡ is_seen view.now self };
}

impl Guarded for HostId {
    ghost is_seen = { sees_host };

    fn is_seen(self, view: &View) -> bool {
        view.sees_host(self)
    }
}

impl Guarded for ServiceId {
    ghost is_seen = { sees_service };

    fn is_seen(self, view: &View) -> bool {
        view.sees_service(self)
    }
}

impl View {
    /// What a query sees of a base by its `AuthUser`, the name of a contact; all where it has none,
    /// and nothing where the base has no such contact. The only error is out of memory; without a
    /// user it takes none.
    pub fn of(alloc: Global, base: &Base, user: Option<&str>) -> Result<View, Memory>
        ensures value { IfOk result (λ view. view ≡ view_of base.now (option_copied user.entry)) }
        ensures whole { user.entry ≡ None → IsOk result }
    {
        match user {
            Some(user) => View::of_user(alloc, base, user),
            None => Ok(View::All),
        }
    }

    fn of_user(alloc: Global, base: &Base, user: &str) -> Result<View, Memory>
        ensures { IfOk result (λ view. view ≡ view_of base.now (Some user.now)) }
    {
        let contact = base.contacts.find(user);
        let viewer = Viewer::new(alloc, base, contact)?;
        Ok(View::Only(viewer.seen_lists(alloc)?))
    }

    /// Those of some objects that are seen, in their order. The only error is out of memory.
    pub fn seen_of<I: Guarded>(&self, alloc: Global, ids: &[I]) -> Result<Vec<I>, Memory>
        ensures { IfOk result (λ seen. seen.items ≡ filter (I.is_seen self.now) ids.now) }
    {
        ids.iter()
            .copied()
            .filter(|id| id.is_seen(self))
            .collect(alloc)
    }

    /// Whether the host is seen.
    #[inline]
    pub fn sees_host(&self, id: HostId) -> bool
        ensures { result ≡ sees_host self.now id }
    {
        match self {
            View::All => true,
            View::Only(seen) => is_marked(seen.hosts.as_slice(), id.0 as usize),
        }
    }

    /// Whether the service is seen.
    #[inline]
    pub fn sees_service(&self, id: ServiceId) -> bool
        ensures { result ≡ sees_service self.now id }
    {
        self.sees_service_at(id.0 as usize)
    }

    /// Whether the service at a place of the base's list is seen.
    #[inline]
    pub fn sees_service_at(&self, place: usize) -> bool
        ensures { result ≡ sees_service_at self.now place }
    {
        match self {
            View::All => true,
            View::Only(seen) => is_marked(seen.services.as_slice(), place),
        }
    }

    /// Whether the host or the service is seen.
    #[inline]
    pub fn sees_object(&self, object: Object) -> bool
        ensures { result ≡ sees_object self.now object }
    {
        match object {
            Object::Host(id) => self.sees_host(id),
            Object::Service(id) => self.sees_service(id),
        }
    }

    /// Whether a line of the log is seen, by the object that it is about (`lq_log::object_of`). A
    /// line about an object is seen where the object is. Another line is seen by each contact whom
    /// the base knows where its class is 0 or 2, or it tells that a time period goes over.
    #[inline]
    pub fn sees_line(&self, about: Option<Object>, e: &LogEntry) -> bool
        ensures { result ≡ sees_line self.now about e.now }
    {
        match (self, about) {
            (View::All, _) => true,
            (View::Only(_), Some(object)) => self.sees_object(object),
            (View::Only(seen), None) => seen.known && is_open(e),
        }
    }

    /// Whether the group of hosts is seen.
    #[inline]
    pub fn sees_host_group(&self, id: HostGroupId) -> bool
        ensures { result ≡ sees_host_group self.now id }
    {
        match self {
            View::All => true,
            View::Only(seen) => is_marked(seen.host_groups.as_slice(), id.0 as usize),
        }
    }

    /// Whether the group of services is seen.
    #[inline]
    pub fn sees_service_group(&self, id: ServiceGroupId) -> bool
        ensures { result ≡ sees_service_group self.now id }
    {
        match self {
            View::All => true,
            View::Only(seen) => is_marked(seen.service_groups.as_slice(), id.0 as usize),
        }
    }
}

/// Whether a line that is about no object is seen by each contact.
fn is_open(entry: &LogEntry) -> bool
    ensures { result ≡ is_open entry.now }
{
    entry.class == 0 || entry.class == 2 || matches!(entry.kind, Kind::TimeperiodTransition { .. })
}
