ghost use Rattle.std.specs.Prelude.{◌≡◌};

use crate::ids::{HostId, ServiceId};

/// A host or a service: what a status, a downtime, a comment or a row is about.
#[derive(Clone, Copy)]
pub enum Object {
    Host(HostId),
    Service(ServiceId),
}

/// Whether an object is a host or a service.
#[derive(Clone, Copy)]
pub enum ObjectKind {
    Host,
    Service,
}

impl Object {
    ghost use Rattle.lq_records.specs.Object.{is_same_object, kind_of};

    /// Whether it is a host or a service.
    pub fn kind(self) -> ObjectKind
        ensures { result ≡ kind_of self }
    {
        match self {
            Object::Host(_) => ObjectKind::Host,
            Object::Service(_) => ObjectKind::Service,
        }
    }

    /// Whether both are the same host or the same service.
    pub fn is_same(self, other: Object) -> bool
        ensures { result ≡ is_same_object self other }
    {
        match (self, other) {
            (Object::Host(a), Object::Host(b)) => a.0 == b.0,
            (Object::Service(a), Object::Service(b)) => a.0 == b.0,
            (Object::Host(_), Object::Service(_)) | (Object::Service(_), Object::Host(_)) => false,
        }
    }
}

impl ObjectKind {
    ghost use Rattle.lq_records.specs.Object.{is_same_kind};

    /// Whether both are hosts or both services.
    pub fn is_same(self, other: ObjectKind) -> bool
        ensures { result ≡ is_same_kind self other }
    {
        match (self, other) {
            (ObjectKind::Host, ObjectKind::Host) => true,
            (ObjectKind::Service, ObjectKind::Service) => true,
            (ObjectKind::Host, ObjectKind::Service) | (ObjectKind::Service, ObjectKind::Host) =>
                false,
        }
    }
}
