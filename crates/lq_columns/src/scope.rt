use lq_records::{HostGroupId, HostId, ServiceGroupId};

/// Whose services are counted.
#[derive(Clone, Copy)]
pub enum Scope {
    /// The services of a host.
    Host(HostId),
    /// The services of the hosts that a group lists.
    HostGroup(HostGroupId),
    /// The services that a group lists.
    ServiceGroup(ServiceGroupId),
}
