ghost use Rattle.std.specs.Prelude.{◌≡◌, ◌<◌, ◌+◌, ◌^◌, None, OnOk, length};
ghost use Rattle.lq_objects.specs.Directories.{empty, names_in, with_name};
ghost use Rattle.lq_names.specs.Names.{place_of};

use crate::kind::BlockKind;
use lq_names::{NameIndex, ObjectName};
use std::alloc::{AllocError, Global};

/// The names of the objects so far, those of each kind in order.
#[derive(Drop)]
pub(crate) struct Directory {
    pub(crate) hosts: NameIndex,
    pub(crate) services: NameIndex,
    pub(crate) host_groups: NameIndex,
    pub(crate) service_groups: NameIndex,
    pub(crate) contacts: NameIndex,
    pub(crate) contact_groups: NameIndex,
    periods: NameIndex,
    commands: NameIndex,
}

impl Directory {
    /// No names. It takes no memory.
    pub(crate) fn new(alloc: Global) -> Self
        ensures { result ≡ empty }
    {
        Directory {
            hosts: NameIndex::new(alloc),
            services: NameIndex::new(alloc),
            host_groups: NameIndex::new(alloc),
            service_groups: NameIndex::new(alloc),
            contacts: NameIndex::new(alloc),
            contact_groups: NameIndex::new(alloc),
            periods: NameIndex::new(alloc),
            commands: NameIndex::new(alloc),
        }
    }

    /// The names of a kind.
    pub(crate) fn of(&self, kind: BlockKind) -> &NameIndex
        ensures { result.now ≡ names_in self.now kind }
    {
        match kind {
            BlockKind::Host => &self.hosts,
            BlockKind::Service => &self.services,
            BlockKind::HostGroup => &self.host_groups,
            BlockKind::ServiceGroup => &self.service_groups,
            BlockKind::Contact => &self.contacts,
            BlockKind::ContactGroup => &self.contact_groups,
            BlockKind::Period => &self.periods,
            BlockKind::Command => &self.commands,
        }
    }

    /// Adds a name that isn't there at the end of its kind.
    pub(crate) fn push(&mut self, kind: BlockKind, name: ObjectName) -> Result<(), AllocError>
        requires new { place_of (names_in self.old kind) name ≡ None }
        requires few { length (names_in self.old kind) + 1 < 2 ^ 32 }
        ensures { OnOk result (self.new ≡ with_name self.old kind name) }
    {
        match kind {
            BlockKind::Host => self.hosts.push(name),
            BlockKind::Service => self.services.push(name),
            BlockKind::HostGroup => self.host_groups.push(name),
            BlockKind::ServiceGroup => self.service_groups.push(name),
            BlockKind::Contact => self.contacts.push(name),
            BlockKind::ContactGroup => self.contact_groups.push(name),
            BlockKind::Period => self.periods.push(name),
            BlockKind::Command => self.commands.push(name),
        }
    }
}
