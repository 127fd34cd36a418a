ghost use Rattle.std.specs.Prelude.{◌≡◌, List, [], IfOk, map};
ghost use Rattle.lq_names.specs.Names.{ObjectName, both_parts};
ghost use Rattle.lq_objects.specs.Directories.{AreNamesOf};
ghost use Rattle.lq_objects.specs.Objects.{objects_of};

use crate::directory::Directory;
use crate::kind::BlockKind;
use lq_names::NameIndex;
use lq_records::{
    Base, Command, Contact, ContactGroup, Host, HostGroup, Items, MonitoredItems, NamedItems,
    NamedObject, Period, Rules, Service, ServiceGroup,
};
use std::alloc::{AllocError, Global};

/// The objects of a base that is being read.
#[derive(Drop, Default)]
pub(crate) struct Draft {
    pub(crate) hosts: Items<Host>,
    pub(crate) services: Items<Service>,
    pub(crate) host_groups: Items<HostGroup>,
    pub(crate) service_groups: Items<ServiceGroup>,
    pub(crate) contacts: Items<Contact>,
    pub(crate) contact_groups: Items<ContactGroup>,
    pub(crate) periods: Items<Period>,
    pub(crate) commands: Items<Command>,
    pub(crate) rules: Rules,
}

impl Draft {
    ghost use Rattle.lq_objects.specs.Drafts.{base_of_draft, count_of_kind};

    /// No objects. It takes no memory.
    pub(crate) fn new(rules: Rules) -> Self
        ensures { (names : BlockKind → List ObjectName)
            → base_of_draft result ≡ objects_of names rules [] }
    {
        Draft {
            rules,
            ..Draft::default()
        }
    }

    /// How many objects of a kind there are so far, which is the place of the next one.
    pub(crate) fn count(&self, kind: BlockKind) -> usize
        ensures { result ≡ count_of_kind (base_of_draft self.now) kind }
    {
        match kind {
            BlockKind::Host => self.hosts.len(),
            BlockKind::Service => self.services.len(),
            BlockKind::HostGroup => self.host_groups.len(),
            BlockKind::ServiceGroup => self.service_groups.len(),
            BlockKind::Contact => self.contacts.len(),
            BlockKind::ContactGroup => self.contact_groups.len(),
            BlockKind::Period => self.periods.len(),
            BlockKind::Command => self.commands.len(),
        }
    }

    /// The base, in which objects are found by the names of the directory, which are theirs. The
    /// only error is that memory runs out.
    pub(crate) fn finish(self, alloc: Global, names: Directory) -> Result<Base, AllocError>
        requires { AreNamesOf names (base_of_draft self) }
        ensures { IfOk result (λ base. base ≡ base_of_draft self) }
    {
        Ok(Base {
            hosts: MonitoredItems::new(alloc, named_items(alloc, self.hosts, names.hosts))?,
            services: MonitoredItems::new(
                alloc,
                named_items(alloc, self.services, names.services),
            )?,
            host_groups: named_items(alloc, self.host_groups, names.host_groups),
            service_groups: named_items(alloc, self.service_groups, names.service_groups),
            contacts: named_items(alloc, self.contacts, names.contacts),
            contact_groups: named_items(alloc, self.contact_groups, names.contact_groups),
            periods: self.periods,
            commands: self.commands,
            rules: self.rules,
        })
    }
}

/// Objects in order, which are found by names that are theirs. It takes no memory.
fn named_items<T: NamedObject + Drop>(
    alloc: Global,
    items: Items<T>,
    names: NameIndex,
) -> NamedItems<T>
    requires { map both_parts names ≡ map T.name_of items }
    ensures { result ≡ items }
{
    NamedItems::new(items.into_vec(alloc), names.into_names())
}
