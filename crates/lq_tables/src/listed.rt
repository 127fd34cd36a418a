ghost use Rattle.std.specs.Prelude.{◌≡◌, ◌<◌, ◌^◌, IfOk, map};
ghost use Rattle.std.specs.List.{range_with_len};
ghost use Rattle.lq_tables.specs.Listed.{row_at};

use crate::row::Row;
use lq_records::{
    CommandId, ContactGroupId, ContactId, HostGroupId, HostId, Memory, PeriodId, ServiceGroupId,
    ServiceId,
};
use std::alloc::Global;

/// The objects that a base lists, by their kind.
#[derive(Clone, Copy)]
pub(crate) enum Listed {
    Hosts,
    Services,
    HostGroups,
    ServiceGroups,
    Contacts,
    ContactGroups,
    Commands,
    Periods,
}

impl Listed {
    /// The rows of so many objects, fewer than 2 ^ 32, in the order of the base.
    pub(crate) fn rows(self, alloc: Global, count: usize) -> Result<Vec<Row>, Memory>
        requires few { count < 2 ^ 32 }
        ensures { IfOk result (λ rows. rows.items ≡ map (row_at self) (range_with_len 0 count)) }
    {
        (0..count as u32)
            .map(|place| self.row_at(place))
            .collect(alloc)
    }

    /// The row of the object at a place.
    fn row_at(self, place: u32) -> Row
        ensures { result ≡ row_at self place }
    {
        match self {
            Listed::Hosts => Row::Host(HostId(place)),
            Listed::Services => Row::Service(ServiceId(place)),
            Listed::HostGroups => Row::HostGroup(HostGroupId(place)),
            Listed::ServiceGroups => Row::ServiceGroup(ServiceGroupId(place)),
            Listed::Contacts => Row::Contact(ContactId(place)),
            Listed::ContactGroups => Row::ContactGroup(ContactGroupId(place)),
            Listed::Commands => Row::Command(CommandId(place)),
            Listed::Periods => Row::Period(PeriodId(place)),
        }
    }
}
