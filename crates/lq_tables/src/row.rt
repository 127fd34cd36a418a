use crate::history_row::BoxedHistoryRow;
use lq_records::{
    CommandId, ContactGroupId, ContactId, HostGroupId, HostId, PeriodId, ServiceGroupId, ServiceId,
};

/// A row of a table.
#[derive(Drop)]
pub enum Row {
    Host(HostId),
    Service(ServiceId),
    HostGroup(HostGroupId),
    ServiceGroup(ServiceGroupId),
    Contact(ContactId),
    ContactGroup(ContactGroupId),
    Command(CommandId),
    Period(PeriodId),
    /// The downtime with an id.
    Downtime(u64),
    /// The comment with an id.
    Comment(u64),
    /// The line at a place of the log.
    Line(u64),
    /// The program as a whole.
    Status,
    /// A column by its place among all columns of all tables: the tables in their order, each with
    /// all its columns in order.
    Column(u64),
    /// A host as a member of a group.
    HostOf(HostGroupId, HostId),
    /// A service as a member of a group.
    ServiceOf(ServiceGroupId, ServiceId),
    /// A service of a host that is a member of a group.
    GroupService(HostGroupId, ServiceId),
    /// A slice of the history of a host or a service.
    Slice(BoxedHistoryRow),
}
