//! The data that the layers above share: texts, lists, averages, the formats of replies, and the
//! objects of a base.
#![tactic(auto)]

mod base;
mod clean;
mod format;
mod ids;
mod items;
mod micro;
mod monitored;
mod name_query;
mod named;
mod object;
mod owned;
mod refusal;
mod text;

pub use base::{
    Base, Command, Contact, ContactGroup, Host, HostGroup, ObjectFields, Period, Rules, Service,
    ServiceGroup,
};
pub use clean::clean_text;
pub use format::{Format, Separators};
pub use ids::{
    CommandId, ContactGroupId, ContactId, HostGroupId, HostId, Id, PeriodId, ServiceGroupId,
    ServiceId,
};
pub use items::Items;
pub use micro::Micro;
pub use monitored::{ContactIndex, ContactLists, MonitoredItems, MonitoredObject};
pub use named::{NamedItems, NamedObject};
pub use object::{Object, ObjectKind};
pub use refusal::Refusal;
pub use text::Text;

/// The error of a call that ran out of memory.
pub type Memory = std::alloc::AllocError;
