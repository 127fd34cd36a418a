use lq_events::Status;
use lq_live::Live;
use lq_records::{Object, ObjectFields};

/// A host or a service: what the object file says of it, and what is known of its state.
#[derive(Clone, Copy)]
pub(crate) struct Monitored<'a> {
    pub(crate) live: &'a Live,
    pub(crate) about: Object,
    pub(crate) fields: &'a ObjectFields,
    pub(crate) status: &'a Status,
}
