use lq_records::{HostId, Object};

/// An object whose history is told.
#[derive(Clone, Copy)]
pub(crate) struct Subject<'a> {
    pub object: Object,
    /// The object itself as a host, or the host that it runs on.
    pub host: HostId,
    /// The name of the time period in which people are notified about the object.
    pub period: &'a str,
}
