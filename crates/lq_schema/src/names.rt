use lq_records::{Items, Text};

/// The names that a query fixes, so that only rows with these names can be wanted. For now no name
/// is fixed: the three lists are empty. By default they are, and every row may be wanted.
#[derive(Drop, Default)]
pub struct Names {
    /// What the name of the row itself must be equal to: the `name` of a host, a group of hosts or
    /// a group of services.
    pub own: Items<Text>,
    /// What the name of the row's host must be equal to.
    pub host: Items<Text>,
    /// What the description of the row's service must be equal to.
    pub service: Items<Text>,
}
