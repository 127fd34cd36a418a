//! What happens to the objects of a base: external commands that were taken, and what they leave,
//! statuses, downtimes, comments and log entries.
#![tactic(auto)]

mod log_entry;
mod status;
mod update;

pub use log_entry::{Kind, LogEntry};
pub use status::{Comment, Downtime, Status};
pub use update::{Act, Update};
