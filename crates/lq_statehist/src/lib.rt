//! The history of hosts and services: what a log tells of them from second to second.
#![tactic(auto)]

mod current;
mod laws;
mod line;
mod notes;
mod pass;
mod slice;
mod span;
mod subject;
mod whole;

pub use laws::{history_is_its_own, only_history, slices_have_outputs};
pub use slice::{HistErr, Slice};
pub use whole::slices;
