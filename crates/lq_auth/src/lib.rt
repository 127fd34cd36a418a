//! Who may see what: the hosts and services that a contact sees, and the groups of these.
#![tactic(auto)]

mod contacts;
mod marks;
mod view;

pub use view::{Guarded, Seen, View};
