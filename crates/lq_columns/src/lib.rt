//! The value that each column has of a host and of a service at a state, and the counters of hosts
//! and services.
#![tactic(auto)]

mod contacts;
mod counted;
mod counters;
mod empty;
mod entries;
mod host;
mod monitored;
mod names;
mod object;
mod scope;
mod seen;
mod service;
mod severity;
mod status;

pub use contacts::contact_named;
pub use counters::{hosts_value, services_value};
pub use empty::{empty_number, empty_text, empty_value, flag};
pub use host::{HostRow, host_value};
pub use names::{Named, names_of};
pub use scope::Scope;
pub use service::{ServiceRow, service_value};
pub use status::{notification_period_of, status_number};
