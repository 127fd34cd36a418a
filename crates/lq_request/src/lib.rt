//! Messages: cutting them out of a connection's bytes, and reading what they ask.
#![tactic(auto)]

mod aggregate;
mod cut;
mod entry;
mod extent;
mod filter;
mod filters;
mod format;
mod header;
mod header_err;
mod number;
mod reason;
mod request;
mod stats;
mod style;
mod time;
mod trigger;
mod words;

pub use cut::{Cut, Cutting, MESSAGE_LIMIT};
pub use entry::StatEntry;
pub use header::MOST_HEADERS;
pub use request::{ReadErr, Request, read_request};
pub use style::{Style, reply_style};
pub use trigger::Trigger;
