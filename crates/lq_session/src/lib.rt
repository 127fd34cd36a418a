//! The connection: the messages of an input, served one after the other.
#![tactic(auto)]

mod session;

pub use session::{ServeErr, serve};
