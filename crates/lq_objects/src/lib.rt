//! Nagios Core's flattened object file: the base that it says, or the first fault in it.
#![tactic(auto)]

mod block;
mod check;
mod directive;
mod directory;
mod draft;
mod fault;
mod kind;
mod known;
mod line;
mod name;
mod names;
mod objects;
mod part;
mod places;
mod read;
mod texts;
mod unknown;
mod variables;

pub use fault::{FaultyLine, ObjectsErr, ObjectsWhat};
pub use read::read_objects;
