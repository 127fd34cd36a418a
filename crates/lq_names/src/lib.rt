//! The names of objects, and where each stands among the others of its kind.
#![tactic(auto)]

mod name;
mod name_index;

pub use name::ObjectName;
pub use name_index::NameIndex;
