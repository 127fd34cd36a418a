//! The answer to a whole query: the rows of its table at a state, line by line, or the statistics
//! of these rows, in the form that it asks for.
#![tactic(auto)]

mod column;
mod entry;
mod groups;
mod isolation;
mod line;
mod page;
mod reply;
mod row_test;
mod selection;
mod sight;
mod text_lines;
mod window;

pub use isolation::replies_are_isolated;
pub use reply::{Reply, answer};
