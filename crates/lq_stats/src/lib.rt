//! The statistics of a query: its rows put together by the cells that they have in common, and of
//! each such group the counts, sums, least, greatest and average numbers.
#![tactic(auto)]

mod cell;
mod column;
mod groups;
mod key;
mod key_set;
mod kind;
mod spec;
mod total;
mod totals;

pub use cell::StatCell;
pub use column::StatColumn;
pub use groups::Groups;
pub use kind::StatKind;
pub use spec::{StatLine, StatsSpec};
