//! Which rows a query chooses: tests of cells, patterns, and the filters that join tests.
#![tactic(auto)]

mod cells;
mod check;
mod element_check;
mod filter;
mod header;
mod marks;
mod node;
mod number_check;
mod operator;
mod pattern;
mod read;
mod ready;
mod ready_check;
mod ready_test;
mod scan;
mod stack;
mod text_check;

pub use cells::Cells;
pub use check::{Check, Comparison, Property};
pub use element_check::ElementCheck;
pub use filter::Filter;
pub use header::{Header, Join};
pub use number_check::NumberCheck;
pub use operator::Operator;
pub use pattern::{Pattern, ReadyPattern};
pub use read::{Test, TestErr};
pub use ready::{ReadyFilter, ReadyHeader};
pub use ready_check::{ReadyCheck, ReadyProperty};
pub use ready_test::ReadyTest;
pub use scan::Scan;
pub use stack::{Stack, StackErr};
pub use text_check::TextCheck;
