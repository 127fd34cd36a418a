//! Lines, blanks and numbers in bytes, and texts without case.
#![tactic(auto)]

mod blanks;
mod case;
mod lines;
mod numbers;
mod seconds;

pub use blanks::{is_blank, trim, trim_end};
pub use case::eq_nocase;
pub use lines::next_line;
pub use numbers::{read_i64, read_u64};
pub use seconds::bracketed_second;
