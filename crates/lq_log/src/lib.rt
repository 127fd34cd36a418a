//! The lines of a log: what each says, the lines that the program writes, and the book that keeps
//! the entries.
#![tactic(auto)]

mod book;
mod class;
mod field;
mod fill;
mod form;
mod read;
mod split;
mod telling;
mod texts;
mod types;
mod whole;
mod words;
mod written;

pub use book::{LogBook, TIME_LIMIT};
pub use read::read_line;
pub use telling::{Told, is_flapping, is_period_on, object_of, period_of, told_by};
pub use types::{line_options, line_type};
pub use whole::LogErr;
pub use written::{DowntimeChange, Form, make_line};
