//! The program: what the words of its command line ask, what it does by them, and how it ends.
#![tactic(auto)]

mod command_line;
mod fault;
mod load;
mod program;

pub use command_line::words;
pub use fault::{Fault, LogFault, ObjectsFault};
pub use program::run;
