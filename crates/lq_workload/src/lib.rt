//! A generated workload: an object file, a log, and a stream of external commands and queries, all
//! of which one number decides.
#![tactic(auto)]

mod check;
mod generator;
mod log;
mod objects;
mod stream;
mod whole;

pub use whole::Workload;
