//! What the program reads, writes and loads, as traits, with a form in memory and a form over the
//! standard library of each.
//!
//! Each form counts its faults. The count never falls, and an answer that is a fault comes only
//! where the count rose in that call. A count stops at the largest `u64`, and counts as risen
//! there.
#![tactic(auto)]

mod failed;
mod files;
mod mem_files;
mod mem_sink;
mod mem_source;
mod plan;
mod sink;
mod source;
mod standard_stream;
mod std_files;
mod std_sink;
mod std_source;
mod steady;
mod unread;

pub use failed::{Failed, Memory};
pub use files::{Files, LoadErr};
pub use mem_files::MemFiles;
pub use mem_sink::MemSink;
pub use mem_source::MemSource;
pub use sink::{Sink, write_all};
pub use source::Source;
pub use standard_stream::StandardStream;
pub use std_files::StdFiles;
pub use std_sink::StdSink;
pub use std_source::StdSource;
pub use steady::SteadySource;
