//! The tests of single calls of the libraries that read and write: bytes, streams and files, texts
//! and lists, lines of a log, the faults of object files, messages, statistics, bodies of replies.
#![tactic(auto)]

#[cfg(test)]
mod faults;
#[cfg(test)]
mod log;
#[cfg(test)]
mod output;
#[cfg(test)]
mod outside;
#[cfg(test)]
mod records;
#[cfg(test)]
mod request;
#[cfg(test)]
mod stats;
#[cfg(test)]
mod text;
#[cfg(test)]
mod workload;
