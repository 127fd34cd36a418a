//! The tests of the calls that may run out of memory. Each call is made in a process that has no
//! more memory than some room, where it fails late: after most of what it takes was there. It is
//! then made again with ample memory, and compared.
//!
//! `rt try` runs no such test: it checks each access by an allocator of its own, whose memory
//! doesn't end.
#![tactic(auto)]

#[cfg(test)]
mod lists;
#[cfg(test)]
mod log;
#[cfg(test)]
mod reading;
#[cfg(test)]
mod replies;
#[cfg(test)]
mod scarce;
#[cfg(test)]
mod site;
#[cfg(test)]
mod steps;
