//! External commands: a line `[seconds] WORD;field;field...` becomes an order, which has its
//! second, its text and what the command does. Hosts and services are found in a base by their
//! names.
#![tactic(auto)]

mod command;
mod field;
mod form;
mod order;

pub use order::{CommandErr, Order, read_command};
