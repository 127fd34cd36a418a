//! The tests of the libraries together, on the objects of a small site: object files, external
//! commands and queries.
#![tactic(auto)]

#[cfg(test)]
mod columns;
#[cfg(test)]
mod commands;
#[cfg(test)]
mod filters;
#[cfg(test)]
mod fixture;
#[cfg(test)]
mod formats;
#[cfg(test)]
mod history;
#[cfg(test)]
mod live;
#[cfg(test)]
mod log;
#[cfg(test)]
mod objects;
#[cfg(test)]
mod opening;
#[cfg(test)]
mod rights;
#[cfg(test)]
mod schema;
#[cfg(test)]
mod statehist;
#[cfg(test)]
mod stats;
#[cfg(test)]
mod tables;
