//! The classes of log entries.

/// What has no other class.
pub(crate) const OTHER: u8 = 0;

/// A host or a service changes, or its downtime or flapping does.
pub(crate) const ALERT: u8 = 1;

/// The program's own run.
pub(crate) const PROGRAM: u8 = 2;

/// A contact is notified.
pub(crate) const NOTIFICATION: u8 = 3;

/// The result of a passive check.
pub(crate) const CHECK: u8 = 4;

/// An external command.
pub(crate) const COMMAND: u8 = 5;

/// The state that a host or a service is in, or a time period that goes over.
pub(crate) const STATE: u8 = 6;
