//! How severe states are, for the worst of several.

ghost use Rattle.std.specs.Prelude.{◌≡◌};
ghost use Rattle.lq_columns.specs.Counts.{state_of_member};
ghost use Rattle.lq_columns.specs.Severity.{host_severity, host_state_by, service_severity};
ghost use Rattle.lq_columns.specs.Severity.{service_state_by, severity_at};

use crate::counted::is_pending;
use lq_events::Status;

/// The state that an object counts with, 0 where it was never checked.
fn state_of_member(status: &Status) -> i64
    ensures { result ≡ state_of_member status.now }
{
    if is_pending(status) { 0 } else { status.state }
}

// ---- services

/// How severe the state of the service at a place is.
pub(crate) fn service_severity_at(statuses: &[Status], place: usize) -> u8
    ensures { result ≡ severity_at service_severity statuses.now place }
{
    match statuses.get(place) {
        Some(status) => service_severity(state_of_member(status)),
        None => 0,
    }
}

/// Critical, unknown, warning, ok.
fn service_severity(state: i64) -> u8
    ensures { result ≡ service_severity state }
{
    match state {
        2 => 3,
        3 => 2,
        1 => 1,
        _ => 0,
    }
}

/// The state of a severity.
pub(crate) fn service_state_by(severity: u8) -> u8
    ensures { result ≡ service_state_by severity }
{
    match severity {
        3 => 2,
        2 => 3,
        1 => 1,
        _ => 0,
    }
}

// ---- hosts

/// How severe the state of the host at a place is.
pub(crate) fn host_severity_at(statuses: &[Status], place: usize) -> u8
    ensures { result ≡ severity_at host_severity statuses.now place }
{
    match statuses.get(place) {
        Some(status) => host_severity(state_of_member(status)),
        None => 0,
    }
}

/// Down, unreachable, up.
fn host_severity(state: i64) -> u8
    ensures { result ≡ host_severity state }
{
    match state {
        1 => 2,
        2 => 1,
        _ => 0,
    }
}

/// The state of a severity.
pub(crate) fn host_state_by(severity: u8) -> u8
    ensures { result ≡ host_state_by severity }
{
    match severity {
        2 => 1,
        1 => 2,
        _ => 0,
    }
}
