ghost use Rattle.std.specs.Prelude.{◌≡◌};
ghost use Rattle.lq_columns.specs.Counts.{counts, counts_at, is_pending};

use lq_events::Status;

/// Which hosts or services a number counts.
#[derive(Clone, Copy)]
pub(crate) enum Counted {
    All,
    /// Those that were never checked.
    Pending,
    /// Those that were checked, and are in a state.
    In(i64),
}

pub(crate) fn is_pending(status: &Status) -> bool
    ensures { result ≡ is_pending status.now }
{
    status.has_been_checked == 0
}

/// Whether an object with a status counts.
fn counts(which: Counted, status: &Status) -> bool
    ensures { result ≡ counts which status.now }
{
    match which {
        Counted::All => true,
        Counted::Pending => is_pending(status),
        Counted::In(state) => !is_pending(status) && status.state == state,
    }
}

/// Whether the object at a place counts.
pub(crate) fn counts_at(statuses: &[Status], which: Counted, place: usize) -> bool
    ensures { result ≡ counts_at statuses.now which place }
{
    match statuses.get(place) {
        Some(status) => counts(which, status),
        None => false,
    }
}
