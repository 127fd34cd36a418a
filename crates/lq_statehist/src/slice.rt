ghost use Rattle.std.specs.Prelude.{◌≡◌};

use lq_records::Object;
use std::alloc::AllocError;

/// The most slices of the histories of all objects. With one more none is given.
pub(crate) const MOST_SLICES: usize = 1_000_000;

/// A run of seconds in which the log tells the same of an object.
#[derive(Clone, Copy)]
pub struct Slice {
    /// The host or the service.
    pub object: Object,
    /// The first second of the slice, counted from the beginning of 1970.
    pub from: u64,
    /// The second after its last one.
    pub until: u64,
    /// The state that the last state or alert line about the object tells, -1 before the first
    /// one.
    pub state: i64,
    /// Whether the state of the host is above 0: of the object itself, or of the one that it runs
    /// on as a service.
    pub host_down: bool,
    /// Whether a downtime of the object goes on.
    pub in_downtime: bool,
    /// Whether a downtime of the host goes on: of the object itself, or of the one that it runs on
    /// as a service.
    pub in_host_downtime: bool,
    /// Whether the object is flapping.
    pub is_flapping: bool,
    /// Whether the time period is on in which people are notified about the object.
    pub in_period: bool,
    /// The place in the log of the line that told the state at the first second of the slice, whose
    /// output is that of the slice. None before the first such line.
    pub line: Option<u64>,
}

/// Why there is no history.
#[derive(Drop)]
pub enum HistErr {
    /// It would have more than 1,000,000 slices.
    TooMany,
    /// Out of memory.
    Memory,
}

impl From<AllocError> for HistErr {
    ghost use Rattle.lq_statehist.specs.declared.slice.HistErr.TheVariants.{Memory};

    ghost from_gives = { λ _ e. e ≡ Memory };

    fn from(_: AllocError) -> Self {
        HistErr::Memory
    }
}
