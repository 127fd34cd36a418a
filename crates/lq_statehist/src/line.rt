ghost use Rattle.std.specs.Prelude.{◌≡◌};
ghost use Rattle.std.specs.Option.{option_map};
ghost use Rattle.lq_statehist.specs.Notes.{note_at, said_by};
ghost use Rattle.lq_statehist.specs.Pass.{note_of, said_of};
ghost use Rattle.lq_statehist.specs.Sorted.{object_of_said};

use lq_events::LogEntry;
use lq_log::{Told, object_of, period_of, told_by};
use lq_records::{Base, Object};

/// What a line of the log says of history.
#[derive(Clone, Copy)]
pub(crate) enum Said<'a> {
    /// The state of an object, and what the check said.
    State {
        object: Object,
        state: i64,
        output: &'a str,
    },
    /// Whether a downtime of an object goes on.
    Downtime {
        object: Object,
        on: bool,
    },
    /// Whether an object goes on flapping.
    Flapping {
        object: Object,
        on: bool,
    },
    /// Whether the time period with a name is on.
    Period {
        name: &'a str,
        on: bool,
    },
}

/// What a line says, its second, and its place in the log.
#[derive(Clone, Copy)]
pub(crate) struct Line<'a> {
    pub time: u64,
    pub place: u64,
    pub said: Said<'a>,
}

impl Said<'_> {
    /// The object of which something is said, None of a time period.
    pub(crate) fn object(&self) -> Option<Object>
        ensures { result ≡ object_of_said (said_of self.now) }
    {
        match self {
            Said::State { object, .. }
            | Said::Downtime { object, .. }
            | Said::Flapping { object, .. } => Some(*object),
            Said::Period { .. } => None,
        }
    }
}

impl<'a> Line<'a> {
    /// What the line at a place says of the history of the objects of a base, None where it says
    /// nothing.
    pub(crate) fn of(base: &Base, place: u64, entry: &'a LogEntry) -> Option<Line<'a>>
        ensures { option_map note_of result ≡ note_at base.now (place, entry.now) }
    {
        match said_by(base, entry) {
            Some(said) => Some(Line {
                time: entry.time,
                place,
                said,
            }),
            None => None,
        }
    }
}

fn said_by<'a>(base: &Base, entry: &'a LogEntry) -> Option<Said<'a>>
    ensures { option_map said_of result ≡ said_by base.now entry.now }
{
    match told_by(entry)? {
        Told::State { .. } => match object_of(base, entry) {
            Some(object) => Some(Said::State {
                object,
                state: entry.state,
                output: entry.output.as_str(),
            }),
            None => None,
        },
        Told::Downtime { on } => match object_of(base, entry) {
            Some(object) => Some(Said::Downtime { object, on }),
            None => None,
        },
        Told::Flapping { on } => match object_of(base, entry) {
            Some(object) => Some(Said::Flapping { object, on }),
            None => None,
        },
        Told::Period { on } => Some(Said::Period {
            name: period_of(entry),
            on,
        }),
    }
}
