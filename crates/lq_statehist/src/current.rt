ghost use Rattle.std.specs.Prelude.{◌≡◌};
ghost use Rattle.lq_statehist.specs.Pass.{known_of, note_of, known_after_note, subject_of_lines};
ghost use Rattle.lq_statehist.specs.Pass.{unknown};
ghost use Rattle.lq_statehist.specs.Tiling.{same_facts};

use crate::line::{Line, Said};
use crate::subject::Subject;
use lq_records::Object;

/// What is known of an object at a second.
#[derive(Clone, Copy)]
pub(crate) struct Current<'a> {
    pub state: i64,
    pub output: &'a str,
    pub host_down: bool,
    pub in_downtime: bool,
    pub in_host_downtime: bool,
    pub is_flapping: bool,
    pub in_period: bool,
    pub line: Option<u64>,
}

impl<'a> Current<'a> {
    /// What is known without a log.
    pub(crate) fn nothing() -> Self
        ensures { known_of result ≡ unknown }
    {
        Current {
            state: -1,
            output: "",
            host_down: false,
            in_downtime: false,
            in_host_downtime: false,
            is_flapping: false,
            in_period: true,
            line: None,
        }
    }

    /// What is known after one more line.
    pub(crate) fn after(&self, about: &Subject<'_>, note: &Line<'a>) -> Self
        ensures { known_of result
            ≡ known_after_note (subject_of_lines about.now) (known_of self.now) (note_of note.now) }
    {
        let mut known = *self;
        let host = Object::Host(about.host);
        match note.said {
            Said::State {
                object,
                state,
                output,
            } => {
                if about.object.is_same(object) {
                    known.state = state;
                    known.output = output;
                    known.line = Some(note.place);
                }
                if host.is_same(object) {
                    known.host_down = state > 0;
                }
            }
            Said::Downtime { object, on } => {
                if about.object.is_same(object) {
                    known.in_downtime = on;
                }
                if host.is_same(object) {
                    known.in_host_downtime = on;
                }
            }
            Said::Flapping { object, on } => {
                if about.object.is_same(object) {
                    known.is_flapping = on;
                }
            }
            Said::Period { name, on } => {
                if !about.period.is_empty() && name == about.period {
                    known.in_period = on;
                }
            }
        }
        known
    }

    /// Whether the log tells the same. The lines that tell it may be different ones.
    pub(crate) fn is_same(&self, other: &Current<'_>) -> bool
        ensures { result ≡ same_facts (known_of self.now).facts (known_of other.now).facts }
    {
        self.state == other.state
            && self.output == other.output
            && self.host_down == other.host_down
            && self.in_downtime == other.in_downtime
            && self.in_host_downtime == other.in_host_downtime
            && self.is_flapping == other.is_flapping
            && self.in_period == other.in_period
    }
}
