ghost use Rattle.std.specs.Prelude.{◌≡◌};
ghost use Rattle.std.specs.Arc.{arc_value};
ghost use Rattle.std.specs.Option.{option_copied, option_map};
ghost use Rattle.lq_live.specs.Effects.{holds_object};
ghost use Rattle.lq_live.specs.Kept.{state_of};
ghost use Rattle.lq_live.specs.State.{line_names, names_of, object_status};

use crate::live_state::LiveState;
use crate::names::{ObjectNames, holds_object, names_of};
use lq_events::Status;
use lq_records::Object;
use std::alloc::Global;

/// What the edits of a step are made from: the state before it, the second to which it moves, and
/// the allocator of all that it adds.
#[derive(Clone, Copy)]
pub(crate) struct StepContext<'a> {
    pub(crate) alloc: Global,
    pub(crate) live: &'a LiveState,
    pub(crate) second: u64,
}

impl<'a> StepContext<'a> {
    /// Whether the base holds an object.
    pub(crate) fn holds_object(self, object: Object) -> bool
        ensures { result ≡ holds_object (arc_value self.entry.live.now.base) object }
    {
        holds_object(&self.live.base, object)
    }

    /// How a line names an object. None where the base doesn't hold it.
    pub(crate) fn name_of(self, object: Object) -> Option<ObjectNames<'a>>
        ensures { option_map (λ name. line_names name.host.now name.service.now) result
            ≡ names_of (arc_value self.entry.live.now.base) object }
    {
        names_of(&self.live.base, object)
    }

    /// The status of an object. None where the base doesn't hold it.
    pub(crate) fn status_of(self, object: Object) -> Option<&'a Status>
        ensures { option_copied result ≡ object_status (state_of self.entry.live.now) object }
    {
        self.live.status_of(object)
    }
}
