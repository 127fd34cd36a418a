ghost use Rattle.std.specs.Prelude.{◌≡◌, ◌++◌, OnOk, IfOk};
ghost use Rattle.std.specs.Arc.{arc_value};
ghost use Rattle.std.specs.Option.{option_map};
ghost use Rattle.lq_live.specs.Depths.{AreDepths, counted_depth, with_depth};
ghost use Rattle.lq_live.specs.Downtimes.{change_of, depth, downtime_line, line_if};
ghost use Rattle.lq_live.specs.Edits.{line_edits};
ghost use Rattle.lq_live.specs.Kept.{IsKept, state_of};
ghost use Rattle.lq_live.specs.Order.{due_lines, event_lines};
ghost use Rattle.lq_live.specs.State.{line_names, names_of};
ghost use Rattle.lq_live.specs.StepEdits.{Adds, advance_edits};

use crate::context::StepContext;
use crate::depths::Depths;
use crate::edit::Edit;
use crate::event::Event;
use crate::names::ObjectNames;
use lq_events::LogEntry;
use lq_log::{DowntimeChange, Form, make_line};
use lq_records::{Memory, Object, Text};
use std::alloc::Global;

/// A second at which an object's downtimes change, and how. A line says so where the number of
/// active ones leaves 0, or comes to it.
#[derive(Clone, Copy)]
pub(crate) struct DepthChange {
    pub(crate) second: u64,
    pub(crate) change: DowntimeChange,
    pub(crate) object: Object,
}

impl<'a> StepContext<'a> {
    /// Adds the lines of the starts and ends that are due.
    #[tactic(auto, unfolding(crate::specs::StepEdits::advance_edits))]
    pub(crate) fn push_due(self, edits: &mut Vec<Edit>) -> Result<(), Memory>
        requires { IsKept (state_of self.live.now) }
        ensures { OnOk result (Adds edits.old.items edits.new.items (advance_edits
            (arc_value self.entry.live.now.base) self.entry.second
            self.entry.live.now.downtimes.items)) }
    {
        let events = self.due()?;
        let mut depths = Depths::of(self.alloc, &self.live.base, &self.live.downtimes)?;
        for event in &events {
            let crosses = depths.take(event);
            self.push_event(edits, crosses, event)?;
        }
        Ok(())
    }

    fn push_event(self, edits: &mut Vec<Edit>, crosses: bool, event: &Event) -> Result<(), Memory>
        ensures { OnOk result (Adds edits.old.items edits.new.items (line_edits
            (line_if crosses event.now.moment (change_of event.now)
            (names_of (arc_value self.entry.live.now.base) event.now.object)))) }
    {
        let change = DepthChange {
            second: event.moment,
            change: event.change(),
            object: event.object,
        };
        self.push_change(edits, crosses, change)
    }

    /// Adds the line of a change, where it is to be written and the base holds the object.
    pub(crate) fn push_change(
        self,
        edits: &mut Vec<Edit>,
        written: bool,
        change: DepthChange,
    ) -> Result<(), Memory>
        ensures { OnOk result (Adds edits.old.items edits.new.items (line_edits
            (line_if written change.second change.change
            (names_of (arc_value self.entry.live.now.base) change.object)))) }
    {
        if !written {
            return Ok(());
        }
        let Some(name) = self.name_of(change.object) else {
            return Ok(());
        };
        edits.push(Edit::Line(downtime_line(self.alloc, change, name)?))?;
        Ok(())
    }
}

#[tactic(auto, unfolding(crate::specs::Downtimes::downtime_line))]
fn downtime_line(
    alloc: Global,
    change: DepthChange,
    name: ObjectNames<'_>,
) -> Result<LogEntry, Memory>
    ensures { IfOk result (λ entry. entry ≡ downtime_line change.second change.change
        (line_names name.entry.host.now name.entry.service.now)) }
{
    let form = Form::Downtime {
        host: name.host.clone()?,
        service: Text::new(alloc, name.service)?,
        change: change.change,
    };
    make_line(alloc, change.second, &form)
}
