ghost use Rattle.std.specs.Prelude.{◌≡◌, ◌++◌, OnOk, IfOk};
ghost use Rattle.std.specs.Arc.{arc_value};
ghost use Rattle.lq_log.specs.Written.{entry_of_form};
ghost use Rattle.lq_log.specs.declared.written.Form.TheVariants as form;
ghost use Rattle.lq_live.specs.Edits.{play_edits};
ghost use Rattle.lq_live.specs.Kept.{IsIndexed, IsKept, state_of};
ghost use Rattle.lq_live.specs.Step.{step};
ghost use Rattle.lq_live.specs.StepEdits.{Adds, advance_edits, edits_at, step_edits};

use crate::context::StepContext;
use crate::edit::Edit;
use crate::live_state::LiveState;
use lq_events::{LogEntry, Update};
use lq_log::{Form, TIME_LIMIT, make_line};
use lq_records::Memory;
use std::alloc::Global;

/// The edits of the step that an update makes: playing them takes the step.
#[tactic(auto, unfolding(crate::specs::StepEdits::step_edits))]
pub(crate) fn step_edits(
    alloc: Global,
    live: &LiveState,
    update: &Update,
) -> Result<Vec<Edit>, Memory>
    requires index { IsIndexed live.now }
    requires kept { IsKept (state_of live.now) }
    ensures edits { IfOk result
        (λ edits. edits.items ≡ step_edits (state_of live.now) update.now) }
    ensures plays { IfOk result (λ edits. play_edits edits.items (state_of live.now)
        ≡ step (state_of live.now) update.now) }
{
    let second = live.present.max(update.time.min(TIME_LIMIT - 1));
    let context = StepContext {
        alloc,
        live,
        second,
    };
    let edits = context.edits(update)?;
    Ok(edits)
}

impl<'a> StepContext<'a> {
    fn edits(self, update: &Update) -> Result<Vec<Edit>, Memory>
        requires index { IsIndexed self.live.now }
        requires kept { IsKept (state_of self.live.now) }
        ensures { IfOk result (λ edits. edits.items
            ≡ edits_at self.entry.second (state_of self.entry.live.now) update.now) }
    {
        let mut edits = Vec::new(self.alloc);
        edits.push(Edit::Now(self.second))?;
        self.advance(&mut edits)?;
        let line = self.command_line(update)?;
        edits.push(Edit::Line(line))?;
        self.push_effect(&mut edits, &update.act)?;
        Ok(edits)
    }

    /// Adds the edits of the downtimes that are due.
    fn advance(self, edits: &mut Vec<Edit>) -> Result<(), Memory>
        requires index { IsIndexed self.live.now }
        requires kept { IsKept (state_of self.live.now) }
        ensures { OnOk result (Adds edits.old.items edits.new.items
            (advance_edits (arc_value self.entry.live.now.base) self.entry.second
            self.entry.live.now.downtimes.items)) }
    {
        if self.second < self.live.next_moment {
            return Ok(());
        }
        self.push_due(edits)
    }

    /// The line of an external command.
    fn command_line(self, update: &Update) -> Result<LogEntry, Memory>
        ensures { IfOk result (λ entry. entry
            ≡ entry_of_form self.entry.second (form.External update.now.text)) }
    {
        let form = Form::External {
            text: update.text.clone()?,
        };
        make_line(self.alloc, self.second, &form)
    }
}
