ghost use Rattle.std.specs.Prelude.{◌≡◌, ◌++◌, ◌∷◌, [], true, OnOk};
ghost use Rattle.lq_live.specs.Kept.{state_at};
ghost use Rattle.lq_live.specs.StepEdits.{Adds, effect_in, is_of_switches, notify_edits};

use crate::context::StepContext;
use crate::edit::Edit;
use lq_events::Act;
use lq_records::{Memory, Object};

impl<'a> StepContext<'a> {
    /// Adds the edits of a command.
    pub(crate) fn push_effect(self, edits: &mut Vec<Edit>, act: &Act) -> Result<(), Memory>
        ensures { OnOk result (Adds edits.old.items edits.new.items
            (effect_in self.entry.second self.entry.live.now act.now)) }
    {
        match act {
            Act::ProcessHostCheckResult { .. } | Act::ProcessServiceCheckResult { .. } => {
                self.push_checks(edits, act)
            }
            Act::AddHostComment { .. }
            | Act::AddSvcComment { .. }
            | Act::DelHostComment { .. }
            | Act::DelSvcComment { .. } => self.push_comments(edits, act),
            Act::AcknowledgeHostProblem { .. }
            | Act::AcknowledgeSvcProblem { .. }
            | Act::RemoveHostAcknowledgement { .. }
            | Act::RemoveSvcAcknowledgement { .. } => self.push_acknowledgements(edits, act),
            Act::ScheduleHostDowntime { .. } | Act::DelHostDowntime { .. } => {
                self.push_host_downtimes(edits, act)
            }
            Act::ScheduleSvcDowntime { .. } | Act::DelSvcDowntime { .. } => {
                self.push_service_downtimes(edits, act)
            }
            Act::EnableHostNotifications { .. }
            | Act::DisableHostNotifications { .. }
            | Act::EnableSvcNotifications { .. }
            | Act::DisableSvcNotifications { .. }
            | Act::EnableNotifications
            | Act::DisableNotifications => self.push_notifications(edits, act),
            Act::Unknown => Ok(()),
        }
    }

    /// Adds the edits of a command that switches notifications on or off.
    fn push_notifications(self, edits: &mut Vec<Edit>, act: &Act) -> Result<(), Memory>
        requires { is_of_switches act.now ≡ true }
        ensures { OnOk result (Adds edits.old.items edits.new.items
            (effect_in self.entry.second self.entry.live.now act.now)) }
    {
        match act {
            Act::EnableHostNotifications { host } => {
                self.set_notifications(edits, Object::Host(*host), 1)
            }
            Act::DisableHostNotifications { host } => {
                self.set_notifications(edits, Object::Host(*host), 0)
            }
            Act::EnableSvcNotifications { service } => {
                self.set_notifications(edits, Object::Service(*service), 1)
            }
            Act::DisableSvcNotifications { service } => {
                self.set_notifications(edits, Object::Service(*service), 0)
            }
            Act::EnableNotifications => push(edits, Edit::NotifyAtAll(true)),
            Act::DisableNotifications => push(edits, Edit::NotifyAtAll(false)),
            _ => Ok(()),
        }
    }

    fn set_notifications(self, edits: &mut Vec<Edit>, object: Object, on: u8) -> Result<(), Memory>
        ensures { OnOk result (Adds edits.old.items edits.new.items
            (notify_edits object on (state_at self.entry.second self.entry.live.now))) }
    {
        if !self.holds_object(object) {
            return Ok(());
        }
        push(edits, Edit::SetNotifications(object, on))
    }
}

pub(crate) fn push(edits: &mut Vec<Edit>, edit: Edit) -> Result<(), Memory>
    ensures { OnOk result (Adds edits.old.items edits.new.items (edit ∷ [])) }
{
    edits.push(edit)?;
    Ok(())
}
