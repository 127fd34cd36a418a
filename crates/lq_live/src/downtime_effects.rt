ghost use Rattle.std.specs.Prelude.{◌≡◌, ◌++◌, ◌&&◌, filter, not, true, IfOk, OnOk};
ghost use Rattle.std.specs.List.{find};
ghost use Rattle.std.specs.Option.{option_copied, option_map};
ghost use Rattle.lq_live.specs.Downtimes.{depth};
ghost use Rattle.lq_live.specs.Edits.{begun_by, ends_after, downtimes_at};
ghost use Rattle.lq_live.specs.Effects.{downtime_of, has_id_and_kind, is_taken};
ghost use Rattle.lq_live.specs.Kept.{state_at};
ghost use Rattle.lq_live.specs.StepEdits.{Adds, effect_in, is_of_host_downtimes};
ghost use Rattle.lq_live.specs.StepEdits.{is_of_service_downtimes, remove_downtime_edits};
ghost use Rattle.lq_live.specs.StepEdits.{request_of, schedule_edits};

use crate::comments::has_id_and_kind;
use crate::context::StepContext;
use crate::depths::crosses;
use crate::downtimes::{Removal, count_at, count_without};
use crate::due::DepthChange;
use crate::edit::Edit;
use crate::effect::push;
use lq_events::{Act, Downtime};
use lq_log::{DowntimeChange, TIME_LIMIT};
use lq_records::{Memory, Object, ObjectKind, Text};

/// A downtime as a command asks for it, in seconds. It is fixed where the number is 1, and has no
/// trigger where its id is 0.
#[derive(Clone, Copy)]
pub(crate) struct DowntimeRequest<'a> {
    object: Object,
    start: u64,
    end: u64,
    fixed: u64,
    trigger_id: u64,
    duration: u64,
    author: &'a str,
    text: &'a str,
}

impl<'a> DowntimeRequest<'a> {
    /// Whether it is fixed, has no trigger, begins before it ends, isn't over, and its end can be
    /// written.
    fn is_taken(self, now: u64) -> bool
        ensures { result ≡ is_taken now (request_of self.entry) }
    {
        self.fixed == 1
            && self.trigger_id == 0
            && self.start < self.end
            && now < self.end
            && self.end < TIME_LIMIT
    }
}

impl<'a> StepContext<'a> {
    /// Adds the edits of a command on the downtimes of hosts.
    pub(crate) fn push_host_downtimes(self, edits: &mut Vec<Edit>, act: &Act) -> Result<(), Memory>
        requires { is_of_host_downtimes act.now ≡ true }
        ensures { OnOk result (Adds edits.old.items edits.new.items
            (effect_in self.entry.second self.entry.live.now act.now)) }
    {
        match act {
            Act::ScheduleHostDowntime {
                host,
                start,
                end,
                fixed,
                trigger_id,
                duration,
                author,
                text,
            } => {
                let request = DowntimeRequest {
                    object: Object::Host(*host),
                    start: *start,
                    end: *end,
                    fixed: *fixed,
                    trigger_id: *trigger_id,
                    duration: *duration,
                    author: author.as_str(),
                    text: text.as_str(),
                };
                self.schedule(edits, request)
            }
            Act::DelHostDowntime { id } => self.remove_downtime(edits, ObjectKind::Host, *id),
            _ => Ok(()),
        }
    }

    /// Adds the edits of a command on the downtimes of services.
    pub(crate) fn push_service_downtimes(
        self,
        edits: &mut Vec<Edit>,
        act: &Act,
    ) -> Result<(), Memory>
        requires { is_of_service_downtimes act.now ≡ true }
        ensures { OnOk result (Adds edits.old.items edits.new.items
            (effect_in self.entry.second self.entry.live.now act.now)) }
    {
        match act {
            Act::ScheduleSvcDowntime {
                service,
                start,
                end,
                fixed,
                trigger_id,
                duration,
                author,
                text,
            } => {
                let request = DowntimeRequest {
                    object: Object::Service(*service),
                    start: *start,
                    end: *end,
                    fixed: *fixed,
                    trigger_id: *trigger_id,
                    duration: *duration,
                    author: author.as_str(),
                    text: text.as_str(),
                };
                self.schedule(edits, request)
            }
            Act::DelSvcDowntime { id } => self.remove_downtime(edits, ObjectKind::Service, *id),
            _ => Ok(()),
        }
    }

    fn schedule(self, edits: &mut Vec<Edit>, request: DowntimeRequest<'_>) -> Result<(), Memory>
        ensures { OnOk result (Adds edits.old.items edits.new.items (schedule_edits
            (request_of request.entry) (state_at self.entry.second self.entry.live.now))) }
    {
        if !(self.holds_object(request.object) && request.is_taken(self.second)) {
            return Ok(());
        }
        let downtime = self.downtime_of(request)?;
        self.push_change(
            edits,
            downtime.active && self.depth(request.object) == 0,
            self.now(DowntimeChange::Started, request.object),
        )?;
        push(edits, Edit::AddDowntime(downtime))
    }

    fn downtime_of(self, request: DowntimeRequest<'_>) -> Result<Downtime, Memory>
        ensures { IfOk result (λ downtime. downtime ≡ downtime_of (request_of request.entry)
            (state_at self.entry.second self.entry.live.now)) }
    {
        let author = Text::new(self.alloc, request.author)?;
        let comment = Text::new(self.alloc, request.text)?;
        Ok(Downtime {
            id: self.live.next_downtime,
            object: request.object,
            author,
            comment,
            entry_time: self.second,
            start: request.start,
            end: request.end,
            active: request.start <= self.second,
            duration: request.duration,
        })
    }

    /// A change of an object's downtimes at the second of the step.
    fn now(self, change: DowntimeChange, object: Object) -> DepthChange
        ensures second { result.second ≡ self.entry.second }
        ensures change { result.change ≡ change }
        ensures object { result.object ≡ object }
    {
        DepthChange {
            second: self.second,
            change,
            object,
        }
    }

    fn remove_downtime(self, edits: &mut Vec<Edit>, kind: ObjectKind, id: u64) -> Result<(), Memory>
        ensures { OnOk result (Adds edits.old.items edits.new.items (remove_downtime_edits
            kind id (state_at self.entry.second self.entry.live.now))) }
    {
        let Some(found) = self.find(kind, id) else {
            return Ok(());
        };
        let before = self.depth(found.object);
        let later = self.depth_without(Removal {
            kind,
            id,
            object: found.object,
        });
        self.push_change(
            edits,
            crosses(before, later),
            self.now(DowntimeChange::Cancelled, found.object),
        )?;
        push(edits, Edit::RemoveDowntime { kind, id })
    }

    /// The downtime that has an id, of an object of a kind, where it hasn't ended at the second.
    fn find(self, kind: ObjectKind, id: u64) -> Option<&'a Downtime>
        ensures { option_map (begun_by self.entry.second) (option_copied result)
            ≡ find (λ downtime. has_id_and_kind kind id downtime.id downtime.object)
            (downtimes_at self.entry.second self.entry.live.now.downtimes.items) }
    {
        find(&self.live.downtimes, self.second, kind, id)
    }

    /// The number of an object's downtimes that are active at the second.
    fn depth(self, object: Object) -> usize
        ensures { result ≡ depth object
            (downtimes_at self.entry.second self.entry.live.now.downtimes.items) }
    {
        count_at(&self.live.downtimes, self.second, object)
    }

    /// The same without the downtime that is removed.
    fn depth_without(self, removal: Removal) -> usize
        ensures { result ≡ depth removal.object (filter
            (λ downtime. not (has_id_and_kind removal.kind removal.id downtime.id downtime.object))
            (downtimes_at self.entry.second self.entry.live.now.downtimes.items)) }
    {
        count_without(&self.live.downtimes, self.second, removal)
    }
}

fn find(downtimes: &[Downtime], second: u64, kind: ObjectKind, id: u64) -> Option<&Downtime>
    ensures { option_copied result ≡ find
        (λ downtime. ends_after second downtime
        && has_id_and_kind kind id downtime.id downtime.object)
        downtimes.now }
{
    downtimes.iter().find(|downtime| {
        second < downtime.end && has_id_and_kind(kind, id, downtime.id, downtime.object)
    })
}
