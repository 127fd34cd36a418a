ghost use Rattle.std.specs.Prelude.{All, ◌≡◌, [], Some, ◌+◌, ◌<◌, ◌≤◌, IfOk, OnOk, OnErr, length};
ghost use Rattle.std.specs.List.{slice_get};
ghost use Rattle.std.specs.Option.{option_copied};
ghost use Rattle.lq_live.specs.Ids.{IdsRise, comment_id, downtime_id};
ghost use Rattle.lq_live.specs.Kept.{IsIndexed, state_of};
ghost use Rattle.lq_live.specs.Opening.{opening_state};
ghost use Rattle.lq_live.specs.State.{Counted};
ghost use Rattle.lq_log.specs.Book.{last_time};
ghost use Rattle.lq_log.specs.LastTold.{is_flapping, is_period_on};
ghost use Rattle.lq_records.specs.Sound.{IsSound};
ghost use Rattle.lq_live.specs.Always.{IsCurrent, IsFront};
ghost use Rattle.lq_live.specs.Downtimes.{IsDue, due};
ghost use Rattle.lq_live.specs.Step.{second_after, step};

use crate::edit::{play, reserve};
use crate::live_state::LiveState;
use crate::step::step_edits;
use lq_events::{Comment, Downtime, Status, Update};
use lq_log::LogBook;
use lq_records::{Base, HostId, Memory, Object, ServiceId};
use std::alloc::Global;
use std::marker::Model;

/// The state of the objects of a base, and how many updates led to it. Seconds are counted from
/// the beginning of 1970.
pub struct Live {
    alloc: Global,
    state: LiveState,
    count: u64,
}

// Written by hand: where one is dropped a proof then meets a call, and not each of the fields.
impl Drop for Live {
    fn drop(self) {
        let Live {
            alloc: _alloc,
            state: _state,
            count: _count,
        } = self;
    }
}

impl Model for Live {
    ghost use Rattle.lq_live.specs.State.{Counted};
    ghost use Rattle.lq_live.specs.Kept.{KeepsAll, state_of};

    ghost Value = { Counted };

    ghost view = { λ live. record { state = state_of live.state; count = live.count } };

    ghost invariant = { λ live. KeepsAll live.state live.count };
}

impl Live {
    /// The opening state of a sound base and its log. Each object is pending, and then each line of
    /// the log that tells a state of an object is recorded with its second. There are no downtimes
    /// and comments, people are notified, and the present second is that of the last line, 0
    /// without one. The only error is out of memory.
    pub fn open(alloc: Global, base: Base, log: LogBook) -> Result<Self, Memory>
        requires { IsSound base }
        ensures { IfOk result
            (λ live. live ≡ record { state = opening_state base log.entries; count = 0 }) }
    {
        let mut state = LiveState::pending(alloc, base)?;
        state.record_lines(alloc, log.entries())?;
        state.present = log.last_time();
        state.log = log;
        Ok(Live {
            alloc,
            state,
            count: 0,
        })
    }

    /// The same state after as many updates. It goes its own way from then on: what either of the
    /// two takes leaves the other as it is. The objects and all texts are shared, so that a copy
    /// takes memory for the rest alone. The only error is out of memory.
    #[tactic(auto, using(crate::proofs::Copied::copy_keeps))]
    pub fn copy(&self) -> Result<Self, Memory>
        ensures { IfOk result (λ copy. copy ≡ self.now) }
    {
        Ok(Live {
            alloc: self.alloc,
            state: self.state.copy(self.alloc)?,
            count: self.count,
        })
    }

    /// Takes the step of an update: the present second moves on to the update's, the downtimes that
    /// are due begin or end, the line of the external command is added to the log, and the command
    /// takes effect. The only error is out of memory, and all is then as it was.
    pub fn apply(&mut self, u: &Update) -> Result<(), Memory>
        ensures ok { OnOk result (self.new
            ≡ record { state = step self.old.state u.now; count = self.old.count + 1 }) }
        ensures due { IsDue (second_after self.old.state u.now) self.old.state.downtimes
            (due (second_after self.old.state u.now) self.old.state.downtimes) }
        ensures second { self.old.state.now ≤ self.new.state.now }
        ensures front { IsFront self.old.state.log self.new.state.log }
        ensures err { OnErr result (self.new ≡ self.old) }
    {
        // All edits are made first, which takes memory and changes nothing, and then played, which
        // takes none: so after out of memory nothing has to be undone.
        let edits = step_edits(self.alloc, &self.state, u)?;
        reserve(&mut self.state, edits.len())?;
        play(&mut self.state, edits);
        self.count += 1;
        Ok(())
    }

    /// How many updates led to the state.
    pub fn count(&self) -> u64
        ensures { result ≡ self.now.count }
    {
        self.count
    }

    /// The present second: the greatest one of an update so far, below `lq_log::TIME_LIMIT`.
    pub fn now(&self) -> u64
        ensures { result ≡ self.now.state.now }
    {
        self.state.present
    }

    /// The objects.
    pub fn base(&self) -> &Base
        ensures all { result.now ≡ self.now.state.base }
        ensures sound { IsSound result.now }
    {
        &self.state.base
    }

    /// The log of all steps. Its last line is no later than the present second.
    pub fn log(&self) -> &LogBook
        ensures all { result.now.entries ≡ self.now.state.log }
        ensures last { last_time self.now.state.log ≤ self.now.state.now }
    {
        &self.state.log
    }

    /// The status of a host.
    pub fn host_status(&self, id: HostId) -> &Status
        requires { id.0 < length self.now.state.base.hosts }
        ensures { slice_get self.now.state.host_status id.0 ≡ Some result.now }
    {
        &self.state.host_status[id.0 as usize]
    }

    /// The status of a service.
    pub fn service_status(&self, id: ServiceId) -> &Status
        requires { id.0 < length self.now.state.base.services }
        ensures { slice_get self.now.state.service_status id.0 ≡ Some result.now }
    {
        &self.state.service_status[id.0 as usize]
    }

    /// The statuses of the hosts, in the order of the base.
    pub fn host_statuses(&self) -> &[Status]
        ensures all { result.now ≡ self.now.state.host_status }
        ensures count { length result.now ≡ length self.now.state.base.hosts }
    {
        &self.state.host_status
    }

    /// The statuses of the services, in the order of the base.
    pub fn service_statuses(&self) -> &[Status]
        ensures all { result.now ≡ self.now.state.service_status }
        ensures count { length result.now ≡ length self.now.state.base.services }
    {
        &self.state.service_status
    }

    /// Whether an object is flapping: whether the last line of the log that tells of it says so.
    pub fn is_flapping(&self, about: Object) -> bool
        ensures { result ≡ is_flapping self.now.state.base self.now.state.log about }
    {
        let log = self.state.log.entries();
        self.state.told.is_flapping(&self.state.base, log, about)
    }

    /// Whether the time period with a name is on: whether the last line of the log that tells of it
    /// says so. It is on before the first one, and where the name is empty.
    pub fn is_period_on(&self, name: &str) -> bool
        ensures { result ≡ is_period_on self.now.state.log name.now }
    {
        let log = self.state.log.entries();
        self.state.told.is_period_on(log, name)
    }

    /// Whether people are notified at all.
    pub fn notifications(&self) -> bool
        ensures { result ≡ self.now.state.notifications }
    {
        self.state.notifications
    }

    /// The downtimes, in order of their ids. No two have the same. Each begins before it ends, ends
    /// later than the present second, and is active exactly where it has begun.
    pub fn downtimes(&self) -> &[Downtime]
        ensures all { result.now ≡ self.now.state.downtimes }
        ensures ids { IdsRise downtime_id 0 self.now.state.next_downtime result.now }
        ensures current { All (IsCurrent self.now.state.now) result.now }
    {
        &self.state.downtimes
    }

    /// The comments, in order of their ids. No two have the same.
    pub fn comments(&self) -> &[Comment]
        ensures all { result.now ≡ self.now.state.comments }
        ensures ids { IdsRise comment_id 0 self.now.state.next_comment result.now }
    {
        &self.state.comments
    }
}
