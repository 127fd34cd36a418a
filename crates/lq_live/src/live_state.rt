ghost use Rattle.std.specs.Prelude.{◌≡◌, ◌++◌, ◌∷◌, ◌≤◌, [], List, filter, not, map, IfOk, OnOk};
ghost use Rattle.lq_events.specs.declared.log_entry.LogEntry.{LogEntry};
ghost use Rattle.lq_records.specs.declared.base.Base.{Base};
ghost use Rattle.lq_live.specs.LastTold.{AreTold};
ghost use Rattle.lq_live.specs.Effects.{acknowledge_as};
ghost use Rattle.lq_live.specs.Kept.{state_of};
ghost use Rattle.lq_live.specs.State.{changed_at};

use crate::last_told::LastTold;
use lq_events::{Comment, Downtime, Status};
use lq_log::LogBook;
use lq_records::{Base, Memory};
use std::alloc::Global;
use std::sync::Arc;

/// The state that is kept, and what finds things in it sooner.
pub(crate) struct LiveState {
    /// Shared with its copies.
    pub(crate) base: Arc<Base, Global>,
    pub(crate) host_status: Vec<Status>,
    pub(crate) service_status: Vec<Status>,
    pub(crate) downtimes: Vec<Downtime>,
    pub(crate) comments: Vec<Comment>,
    pub(crate) log: LogBook,
    /// The present second.
    pub(crate) present: u64,
    pub(crate) next_downtime: u64,
    pub(crate) next_comment: u64,
    pub(crate) notifications: bool,
    /// No downtime begins or ends before this second.
    /// It may be too early, as once a downtime is removed: that costs a walk and changes nothing.
    pub(crate) next_moment: u64,
    /// What the log last told.
    pub(crate) told: LastTold,
}

// Written by hand: where one is dropped a proof then meets a call, and not each of the fields.
impl Drop for LiveState {
    fn drop(self) {
        let LiveState {
            base: _base,
            host_status: _host_status,
            service_status: _service_status,
            downtimes: _downtimes,
            comments: _comments,
            log: _log,
            present: _present,
            next_downtime: _next_downtime,
            next_comment: _next_comment,
            notifications: _notifications,
            next_moment: _next_moment,
            told: _told,
        } = self;
    }
}

impl LiveState {
    /// The same state in memory of its own, but for the objects and the texts, which are shared.
    pub(crate) fn copy(&self, alloc: Global) -> Result<Self, Memory>
        ensures state { IfOk result (λ copy. state_of copy ≡ state_of self.now) }
        ensures moment { IfOk result (λ copy. copy.next_moment ≡ self.now.next_moment) }
        ensures told { IfOk result (λ copy. (base : Base) (log : List LogEntry)
            → AreTold self.now.told base log → AreTold copy.told base log) }
    {
        Ok(LiveState {
            base: Arc::try_clone(&self.base)?,
            host_status: copy_of_statuses(alloc, &self.host_status)?,
            service_status: copy_of_statuses(alloc, &self.service_status)?,
            downtimes: copy_of_downtimes(alloc, &self.downtimes)?,
            comments: copy_of_comments(alloc, &self.comments)?,
            log: self.log.copy(alloc)?,
            present: self.present,
            next_downtime: self.next_downtime,
            next_comment: self.next_comment,
            notifications: self.notifications,
            next_moment: self.next_moment,
            told: self.told.copy(alloc)?,
        })
    }
}

fn copy_of_statuses(alloc: Global, statuses: &[Status]) -> Result<Vec<Status>, Memory>
    ensures { IfOk result (λ copy. copy.items ≡ statuses.now) }
{
    statuses.to_vec(alloc)
}

fn copy_of_downtimes(alloc: Global, downtimes: &[Downtime]) -> Result<Vec<Downtime>, Memory>
    ensures { IfOk result (λ copy. copy.items ≡ downtimes.now) }
{
    downtimes.to_vec(alloc)
}

fn copy_of_comments(alloc: Global, comments: &[Comment]) -> Result<Vec<Comment>, Memory>
    ensures { IfOk result (λ copy. copy.items ≡ comments.now) }
{
    comments.to_vec(alloc)
}

/// Replaces the status at a place, where there is one.
pub(crate) fn set_status(list: &mut [Status], place: usize, status: Status)
    ensures { list.new ≡ changed_at (λ _. status) place list.old }
{
    if place < list.len() {
        list[place] = status;
    }
}

/// Acknowledges at a place: 0 not at all, 1 normally, 2 sticky.
pub(crate) fn set_acknowledgement(list: &mut [Status], place: usize, kind: u8)
    ensures { list.new ≡ changed_at (acknowledge_as kind) place list.old }
{
    if place < list.len() {
        let status = &mut list[place];
        status.acknowledged = u8::from(kind != 0);
        status.acknowledgement_type = kind;
    }
}

/// Lets people be notified at a place, or not.
pub(crate) fn set_notifications(list: &mut [Status], place: usize, on: u8)
    ensures { list.new
        ≡ changed_at (λ status. record status { notifications_enabled = on }) place list.old }
{
    if place < list.len() {
        let status = &mut list[place];
        status.notifications_enabled = on;
    }
}
