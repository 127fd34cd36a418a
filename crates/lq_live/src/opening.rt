ghost use Rattle.std.specs.Prelude.{◌≡◌, IfOk, OnOk, map};
ghost use Rattle.std.specs.Arc.{arc_value};
ghost use Rattle.std.specs.Option.{option_copied};
ghost use Rattle.lq_live.specs.Kept.{state_of};
ghost use Rattle.lq_live.specs.LastTold.{AreTold};
ghost use Rattle.lq_live.specs.Opening.{status_told, with_log_line, with_lines};
ghost use Rattle.lq_live.specs.State.{all_pending, object_status, pending, with_status};
ghost use Rattle.lq_live.specs.Whole.{all_parted, with_parted_output, whole_told};

use crate::last_told::LastTold;
use crate::live_state::{LiveState, set_status};
use crate::outcome::{CheckAttempt, Outcome, StatusTexts, after_bar, before_bar};
use lq_events::{LogEntry, Status};
use lq_log::{LogBook, Told, object_of, told_by};
use lq_records::{Base, Host, Memory, Object, Service, Text};
use std::alloc::Global;
use std::sync::Arc;

impl LiveState {
    /// Each object of a base pending, without a log. The only error is out of memory.
    #[tactic(auto, using(crate::proofs::Parted::pending_parted))]
    pub(crate) fn pending(alloc: Global, base: Base) -> Result<Self, Memory>
        ensures state { IfOk result (λ live. state_of live ≡ all_pending base) }
        ensures parted { IfOk result (λ live. all_parted (state_of live) ≡ all_pending base) }
    {
        let told = LastTold::empty(alloc)?;
        let host_status = pending_hosts(alloc, base.hosts.as_slice())?;
        let service_status = pending_services(alloc, base.services.as_slice())?;
        let base = Arc::new(alloc, base)?;
        Ok(LiveState {
            base,
            host_status,
            service_status,
            downtimes: Vec::new(alloc),
            comments: Vec::new(alloc),
            log: LogBook::empty(alloc),
            present: 0,
            next_downtime: 1,
            next_comment: 1,
            notifications: true,
            next_moment: u64::MAX,
            told,
        })
    }

    /// Records the state and alert lines of a log, and what it last told. The only error is out of
    /// memory.
    pub(crate) fn record_lines(&mut self, alloc: Global, log: &[LogEntry]) -> Result<(), Memory>
        ensures state { OnOk result
            (state_of self.new ≡ with_lines log.now (all_parted (state_of self.old))) }
        ensures told { OnOk result (AreTold self.new.told (arc_value self.new.base) log.now) }
    {
        let mut told = LastTold::new(alloc, &self.base)?;
        for entry in log {
            self.record_line(entry)?;
            told.add_line(&self.base, entry);
        }
        self.told = told;
        // Outputs are parted last: most lines are followed by others about the same object.
        part_all(alloc, &mut self.host_status)?;
        part_all(alloc, &mut self.service_status)
    }

    /// Records a line, where it is a state or alert line about an object. Its output is kept whole.
    fn record_line(&mut self, entry: &LogEntry) -> Result<(), Memory>
        ensures state { OnOk result (all_parted (state_of self.new)
            ≡ with_log_line entry.now (all_parted (state_of self.old))) }
        ensures base { arc_value self.new.base ≡ arc_value self.old.base }
    {
        let Some(Told::State { hard }) = told_by(entry) else {
            return Ok(());
        };
        let Some(object) = object_of(&self.base, entry) else {
            return Ok(());
        };
        self.record_state(object, hard, entry)
    }

    /// Records the state that a line tells of an object.
    #[tactic(auto, using(crate::proofs::Parted::none_parted))]
    fn record_state(&mut self, object: Object, hard: bool, entry: &LogEntry) -> Result<(), Memory>
        ensures state { OnOk result (all_parted (state_of self.new)
            ≡ with_status (status_told entry.now hard) object (all_parted (state_of self.old))) }
        ensures base { arc_value self.new.base ≡ arc_value self.old.base }
    {
        let Some(old) = self.status_of(object) else {
            return Ok(());
        };
        let status = whole_told(entry, hard, old)?;
        self.set_status(object, status);
        Ok(())
    }

    /// The status of an object. None where the base doesn't hold it.
    pub(crate) fn status_of(&self, object: Object) -> Option<&Status>
        ensures { option_copied result ≡ object_status (state_of self.now) object }
    {
        match object {
            Object::Host(id) => self.host_status.get(id.0 as usize),
            Object::Service(id) => self.service_status.get(id.0 as usize),
        }
    }

    fn set_status(&mut self, object: Object, status: Status)
        ensures state { state_of self.new ≡ with_status (λ _. status) object (state_of self.old) }
        ensures base { arc_value self.new.base ≡ arc_value self.old.base }
    {
        match object {
            Object::Host(id) => set_status(&mut self.host_status, id.0 as usize, status),
            Object::Service(id) => set_status(&mut self.service_status, id.0 as usize, status),
        }
    }
}

/// The status after a state or alert line, with the whole output: it shares that with the line.
fn whole_told(entry: &LogEntry, hard: bool, old: &Status) -> Result<Status, Memory>
    ensures { IfOk result (λ status. status ≡ whole_told entry.now hard old.now) }
{
    let outcome = Outcome {
        second: entry.time,
        attempt: CheckAttempt {
            hard,
            number: entry.attempt,
        },
        state: entry.state,
        output: entry.output.as_str(),
    };
    let texts = StatusTexts {
        plugin_output: entry.output.clone()?,
        perf_data: Text::empty(),
    };
    Ok(outcome.status_with(old, texts))
}

/// Parts the outputs of statuses.
fn part_all(alloc: Global, statuses: &mut [Status]) -> Result<(), Memory>
    ensures { OnOk result (statuses.new ≡ map with_parted_output statuses.old) }
{
    for status in statuses.iter_mut() {
        part(alloc, status)?;
    }
    Ok(())
}

/// Parts the output of a status.
fn part(alloc: Global, status: &mut Status) -> Result<(), Memory>
    ensures { OnOk result (status.new ≡ with_parted_output status.old) }
{
    let whole = status.plugin_output.as_str();
    let plugin_output = status.plugin_output.with_end(alloc, before_bar(whole))?;
    let perf_data = status.plugin_output.with_end(alloc, after_bar(whole))?;
    status.plugin_output = plugin_output;
    status.perf_data = perf_data;
    Ok(())
}

/// The status of an object that was never checked.
fn pending(notifications: u8) -> Status
    ensures { result ≡ pending notifications }
{
    Status {
        state: 0,
        state_type: 1,
        has_been_checked: 0,
        current_attempt: 1,
        last_check: 0,
        last_state_change: 0,
        last_hard_state_change: 0,
        last_hard_state: 0,
        plugin_output: Text::empty(),
        perf_data: Text::empty(),
        acknowledged: 0,
        acknowledgement_type: 0,
        notifications_enabled: notifications,
    }
}

fn pending_hosts(alloc: Global, hosts: &[Host]) -> Result<Vec<Status>, Memory>
    ensures { IfOk result (λ list. list.items
        ≡ map (λ host. pending host.fields.notifications_enabled) hosts.now) }
{
    let mut list = Vec::with_capacity(alloc, hosts.len())?;
    for host in hosts {
        list.push(pending(host.fields.notifications_enabled))?;
    }
    Ok(list)
}

fn pending_services(alloc: Global, services: &[Service]) -> Result<Vec<Status>, Memory>
    ensures { IfOk result (λ list. list.items
        ≡ map (λ service. pending service.fields.notifications_enabled) services.now) }
{
    let mut list = Vec::with_capacity(alloc, services.len())?;
    for service in services {
        list.push(pending(service.fields.notifications_enabled))?;
    }
    Ok(list)
}
