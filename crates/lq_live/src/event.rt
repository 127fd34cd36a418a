ghost use Rattle.std.specs.Prelude.{◌≡◌, ◌++◌, ◌&&◌, nat_le, not, flat_map, IfOk, OnOk, IsSorted};
ghost use Rattle.std.specs.List.Sorted.{IsPermutation};
ghost use Rattle.lq_live.specs.Downtimes.{due, end_of, event_order, moments, only_if, start_of};
ghost use Rattle.lq_live.specs.Downtimes.{change_of};
ghost use Rattle.lq_live.specs.Kept.{IsKept, state_of};

use crate::context::StepContext;
use lq_events::Downtime;
use lq_log::DowntimeChange;
use lq_records::{Memory, Object};
use std::alloc::Global;
use std::marker::Model;

/// A moment at which a downtime begins or ends.
#[derive(Clone, Copy)]
pub(crate) struct Event {
    pub(crate) moment: u64,
    /// Whether the downtime begins.
    pub(crate) starts: bool,
    /// The downtime's id.
    pub(crate) id: u64,
    /// What the downtime is about.
    pub(crate) object: Object,
}

impl Model for Event {
    ghost use Rattle.lq_live.specs.Downtimes.{Event};

    ghost Value = { Event };

    ghost view = { λ event. record {
      moment = event.moment;
      starts = event.starts;
      id = event.id;
      object = event.object;
    } };

    ghost inverse = { λ event. record {
      moment = event.moment;
      starts = event.starts;
      id = event.id;
      object = event.object;
    } };
}

/// What events are sorted by: the moment, ends before starts, then the id.
#[derive(Clone, Copy, PartialEq, Eq, PartialOrd, Ord)]
pub(crate) struct EventOrder {
    moment: u64,
    starts: bool,
    id: u64,
}

impl Event {
    fn start_of(downtime: &Downtime) -> Self
        ensures { result ≡ start_of downtime.now }
    {
        Event {
            moment: downtime.start,
            starts: true,
            id: downtime.id,
            object: downtime.object,
        }
    }

    fn end_of(downtime: &Downtime) -> Self
        ensures { result ≡ end_of downtime.now }
    {
        Event {
            moment: downtime.end,
            starts: false,
            id: downtime.id,
            object: downtime.object,
        }
    }

    fn order(&self) -> EventOrder
        ensures { result
            ≡ record { moment = self.now.moment; starts = self.now.starts; id = self.now.id } }
    {
        EventOrder {
            moment: self.moment,
            starts: self.starts,
            id: self.id,
        }
    }

    /// What happens to its downtime.
    pub(crate) fn change(&self) -> DowntimeChange
        ensures { result ≡ change_of self.now }
    {
        if self.starts {
            DowntimeChange::Started
        } else {
            DowntimeChange::Stopped
        }
    }
}

impl<'a> StepContext<'a> {
    /// The starts and ends that are due at the second, in their order.
    pub(crate) fn due(self) -> Result<Vec<Event>, Memory>
        requires { IsKept (state_of self.live.now) }
        ensures { IfOk result (λ events. events.items
            ≡ due self.entry.second self.entry.live.now.downtimes.items) }
    {
        let mut events = all_moments(self.alloc, self.second, &self.live.downtimes)?;
        sort(&mut events);
        Ok(events)
    }
}

fn sort(events: &mut Vec<Event>)
    ensures each { IsPermutation events.old.items events.new.items }
    ensures order { IsSorted event_order events.new.items }
{
    events.sort_unstable_by_key(|event| event.order());
}

fn all_moments(alloc: Global, second: u64, downtimes: &[Downtime]) -> Result<Vec<Event>, Memory>
    ensures { IfOk result (λ events. events.items ≡ flat_map (moments second) downtimes.now) }
{
    let mut events = Vec::new(alloc);
    for downtime in downtimes {
        push_moments(&mut events, second, downtime)?;
    }
    Ok(events)
}

fn push_moments(events: &mut Vec<Event>, second: u64, downtime: &Downtime) -> Result<(), Memory>
    ensures { OnOk result (events.new.items ≡ events.old.items ++ moments second downtime.now) }
{
    push_start(events, second, downtime)?;
    push_end(events, second, downtime)
}

fn push_start(events: &mut Vec<Event>, second: u64, downtime: &Downtime) -> Result<(), Memory>
    ensures { OnOk result (events.new.items ≡ events.old.items ++ only_if
        (not downtime.now.active && nat_le downtime.now.start second) (start_of downtime.now)) }
{
    if downtime.active || downtime.start > second {
        return Ok(());
    }
    events.push(Event::start_of(downtime))?;
    Ok(())
}

fn push_end(events: &mut Vec<Event>, second: u64, downtime: &Downtime) -> Result<(), Memory>
    ensures { OnOk result (events.new.items ≡ events.old.items
        ++ only_if (nat_le downtime.now.end second) (end_of downtime.now)) }
{
    if downtime.end > second {
        return Ok(());
    }
    events.push(Event::end_of(downtime))?;
    Ok(())
}
