ghost use Rattle.std.specs.Prelude.{◌≡◌, ◌+◌, ◌<◌, ◌≤◌, ◌^◌, IfOk, IfSome, if◌then◌else◌, true};
ghost use Rattle.std.specs.List.{slice_get};
ghost use Rattle.lq_live.specs.Depths.{AreDepths, counted_depth, changed_depth, with_depth};
ghost use Rattle.lq_live.specs.Downtimes.{crosses};
ghost use Rattle.lq_live.specs.State.{changed_at};

use crate::event::Event;
use lq_events::Downtime;
use lq_records::{Base, Memory, Object};
use std::alloc::Global;
use std::marker::Model;

/// How many downtimes of each object are active. It is counted once in a step, so that a downtime
/// that begins or ends doesn't count those of its object anew.
#[derive(Drop)]
pub(crate) struct Depths {
    hosts: Vec<usize>,
    services: Vec<usize>,
}

impl Model for Depths {
    ghost use Rattle.lq_live.specs.Depths.{Depths};

    ghost Value = { Depths };

    ghost view = { λ depths. record {
      hosts = depths.hosts.items;
      services = depths.services.items;
    } };
}

impl Depths {
    /// The numbers of a base's objects, by all downtimes. The only error is running out of memory.
    pub(crate) fn of(alloc: Global, base: &Base, downtimes: &[Downtime]) -> Result<Self, Memory>
        ensures { IfOk result (AreDepths base.now downtimes.now) }
    {
        let mut depths = Depths {
            hosts: vec![in alloc; 0; base.hosts.len()]?,
            services: vec![in alloc; 0; base.services.len()]?,
        };
        for downtime in downtimes {
            depths.count(downtime);
        }
        Ok(depths)
    }

    /// Counts a downtime, where it is active.
    fn count(&mut self, downtime: &Downtime)
        requires { IfSome (counted_depth self.old downtime.now.object) (λ n. n + 1 < 2 ^ 64) }
        ensures { self.new ≡ if downtime.now.active
            then with_depth true downtime.now.object self.old else self.old }
    {
        if downtime.active {
            self.change(true, downtime.object);
        }
    }

    /// Takes what an event does to the number of its object. Whether that leaves 0, or comes to it.
    pub(crate) fn take(&mut self, event: &Event) -> bool
        requires { IfSome (counted_depth self.old event.now.object) (λ n. n + 1 < 2 ^ 64) }
        ensures changed { self.new ≡ with_depth event.now.starts event.now.object self.old }
        ensures crosses { IfSome (counted_depth self.old event.now.object)
            (λ n. result ≡ crosses n (changed_depth event.now.starts n)) }
    {
        self.change(event.starts, event.object)
    }

    /// Takes the begin of a downtime of an object, or its end. Whether the number of active ones
    /// leaves 0, or comes to it. Nothing changes where the base doesn't hold the object.
    fn change(&mut self, begins: bool, object: Object) -> bool
        requires { IfSome (counted_depth self.old object) (λ n. n + 1 < 2 ^ 64) }
        ensures changed { self.new ≡ with_depth begins object self.old }
        ensures crosses { IfSome (counted_depth self.old object)
            (λ n. result ≡ crosses n (changed_depth begins n)) }
    {
        match object {
            Object::Host(id) => change_at(&mut self.hosts, begins, id.0 as usize),
            Object::Service(id) => change_at(&mut self.services, begins, id.0 as usize),
        }
    }
}

fn change_at(numbers: &mut [usize], begins: bool, place: usize) -> bool
    requires { IfSome (slice_get numbers.old place) (λ n. n + 1 < 2 ^ 64) }
    ensures changed { numbers.new ≡ changed_at (changed_depth begins) place numbers.old }
    ensures crosses { IfSome (slice_get numbers.old place)
        (λ n. result ≡ crosses n (changed_depth begins n)) }
{
    if place >= numbers.len() {
        return false;
    }
    let before = numbers[place];
    let later = changed_depth(begins, before);
    numbers[place] = later;
    crosses(before, later)
}

fn changed_depth(begins: bool, number: usize) -> usize
    requires { number + 1 < 2 ^ 64 }
    ensures { result ≡ changed_depth begins number }
{
    if begins {
        number + 1
    } else {
        number.saturating_sub(1)
    }
}

/// Whether a number of active downtimes leaves 0, or comes to it.
pub(crate) fn crosses(before: usize, later: usize) -> bool
    ensures { result ≡ crosses before later }
{
    (before == 0 && later > 0) || (before > 0 && later == 0)
}
