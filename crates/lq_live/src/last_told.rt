//! What the log last told of flapping and of time periods, so that it isn't walked through again.

ghost use Rattle.std.specs.Prelude.{◌≡◌, ◌++◌, ◌∷◌, [], List, IfOk, map, slice_set};
ghost use Rattle.std.specs.Arc.{arc_value};
ghost use Rattle.std.specs.List.{range_with_len};
ghost use Rattle.lq_events.specs.declared.log_entry.LogEntry.{LogEntry};
ghost use Rattle.lq_records.specs.declared.base.Base.{Base};
ghost use Rattle.lq_log.specs.LastTold.{is_flapping, is_period_on};
ghost use Rattle.lq_live.specs.LastTold.{AreTold, hosts_with, periods_with, services_with};

use indexmap::IndexSet;
use lq_events::LogEntry;
use lq_log::{Told, is_flapping, is_period_on, object_of, period_of, told_by};
use lq_records::{Base, HostId, Memory, MonitoredObject, Object, ServiceId, Text};
use std::alloc::{AllocError, Global};
use std::sync::Arc;

/// For each host and each service whether it is flapping, and for names of time periods whether
/// these are on.
pub(crate) struct LastTold {
    hosts: Vec<bool>,
    services: Vec<bool>,
    /// Names in the base, of its time periods and at its objects. Shared with the copies.
    names: Arc<IndexSet<Text>, Global>,
    /// For each name, whether the period is on.
    periods: Vec<bool>,
}

// Written by hand: where one is dropped a proof then meets a call, and not each of the fields.
impl Drop for LastTold {
    fn drop(self) {
        let LastTold {
            hosts: _hosts,
            services: _services,
            names: _names,
            periods: _periods,
        } = self;
    }
}

impl LastTold {
    /// Marks of no object and no period. The only error is out of memory.
    pub(crate) fn empty(alloc: Global) -> Result<Self, Memory> {
        Ok(LastTold {
            hosts: Vec::new(alloc),
            services: Vec::new(alloc),
            names: Arc::new(alloc, IndexSet::new(alloc))?,
            periods: Vec::new(alloc),
        })
    }

    /// What is known without a log: nothing is flapping, and each period is on. The only error is
    /// out of memory.
    pub(crate) fn new(alloc: Global, base: &Base) -> Result<Self, Memory>
        ensures { IfOk result (λ told. AreTold told base.now []) }
    {
        let names = period_names(alloc, base)?;
        Ok(LastTold {
            hosts: marks(alloc, base.hosts.len(), false)?,
            services: marks(alloc, base.services.len(), false)?,
            periods: marks(alloc, names.len(), true)?,
            names: Arc::new(alloc, names)?,
        })
    }

    /// Takes in what one more line of a log tells.
    pub(crate) fn add_line(&mut self, base: &Base, entry: &LogEntry)
        ensures { (log : List LogEntry) → AreTold self.old base.now log
            → AreTold self.new base.now (log ++ entry.now ∷ []) }
    {
        match told_by(entry) {
            Some(Told::Flapping { on }) => self.set_flapping(object_of(base, entry), on),
            Some(Told::Period { on }) => self.set_period(period_of(entry), on),
            Some(Told::State { .. } | Told::Downtime { .. }) | None => {}
        }
    }

    fn set_flapping(&mut self, about: Option<Object>, on: bool)
        ensures hosts { self.new.hosts.items ≡ hosts_with about on self.old.hosts.items }
        ensures services { self.new.services.items
            ≡ services_with about on self.old.services.items }
        ensures names { self.new.names ≡ self.old.names }
        ensures periods { self.new.periods.items ≡ self.old.periods.items }
    {
        match about {
            Some(Object::Host(HostId(place))) => set_mark(&mut self.hosts, place as usize, on),
            Some(Object::Service(ServiceId(place))) => {
                set_mark(&mut self.services, place as usize, on);
            }
            None => {}
        }
    }

    fn set_period(&mut self, name: &str, on: bool)
        ensures hosts { self.new.hosts.items ≡ self.old.hosts.items }
        ensures services { self.new.services.items ≡ self.old.services.items }
        ensures names { self.new.names ≡ self.old.names }
        ensures periods { self.new.periods.items
            ≡ periods_with (arc_value self.old.names).keys name.now on self.old.periods.items }
    {
        if name.is_empty() {
            return;
        }
        if let Some(place) = self.names.get_index_of(name) {
            set_mark(&mut self.periods, place, on);
        }
    }

    /// Whether an object is flapping after a log.
    pub(crate) fn is_flapping(&self, base: &Base, log: &[LogEntry], about: Object) -> bool
        ensures { AreTold self.now base.now log.now
            → result ≡ is_flapping base.now log.now about }
    {
        let mark = match about {
            Object::Host(HostId(place)) => self.hosts.get(place as usize),
            Object::Service(ServiceId(place)) => self.services.get(place as usize),
        };
        match mark {
            Some(mark) => *mark,
            None => is_flapping(base, log, about),
        }
    }

    /// Whether the period with a name is on after a log.
    pub(crate) fn is_period_on(&self, log: &[LogEntry], name: &str) -> bool
        ensures { (base : Base) → AreTold self.now base log.now
            → result ≡ is_period_on log.now name.now }
    {
        let Some(place) = self.names.get_index_of(name) else {
            return is_period_on(log, name);
        };
        match self.periods.get(place) {
            Some(mark) => *mark,
            None => is_period_on(log, name),
        }
    }

    /// The same, in memory of its own but for the names. The only error is out of memory.
    pub(crate) fn copy(&self, alloc: Global) -> Result<Self, Memory>
        ensures { IfOk result (λ copy. (base : Base) (log : List LogEntry)
            → AreTold self.now base log → AreTold copy base log) }
    {
        Ok(LastTold {
            hosts: Vec::from_slice(alloc, &self.hosts)?,
            services: Vec::from_slice(alloc, &self.services)?,
            names: Arc::try_clone(&self.names)?,
            periods: Vec::from_slice(alloc, &self.periods)?,
        })
    }
}

/// The names of the time periods of a base, and of those that its objects name.
fn period_names(alloc: Global, base: &Base) -> Result<IndexSet<Text>, Memory> {
    let mut names = IndexSet::new(alloc);
    for period in base.periods.as_slice() {
        push_name(&mut names, &period.timeperiod_name)?;
    }
    push_names_at(&mut names, base.hosts.as_slice())?;
    push_names_at(&mut names, base.services.as_slice())?;
    Ok(names)
}

fn push_names_at<T: MonitoredObject>(
    names: &mut IndexSet<Text>,
    items: &[T],
) -> Result<(), Memory> {
    for item in items {
        push_name(names, &item.fields().notification_period)?;
    }
    Ok(())
}

/// Adds a name, unless it is there.
fn push_name(names: &mut IndexSet<Text>, name: &Text) -> Result<(), Memory> {
    if !names.contains(name) {
        let Ok(_) = names.insert(name.clone()?) else {
            return Err(AllocError);
        };
    }
    Ok(())
}

/// So many marks that are all the same.
fn marks(alloc: Global, count: usize, on: bool) -> Result<Vec<bool>, Memory>
    ensures { IfOk result (λ marks. marks.items ≡ map (λ _. on) (range_with_len 0 count)) }
{
    (0..count).map(|_| on).collect(alloc)
}

/// Sets the mark at a place, where there is one.
fn set_mark(marks: &mut [bool], place: usize, on: bool)
    ensures { marks.new ≡ slice_set marks.old place on }
{
    if place < marks.len() {
        marks[place] = on;
    }
}
