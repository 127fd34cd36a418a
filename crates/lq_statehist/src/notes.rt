ghost use Rattle.std.specs.Prelude.{◌≡◌, ◌≤◌, ◌+◌, ◌++◌, ◌∷◌, [], ℕ, List, IfOk, IfSome, IsSomeAnd};
ghost use Rattle.std.specs.Prelude.{OnOk, option_to_list, length, map};
ghost use Rattle.std.specs.List.{slice_get};
ghost use Rattle.lq_log.specs.Book.{InOrder};
ghost use Rattle.lq_statehist.specs.Notes.{Note, lines_below, note_at, notes_of};
ghost use Rattle.lq_statehist.specs.Pass.{note_of, subject_of_lines};
ghost use Rattle.lq_statehist.specs.Sorted.{AreNear, AreSorted, below, host_about, merged_notes};
ghost use Rattle.lq_statehist.specs.Sorted.{with_note};

use crate::line::Line;
use crate::subject::Subject;
use lq_events::LogEntry;
use lq_log::LogBook;
use lq_records::{Base, HostId, Memory, Object};
use lq_steps::Steps;
use std::alloc::Global;
use std::sync::ledger::Ledger;

/// What the lines of a log say of history, by the hosts that they are about.
#[derive(Drop)]
pub(crate) struct Notes<'a> {
    alloc: Global,
    /// For each host what is said of it and of its services, in the order of the log.
    hosts: Vec<Vec<Line<'a>>>,
    /// What is said of time periods, in the order of the log.
    periods: Vec<Line<'a>>,
}

impl<'a> Notes<'a> {
    /// What the lines before a second say. Each of these lines is read once, and one more. The only
    /// error is out of memory.
    pub(crate) fn before<G: Ledger>(
        alloc: Global,
        base: &Base,
        log: &'a LogBook,
        until: u64,
        steps: &mut Steps<G>,
    ) -> Result<Notes<'a>, Memory>
        ensures sorted { IfOk result (λ notes.
            AreSorted notes base.now (below until (notes_of base.now log.now.entries))) }
        ensures order { IfOk result (λ notes. InOrder log.now.entries) }
        ensures cost { steps.new ≤ steps.old + lines_below until log.now.entries + 1 }
    {
        let mut notes = Notes::none(alloc, base.hosts.len())?;
        for place in 0..log.len() {
            let entry = log.line(place, steps);
            if entry.time >= until {
                break;
            }
            notes.add_line(base, place as u64, entry)?;
        }
        Ok(notes)
    }

    /// No lines, for so many hosts.
    fn none(alloc: Global, hosts: usize) -> Result<Notes<'a>, Memory>
        ensures { (base : Base) → length base.hosts ≡ hosts
            → IfOk result (λ notes. AreSorted notes base []) }
    {
        let mut none = Vec::with_capacity(alloc, hosts)?;
        'hosts: while none.len() < hosts {
            none.push(Vec::new(alloc))?;
        }
        Ok(Notes {
            alloc,
            hosts: none,
            periods: Vec::new(alloc),
        })
    }

    /// Adds what the line at a place says.
    fn add_line(&mut self, base: &Base, place: u64, entry: &'a LogEntry) -> Result<(), Memory>
        ensures { OnOk result ((told : List Note) → AreSorted self.old base.now told
            → AreSorted self.new base.now
            (told ++ option_to_list (note_at base.now (place, entry.now)))) }
    {
        match Line::of(base, place, entry) {
            Some(note) => self.add(base, note),
            None => Ok(()),
        }
    }

    /// Adds what is said.
    fn add(&mut self, base: &Base, note: Line<'a>) -> Result<(), Memory>
        ensures { OnOk result ((told : List Note) → AreSorted self.old base.now told
            → AreSorted self.new base.now (told ++ note_of note.entry ∷ [])) }
    {
        let Some(object) = note.said.object() else {
            return self.add_period(note);
        };
        match host_about(base, object) {
            Some(host) => self.add_to(host, note),
            None => Ok(()),
        }
    }

    fn add_period(&mut self, note: Line<'a>) -> Result<(), Memory>
        ensures hosts { self.new.hosts ≡ self.old.hosts }
        ensures periods { OnOk result (map note_of self.new.periods.items
            ≡ map note_of self.old.periods.items ++ note_of note.entry ∷ []) }
    {
        self.periods.push(note)?;
        Ok(())
    }

    /// Adds what is said of a host or of a service there.
    fn add_to(&mut self, host: HostId, note: Line<'a>) -> Result<(), Memory>
        ensures count { length self.new.hosts.items ≡ length self.old.hosts.items }
        ensures hosts { OnOk result ((place : ℕ)
            → IfSome (slice_get self.new.hosts.items place)
            (λ now. IsSomeAnd (slice_get self.old.hosts.items place) (λ kept.
            map note_of now.items ≡ with_note host place note.entry (map note_of kept.items)))) }
        ensures periods { self.new.periods ≡ self.old.periods }
    {
        let place = host.0 as usize;
        if place < self.hosts.len() {
            self.hosts[place].push(note)?;
        }
        Ok(())
    }

    /// What may concern an object: what is said of its host, of the services there and of time
    /// periods, in the order of the log. The only error is out of memory.
    pub(crate) fn near(&self, about: &Subject<'_>) -> Result<Vec<Line<'a>>, Memory>
        ensures { IfOk result (λ near.
            AreNear self.now (subject_of_lines about.now) (map note_of near.items)) }
    {
        let place = about.host.0 as usize;
        if place < self.hosts.len() {
            merged_notes(self.alloc, &self.hosts[place], &self.periods)
        } else {
            Ok(Vec::new(self.alloc))
        }
    }
}

/// The host itself, or the one that a service runs on.
fn host_about(base: &Base, object: Object) -> Option<HostId>
    ensures { result ≡ host_about base.now object }
{
    match object {
        Object::Host(id) => Some(id),
        Object::Service(id) => match base.services.as_slice().get(id.0 as usize) {
            Some(service) => Some(service.host),
            None => None,
        },
    }
}

/// Two lists in the order of the log as one.
fn merged_notes<'a>(
    alloc: Global,
    notes: &[Line<'a>],
    others: &[Line<'a>],
) -> Result<Vec<Line<'a>>, Memory>
    ensures { IfOk result (λ all. map note_of all.items
        ≡ merged_notes (map note_of notes.now) (map note_of others.now)) }
{
    let mut all = Vec::new(alloc);
    let mut at = 0;
    let mut other_at = 0;
    'notes: while at < notes.len() && other_at < others.len() {
        if notes[at].place < others[other_at].place {
            all.push(notes[at])?;
            at += 1;
        } else {
            all.push(others[other_at])?;
            other_at += 1;
        }
    }
    all.extend_from_slice(&notes[at..])?;
    all.extend_from_slice(&others[other_at..])?;
    Ok(all)
}
