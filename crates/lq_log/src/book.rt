ghost use Rattle.std.specs.Prelude.{All, ◌≡◌, ◌<◌, ◌≤◌, ◌^◌, ◌+◌, ◌++◌, ◌∷◌, ◌==◌, [], IfOk, IsOk};
ghost use Rattle.std.specs.Prelude.{OnErr, OnOk, Some, length, ◌-◌};
ghost use Rattle.std.specs.List.{slice_get};
ghost use Rattle.std.specs.Option.{option_map};
ghost use Rattle.lq_log.specs.Book.{InOrder, last_time, time_limit};
ghost use Rattle.lq_log.specs.Entries.{IsOfLine};

use lq_events::LogEntry;
use lq_records::Memory;
use lq_steps::Steps;
use std::alloc::{AllocError, Global};
use std::marker::Model;
use std::sync::ledger::Ledger;

/// Each entry's second is below it: a second in brackets has at most 12 digits, and this number has
/// 13, so that a line with it would not be read again.
pub const TIME_LIMIT: u64 = 1_000_000_000_000;

/// The most entries of a book, far more than there is memory for: so a place in it and a count of
/// its entries never overflow. One more is refused, as if there were no memory for it.
const MOST_ENTRIES: usize = 1 << 40;

/// The entries of a log. A line gives each of them, and none is earlier than the one before.
pub struct LogBook {
    entries: Vec<LogEntry>,
    /// How many lines of the log that was read have no entry.
    skipped: u64,
}

// Written by hand: where one is dropped a proof then meets a call, and not each of the fields.
impl Drop for LogBook {
    fn drop(self) {
        let LogBook {
            entries: _entries,
            skipped: _skipped,
        } = self;
    }
}

impl Model for LogBook {
    ghost use Rattle.std.specs.Prelude.{All, ◌-◌, ◌≤◌, ◌^◌, min};
    ghost use Rattle.std.specs.Vec.{vec_len, vec_capacity};
    ghost use Rattle.lq_log.specs.Book.{Book, InOrder};
    ghost use Rattle.lq_log.specs.Entries.{IsOfLine};

    ghost Value = { Book };

    ghost view = { λ book. record {
      entries = book.entries.items;
      room = min (vec_capacity book.entries) (2 ^ 40) - vec_len book.entries;
      skipped = book.skipped;
    } };

    ghost invariant = { λ book. (vec_len book.entries ≤ 2 ^ 40) × InOrder book.entries.items
        × All IsOfLine book.entries.items };
}

impl LogBook {
    /// A book without entries. It takes no memory.
    pub fn empty(alloc: Global) -> Self
        ensures entries { result.entries ≡ [] }
        ensures skipped { result.skipped ≡ 0 }
    {
        LogBook {
            entries: Vec::new(alloc),
            skipped: 0,
        }
    }

    /// Makes room for n more entries. The only error is running out of memory, also where there
    /// would be more than 2^40 entries; the book is as before then.
    pub fn reserve(&mut self, n: usize) -> Result<(), Memory>
        ensures kept { self.new.entries ≡ self.old.entries }
        ensures ok { OnOk result (n ≤ self.new.room) }
        ensures limit { OnOk result (length self.new.entries + n ≤ 2 ^ 40) }
        ensures room { n ≤ self.old.room → IsOk result }
        ensures grows { self.old.room ≤ self.new.room }
        ensures skipped { self.new.skipped ≡ self.old.skipped }
        ensures err { OnErr result (self.new ≡ self.old) }
    {
        if n > MOST_ENTRIES - self.entries.len() {
            return Err(AllocError);
        }
        self.entries.reserve(n)
    }

    /// A book with the same entries, which shares their texts with this one. The only error is
    /// running out of memory.
    pub fn copy(&self, alloc: Global) -> Result<Self, Memory>
        ensures entries { IfOk result (λ copy. copy.entries ≡ self.now.entries) }
        ensures skipped { IfOk result (λ copy. copy.skipped ≡ self.now.skipped) }
    {
        Ok(LogBook {
            entries: copy_of(alloc, &self.entries)?,
            skipped: self.skipped,
        })
    }

    /// Adds an entry at the end, which a line gives and which is no earlier than the last one. The
    /// only error is running out of memory, also where there would be more than 2^40 entries; the
    /// entries are as before then. It doesn't come where the book has room.
    #[tactic(auto, using(crate::proofs::BookLemmas::longer_in_order, crate::proofs::BookLemmas::longer_of_lines, crate::proofs::BookLemmas::last_time_added))]
    pub fn add(&mut self, entry: LogEntry) -> Result<(), Memory>
        requires line { IsOfLine entry }
        requires order { last_time self.old.entries ≤ entry.time }
        requires below { entry.time < time_limit }
        ensures ok { OnOk result (self.new.entries ≡ self.old.entries ++ entry ∷ []) }
        ensures last { OnOk result (last_time self.new.entries ≡ entry.time) }
        ensures err { OnErr result (self.new.entries ≡ self.old.entries) }
        ensures room { 0 < self.old.room → IsOk result }
        ensures uses { self.old.room ≤ self.new.room + 1 }
        ensures skipped { self.new.skipped ≡ self.old.skipped }
    {
        self.reserve(1)?;
        self.entries.push_reserved(entry);
        Ok(())
    }

    /// The entries. A line gives each of them.
    pub fn entries(&self) -> &[LogEntry]
        ensures all { result.now ≡ self.now.entries }
        ensures lines { All IsOfLine result.now }
        ensures order { InOrder result.now }
    {
        &self.entries
    }

    /// How many entries there are, at most 2^40.
    pub fn len(&self) -> usize
        ensures count { result ≡ length self.now.entries }
        ensures most { result ≤ 2 ^ 40 }
        ensures order { InOrder self.now.entries }
    {
        self.entries.len()
    }

    /// How many lines of the log that was read have no entry, empty ones included: those that don't
    /// begin with a second in brackets. 0 for a book that was made empty.
    pub fn skipped(&self) -> u64
        ensures { result ≡ self.now.skipped }
    {
        self.skipped
    }

    /// Counts a line without an entry.
    pub(crate) fn skip(&mut self)
        requires { self.old.skipped < 2 ^ 64 - 1 }
        ensures entries { self.new.entries ≡ self.old.entries }
        ensures skipped { self.new.skipped ≡ self.old.skipped + 1 }
    {
        self.skipped += 1;
    }

    /// The entry at a place, from 0 on. It is one step.
    pub fn line<G: Ledger>(&self, i: usize, steps: &mut Steps<G>) -> &LogEntry
        requires { i < length self.now.entries }
        ensures entry { slice_get self.now.entries i ≡ Some result.now }
        ensures cost { steps.new ≡ steps.old + 1 }
    {
        steps.tick();
        &self.entries[i]
    }

    /// The second of the entry at a place, counted from the beginning of 1970. It is one step.
    pub fn time_at<G: Ledger>(&self, i: usize, steps: &mut Steps<G>) -> u64
        requires { i < length self.now.entries }
        ensures time { option_map (λ entry. entry.time) (slice_get self.now.entries i)
            ≡ Some result }
        ensures cost { steps.new ≡ steps.old + 1 }
    {
        self.line(i, steps).time
    }

    /// The second of the last entry, counted from the beginning of 1970; 0 without an entry. It is
    /// below `TIME_LIMIT`.
    #[tactic(auto, using(crate::proofs::BookLemmas::last_time_is, crate::proofs::BookLemmas::no_last_time, crate::proofs::BookLemmas::last_time_below))]
    pub fn last_time(&self) -> u64
        ensures value { result ≡ last_time self.now.entries }
        ensures below { result < time_limit }
    {
        match self.entries.last() {
            Some(last) => last.time,
            None => 0,
        }
    }

    /// Whether there is no entry.
    pub fn is_empty(&self) -> bool
        ensures { result ≡ (length self.now.entries == 0) }
    {
        self.entries.is_empty()
    }
}

/// The same entries, which share their texts with these.
fn copy_of(alloc: Global, entries: &[LogEntry]) -> Result<Vec<LogEntry>, Memory>
    ensures { IfOk result (λ copy. copy.items ≡ entries.now) }
{
    entries.to_vec(alloc)
}
