ghost use Rattle.std.specs.Prelude.{◌≡◌, ◌==◌, ◌<◌, All, [], ◌∷◌, ◌++◌, IfOk, IfSome, OnErr, OnOk};
ghost use Rattle.std.specs.Prelude.{length, map};
ghost use Rattle.lq_filter.specs.declared.header.Header.TheVariants as header;
ghost use Rattle.lq_filter.specs.Trees.{height};
ghost use Rattle.lq_request.specs.Filters.{earlier};
ghost use Rattle.lq_request.specs.Reading.{Finds, Leaves};
ghost use Rattle.lq_request.specs.Stats.{IsAggregate, IsEntry, IsStat, headers_of_counts};
ghost use Rattle.lq_request.specs.Stats.{entry_of_draft};
ghost use Rattle.lq_request.specs.Stats.{last_counted, with_joined, with_negated};

use crate::header_err::HeaderErr;
use crate::reason::Reason;
use lq_filter::{Filter, Stack, StackErr, Test};
use lq_records::{Items, Memory, Text};
use lq_schema::Col;
use lq_stats::StatKind;
use std::alloc::Global;
use std::collections::VecDeque;
use std::marker::Model;

/// One entry of a query's statistics.
#[derive(Drop)]
pub enum StatEntry {
    /// How many rows this filter chooses of those that the query's filter chooses. It is one test,
    /// or the filters that one `StatsAnd`, `StatsOr` or `StatsNegate` makes one.
    Count(Filter),
    /// What the column's numbers give together. The kind is never `Count`, and the column has
    /// numbers.
    Over(StatKind, Col),
}

/// An entry as far as it is read: later lines may join it with others.
#[derive(Drop)]
pub enum StatDraft {
    /// How many rows a filter chooses, by its headers.
    Count(Stack),
    /// What the column's numbers give together.
    Over(StatKind, Col),
}

impl StatDraft {
    /// The entry of a query that is read whole.
    fn finish(self) -> Result<StatEntry, Memory>
        ensures { IfOk result (λ entry. entry ≡ entry_of_draft self) }
    {
        match self {
            StatDraft::Count(stack) => Ok(StatEntry::Count(stack.finish()?)),
            StatDraft::Over(kind, column) => Ok(StatEntry::Over(kind, column)),
        }
    }
}

/// The entries of a query as far as it is read. Contracts see them as their list.
#[derive(Drop)]
pub struct Entries {
    inner: VecDeque<StatDraft>,
}

impl Model for Entries {
    ghost use Rattle.std.specs.Prelude.{All, List};
    ghost use Rattle.lq_request.specs.Stats.{IsEntry};
    ghost use Rattle.lq_request.specs.declared.entry.StatDraft.{StatDraft};

    ghost Value = { List StatDraft };

    ghost view = { λ entries. entries.inner.items };

    ghost invariant = { λ entries. All IsEntry entries.inner.items };
}

impl Entries {
    /// No entries. It takes no memory.
    pub fn new(alloc: Global) -> Self
        ensures { result ≡ [] }
    {
        Entries {
            inner: VecDeque::new(alloc),
        }
    }

    /// Whether there is no entry.
    pub fn is_empty(&self) -> bool
        ensures { result ≡ (length self.now == 0) }
    {
        self.inner.is_empty()
    }

    /// Adds an entry that counts the rows of a test. The only error is out of memory, and then the
    /// entries stay as they were.
    pub fn push_test(&mut self, alloc: Global, test: Test) -> Result<(), Memory>
        ensures ok { OnOk result (self.new
            ≡ self.old ++ StatDraft.Count (header.Test test ∷ []) ∷ []) }
        ensures err { OnErr result (self.new ≡ self.old) }
    {
        let mut stack = Stack::new(alloc);
        stack.push(test)?;
        self.push_stack(stack)
    }

    /// Adds an aggregate of a column. The only error is out of memory, and then the entries stay as
    /// they were.
    pub fn push_over(&mut self, kind: StatKind, column: Col) -> Result<(), Memory>
        requires { IsAggregate kind column }
        ensures ok { OnOk result (self.new ≡ self.old ++ StatDraft.Over kind column ∷ []) }
        ensures err { OnErr result (self.new ≡ self.old) }
    {
        self.inner.push_back(StatDraft::Over(kind, column))?;
        Ok(())
    }

    /// Makes the last entries one that counts: where `any`, one of their filters is enough, else
    /// all have to hold. The header with this name asks for it. On an error nothing is said of the
    /// entries, since the query is given up.
    pub fn join(
        &mut self,
        alloc: Global,
        name: &str,
        any: bool,
        count: u64,
    ) -> Result<(), HeaderErr>
        ensures { Leaves result self.new (with_joined name.now any self.old count) }
    {
        let mut stack = self.cut_off(alloc, name, count)?;
        match stack.join(count, any) {
            Ok(()) => Ok(self.push_stack(stack)?),
            Err(StackErr::TooShort) => unreachable!(),
            Err(StackErr::Memory) => Err(HeaderErr::Memory),
        }
    }

    /// Makes the last entry count the rows that it doesn't. The header with this name asks for it.
    /// On an error nothing is said of the entries.
    pub fn negate(&mut self, alloc: Global, name: &str) -> Result<(), HeaderErr>
        ensures { Leaves result self.new (with_negated name.now self.old) }
    {
        let mut stack = self.cut_off(alloc, name, 1)?;
        match stack.negate() {
            Ok(()) => Ok(self.push_stack(stack)?),
            Err(StackErr::TooShort) => unreachable!(),
            Err(StackErr::Memory) => Err(HeaderErr::Memory),
        }
    }

    /// Cuts the last so many entries off, and gives the headers of their filters.
    fn cut_off(&mut self, alloc: Global, name: &str, count: u64) -> Result<Stack, HeaderErr>
        ensures headers { Finds result (last_counted name.now self.old count) }
        ensures left { OnOk result (self.new ≡ earlier self.old count) }
        ensures trees { IfOk result (λ headers. height headers ≡ count) }
        ensures some { OnOk result (0 < count) }
    {
        if count == 0 || count > self.inner.len() as u64 {
            return Err(HeaderErr::Refused(Reason::StackTooShort(Text::new(alloc, name)?)));
        }
        let latest = self.inner.split_off(self.inner.len() - count as usize)?;
        match headers_of_counts(alloc, latest)? {
            Some(stack) => Ok(stack),
            None => Err(HeaderErr::Refused(Reason::AggregateIn(Text::new(alloc, name)?))),
        }
    }

    /// Adds an entry that counts the rows of a filter of one tree.
    fn push_stack(&mut self, stack: Stack) -> Result<(), Memory>
        requires { height stack ≡ 1 }
        ensures ok { OnOk result (self.new ≡ self.old ++ StatDraft.Count stack ∷ []) }
        ensures err { OnErr result (self.new ≡ self.old) }
    {
        self.inner.push_back(StatDraft::Count(stack))?;
        Ok(())
    }

    /// The entries of a query that is read whole.
    pub fn finish(self, alloc: Global) -> Result<Items<StatEntry>, Memory>
        ensures same { IfOk result (λ stats. stats ≡ map entry_of_draft self) }
        ensures each { IfOk result (All IsStat) }
    {
        let mut rest = self.inner;
        let mut stats = Items::default();
        'entries: while let Some(entry) = rest.pop_front() {
            stats.push(alloc, entry.finish()?)?;
        }
        Ok(stats)
    }
}

/// The headers of entries, one after the other. None where one of them is an aggregate.
fn headers_of_counts(alloc: Global, entries: VecDeque<StatDraft>) -> Result<Option<Stack>, Memory>
    requires { All IsEntry entries.items }
    ensures headers { IfOk result (λ headers. headers ≡ headers_of_counts entries.items) }
    ensures trees { IfOk result (λ headers. IfSome headers
        (λ headers. height headers ≡ length entries.items)) }
{
    let mut rest = entries;
    let mut headers = Stack::new(alloc);
    'entries: while let Some(entry) = rest.pop_front() {
        match entry {
            StatDraft::Count(stack) => headers.append(stack)?,
            StatDraft::Over(_, _) => return Ok(None),
        }
    }
    Ok(Some(headers))
}
