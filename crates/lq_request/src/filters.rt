ghost use Rattle.std.specs.Prelude.{◌≡◌, ◌<◌, All, [], ◌∷◌, ◌++◌, None, IfOk, OnErr, OnOk, length};
ghost use Rattle.lq_filter.specs.declared.header.Header.TheVariants as header;
ghost use Rattle.lq_request.specs.Filters.{AreWhole, IsFilter, earlier, last_filters, with_group};
ghost use Rattle.lq_request.specs.Reading.{Finds, Leaves};
ghost use Rattle.lq_request.specs.Window.{bounds_of, filter_bounds, filter_time, has_history_time};
ghost use Rattle.lq_request.specs.Window.{headers_of, is_tested, row_headers};

use crate::header_err::HeaderErr;
use crate::reason::Reason;
use crate::time::{TimeBounds, TimeTest};
use lq_filter::{Filter, Stack, StackErr, Test};
use lq_records::{Memory, Text};
use lq_schema::Table;
use std::alloc::Global;
use std::marker::Model;

/// A filter that stands by itself as far as the query is read: later lines may join it with others.
/// Contracts see it as the list of its headers.
#[derive(Drop)]
pub struct FilterDraft {
    headers: Stack,
    /// What it says of a time. None where it isn't one test of that.
    time: Option<TimeTest>,
}

impl Model for FilterDraft {
    ghost use Rattle.std.specs.Prelude.{◌≡◌, List};
    ghost use Rattle.lq_filter.specs.declared.header.Header.{Header};
    ghost use Rattle.lq_request.specs.Window.{filter_time};

    ghost Value = { List Header };

    ghost view = { λ filter. filter.headers };

    ghost invariant = { λ filter. filter.time ≡ filter_time filter.headers };
}

impl FilterDraft {
    /// The filter of one test. The only error is out of memory.
    fn of_test(alloc: Global, test: Test) -> Result<Self, Memory>
        ensures { IfOk result (λ filter. filter ≡ header.Test test ∷ []) }
    {
        let time = TimeTest::of(&test);
        let mut headers = Stack::new(alloc);
        headers.push(test)?;
        Ok(FilterDraft { headers, time })
    }

    /// The filter that `And`, `Or` or `Negate` makes. It says nothing of a time.
    fn of_group(headers: Stack) -> Self
        requires { filter_time headers ≡ None }
        ensures { result ≡ headers }
    {
        FilterDraft {
            headers,
            time: None,
        }
    }

    /// What it says of the time of a table's rows. None where it isn't one test of that.
    fn bounds_on(&self, table: Table) -> Option<TimeBounds>
        ensures { result ≡ filter_bounds table self.now }
    {
        match self.time {
            Some(time) => time.bounds_on(table),
            None => None,
        }
    }

    /// Whether rows are tested by it: the interval of a history stands for the filters of its time.
    fn is_tested(&self) -> bool
        ensures { result ≡ is_tested self.now }
    {
        !matches!(self.time, Some(TimeTest::Slice(_)))
    }

    /// Its headers.
    fn into_headers(self) -> Stack
        ensures { result ≡ self }
    {
        self.headers
    }
}

/// The filters that stand as far as a query is read, in the order of their lines. Contracts see
/// them as the list of their headers.
#[derive(Drop)]
pub struct Filters {
    inner: Vec<FilterDraft>,
}

impl Model for Filters {
    ghost use Rattle.std.specs.Prelude.{All, List};
    ghost use Rattle.lq_filter.specs.declared.header.Header.{Header};
    ghost use Rattle.lq_request.specs.Filters.{IsFilter};

    ghost Value = { List (List Header) };

    ghost view = { λ filters. filters.inner.items };

    ghost invariant = { λ filters. All IsFilter filters.inner.items };
}

impl Filters {
    /// No filters. It takes no memory.
    pub fn new(alloc: Global) -> Self
        ensures { result ≡ [] }
    {
        Filters {
            inner: Vec::new(alloc),
        }
    }

    /// Adds a test. The only error is out of memory, and then the filters stay as they were.
    pub fn push(&mut self, alloc: Global, test: Test) -> Result<(), Memory>
        ensures ok { OnOk result (self.new ≡ self.old ++ (header.Test test ∷ []) ∷ []) }
        ensures err { OnErr result (self.new ≡ self.old) }
    {
        self.inner.push(FilterDraft::of_test(alloc, test)?)?;
        Ok(())
    }

    /// Makes the last filters one: where `any`, one of them is enough, else all have to hold. The
    /// header with this name asks for it. On an error nothing is said of the filters, since the
    /// query is given up.
    pub fn join(
        &mut self,
        alloc: Global,
        name: &str,
        any: bool,
        count: u64,
    ) -> Result<(), HeaderErr>
        ensures { Leaves result self.new (with_group name.now self.old count
            (header.Join (record { count = count; any = any }))) }
    {
        let mut headers = self.cut_off(alloc, name, count)?;
        match headers.join(count, any) {
            Ok(()) => Ok(self.push_group(headers)?),
            Err(StackErr::TooShort) => unreachable!(),
            Err(StackErr::Memory) => Err(HeaderErr::Memory),
        }
    }

    /// Makes the last filter its opposite. The header with this name asks for it. On an error
    /// nothing is said of the filters.
    pub fn negate(&mut self, alloc: Global, name: &str) -> Result<(), HeaderErr>
        ensures { Leaves result self.new (with_group name.now self.old 1 header.Negate) }
    {
        let mut headers = self.cut_off(alloc, name, 1)?;
        match headers.negate() {
            Ok(()) => Ok(self.push_group(headers)?),
            Err(StackErr::TooShort) => unreachable!(),
            Err(StackErr::Memory) => Err(HeaderErr::Memory),
        }
    }

    /// Cuts the last so many filters off, and gives their headers.
    fn cut_off(&mut self, alloc: Global, name: &str, count: u64) -> Result<Stack, HeaderErr>
        ensures headers { Finds result (last_filters name.now self.old count) }
        ensures left { OnOk result (self.new ≡ earlier self.old count) }
        ensures whole { IfOk result (λ headers. AreWhole headers count) }
        ensures some { OnOk result (0 < count) }
    {
        if count == 0 || count > self.inner.len() as u64 {
            return Err(HeaderErr::Refused(Reason::StackTooShort(Text::new(alloc, name)?)));
        }
        let latest = self.inner.split_off(self.inner.len() - count as usize)?;
        if has_history_time(&latest) {
            return Err(HeaderErr::Refused(Reason::TimeFilterInGroup));
        }
        Ok(headers_of(alloc, latest)?)
    }

    /// Adds the filter that a header after others makes of them.
    fn push_group(&mut self, headers: Stack) -> Result<(), Memory>
        requires filter { IsFilter headers }
        requires group { filter_time headers ≡ None }
        ensures ok { OnOk result (self.new ≡ self.old ++ headers ∷ []) }
        ensures err { OnErr result (self.new ≡ self.old) }
    {
        self.inner.push(FilterDraft::of_group(headers))?;
        Ok(())
    }

    /// The bounds that they say of the time of a table's rows: the tightest.
    pub fn bounds(&self, table: Table) -> TimeBounds
        ensures { result ≡ bounds_of table self.now }
    {
        TimeBounds {
            from: lower_bound(&self.inner, table),
            until: upper_bound(&self.inner, table),
        }
    }

    /// The filter that rows are tested by. The only error is out of memory.
    pub fn finish(self, alloc: Global) -> Result<Filter, Memory>
        ensures same { IfOk result (λ filter. filter ≡ row_headers self) }
        ensures each { All IsFilter self }
    {
        let mut headers = Stack::new(alloc);
        for filter in self.inner {
            if filter.is_tested() {
                headers.append(filter.into_headers())?;
            }
        }
        headers.finish()
    }
}

/// Whether one of the filters is of the time of a history.
fn has_history_time(filters: &[FilterDraft]) -> bool
    ensures { result ≡ has_history_time filters.now }
{
    filters.iter().any(|filter| !filter.is_tested())
}

/// The headers of filters, one after the other.
fn headers_of(alloc: Global, filters: Vec<FilterDraft>) -> Result<Stack, Memory>
    requires { All IsFilter filters.items }
    ensures headers { IfOk result (λ headers. headers ≡ headers_of filters.items) }
    ensures whole { IfOk result (λ headers. AreWhole headers (length filters.items)) }
{
    let mut headers = Stack::new(alloc);
    for filter in filters {
        headers.append(filter.into_headers())?;
    }
    Ok(headers)
}

/// The latest lower bound that filters say of the time of a table's rows.
fn lower_bound(filters: &[FilterDraft], table: Table) -> Option<u64>
    ensures { result ≡ (bounds_of table filters.now).from }
{
    filters
        .iter()
        .filter_map(|filter| filter.bounds_on(table))
        .filter_map(|bounds| bounds.from)
        .max()
}

/// The earliest upper bound that filters say of the time of a table's rows.
fn upper_bound(filters: &[FilterDraft], table: Table) -> Option<u64>
    ensures { result ≡ (bounds_of table filters.now).until }
{
    filters
        .iter()
        .filter_map(|filter| filter.bounds_on(table))
        .filter_map(|bounds| bounds.until)
        .min()
}
