ghost use Rattle.std.specs.Prelude.{◌≡◌};
ghost use Rattle.lq_request.specs.Reading.{Finds};
ghost use Rattle.lq_request.specs.Window.{bounds_on, bounds_said, interval_of, own_time, second_at};
ghost use Rattle.lq_request.specs.Window.{next_bound, time_test, whole_interval};

use crate::header_err::HeaderErr;
use crate::reason::Reason;
use lq_filter::{Comparison, Property, Test};
use lq_schema::{Col, LineColumn, OwnColumn, Prefix, SliceColumn, Table};
use std::cmp::Ordering;

/// The first second that has more than 12 digits, in seconds since 1970. Every time is before it.
const END_OF_TIME: u64 = 1_000_000_000_000;

/// The bounds that filters say of the time of rows, in seconds since 1970 of at most
/// 1,000,000,000,000.
#[derive(Clone, Copy)]
pub struct TimeBounds {
    /// No time before this second is wanted. None where there is no lower bound.
    pub from: Option<u64>,
    /// No time from this second on is wanted. None where there is no upper bound.
    pub until: Option<u64>,
}

impl TimeBounds {
    /// The bounds that a comparison with a number says: `negated` with `Less` is `>=`.
    fn of_words(negated: bool, ordering: Ordering, number: i64) -> Self
        ensures { result ≡ bounds_said negated ordering number }
    {
        let at = Some(second_at(number));
        let after = Some(next_bound(number));
        let (from, until) = match (ordering, negated) {
            (Ordering::Equal, false) => (at, after),
            (Ordering::Equal, true) => (None, None),
            (Ordering::Less, false) => (None, at),
            (Ordering::Less, true) => (at, None),
            (Ordering::Greater, false) => (after, None),
            (Ordering::Greater, true) => (None, after),
        };
        TimeBounds { from, until }
    }
}

/// What a test of a time says.
#[derive(Clone, Copy)]
pub enum TimeTest {
    /// Of the time of a line of the log.
    Line(TimeBounds),
    /// Of the time of a slice of a history.
    Slice(TimeBounds),
}

impl TimeTest {
    /// What a test says of a time. None where it is a test of something else.
    pub fn of(test: &Test) -> Option<Self>
        ensures { result ≡ time_test test.now }
    {
        match &test.check.property {
            Property::Compares(Comparison::Number(ordering, number)) => own_time(
                test.column,
                TimeBounds::of_words(test.check.negated, *ordering, *number),
            ),
            _ => None,
        }
    }

    /// The bounds that it says of the time of a table's rows. None where it is of that of another
    /// table's.
    pub fn bounds_on(self, table: Table) -> Option<TimeBounds>
        ensures { result ≡ bounds_on table self }
    {
        match (table, self) {
            (Table::Log, TimeTest::Line(bounds)) => Some(bounds),
            (Table::StateHist, TimeTest::Slice(bounds)) => Some(bounds),
            _ => None,
        }
    }
}

/// The test of the time that a column has. None where the column has no time of a row.
fn own_time(column: Col, bounds: TimeBounds) -> Option<TimeTest>
    ensures { result ≡ own_time column.prefix column.own bounds }
{
    match (column.prefix, column.own) {
        (Prefix::Own, OwnColumn::Line(LineColumn::Time)) => Some(TimeTest::Line(bounds)),
        (Prefix::Own, OwnColumn::Slice(SliceColumn::Time)) => Some(TimeTest::Slice(bounds)),
        _ => None,
    }
}

/// The interval of time that a query asks for, in seconds since 1970 of at most 1,000,000,000,000.
#[derive(Clone, Copy)]
pub struct Interval {
    /// Its first second.
    pub from: u64,
    /// The first second after it. None stands for the present second.
    pub until: Option<u64>,
}

impl Interval {
    /// The interval of a query on a table, by the bounds that its filters say together.
    pub fn of(table: Table, bounds: TimeBounds) -> Result<Self, HeaderErr>
        ensures { Finds result (interval_of table bounds) }
    {
        match table {
            Table::StateHist => match bounds.from {
                Some(from) => Ok(Interval {
                    from,
                    until: bounds.until,
                }),
                None => Err(HeaderErr::Refused(Reason::TimeFilterMissing)),
            },
            Table::Log => Ok(Interval {
                from: bounds.from.unwrap_or(0),
                until: Some(bounds.until.unwrap_or(END_OF_TIME)),
            }),
            _ => Ok(Self::whole()),
        }
    }

    /// All time.
    pub fn whole() -> Self
        ensures { result ≡ whole_interval }
    {
        Interval {
            from: 0,
            until: Some(END_OF_TIME),
        }
    }
}

/// The second that a number says, or the nearest one that may be a bound.
fn second_at(number: i64) -> u64
    ensures { result ≡ second_at number }
{
    if number < 0 {
        0
    } else {
        END_OF_TIME.min(number as u64)
    }
}

/// The second after the one that a number says, or the nearest one that may be a bound.
fn next_bound(number: i64) -> u64
    ensures { result ≡ next_bound number }
{
    if number < 0 {
        0
    } else {
        END_OF_TIME.min(number as u64 + 1)
    }
}
