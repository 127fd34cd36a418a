ghost use Rattle.std.specs.Prelude.{◌≡◌};
ghost use Rattle.lq_request.specs.Filters.{excludes_time, filter_test, is_slice_time};
ghost use Rattle.lq_request.specs.Filters.{patterns_with, test_of, test_words};
ghost use Rattle.lq_request.specs.Headers.{with_join_value, with_negation, with_test_value};
ghost use Rattle.lq_request.specs.Reading.{Finds, Leaves};

use crate::header::Draft;
use crate::header_err::HeaderErr;
use crate::number::number_value;
use crate::reason::Reason;
use crate::words::{split_word, without_end, without_front};
use lq_filter::{Test, TestErr};
use lq_records::Text;
use lq_schema::{Col, OwnColumn, Prefix, SliceColumn, Table, column};
use std::alloc::Global;
use std::marker::Model;

/// The most patterns that a query may have. The next one is refused.
const MOST_PATTERNS: usize = 16;

/// The words of a test: a column's name, an operator and what the cell is compared with.
#[derive(Drop)]
struct TestWords<'a> {
    column: &'a str,
    operator: &'a str,
    operand: &'a str,
}

impl<'a> Model for TestWords<'a> {
    ghost use Rattle.lq_request.specs.Filters.{TestWords};

    ghost Value = { TestWords };

    ghost view = { λ words. record {
      column = words.column.now;
      operator = words.operator.now;
      operand = words.operand.now;
    } };
}

impl<'a> TestWords<'a> {
    /// The words of a value. One that isn't there is empty.
    fn of(value: &'a str) -> Self
        ensures { result ≡ test_words value.now }
    {
        let (column, rest) = split_word(without_front(value));
        let (operator, operand) = split_word(rest);
        TestWords {
            column,
            operator,
            operand,
        }
    }

    /// The test that the words of a `Filter` line say on a table, whose header has this name. The
    /// time of a history can't be excluded by `!=`.
    fn filter(&self, alloc: Global, table: Table, name: &str) -> Result<Test, HeaderErr>
        ensures { Finds result (filter_test table name.now self.now) }
    {
        if self.excludes_time(table) {
            return Err(HeaderErr::Refused(Reason::NotAllowed(Text::new(alloc, self.column)?)));
        }
        self.test(alloc, table, name)
    }

    /// Whether they want the time of a history to be another one.
    fn excludes_time(&self, table: Table) -> bool
        ensures { result ≡ excludes_time table self.now }
    {
        self.operator == "!=" && is_slice_time(column(table, self.column))
    }

    /// The test that the words of the header with this name say on a table.
    fn test(&self, alloc: Global, table: Table, name: &str) -> Result<Test, HeaderErr>
        ensures { Finds result (test_of table name.now self.now) }
    {
        if self.operator.is_empty() {
            return Err(HeaderErr::Refused(Reason::BadValue(Text::new(alloc, name)?)));
        }
        let Some(column) = column(table, self.column) else {
            return Err(HeaderErr::Refused(Reason::UnknownColumn(Text::new(alloc, self.column)?)));
        };
        let reason = match Test::read(alloc, column, self.operator, self.operand) {
            Ok(test) => return Ok(test),
            Err(TestErr::Operator) => Reason::UnknownOperator(Text::new(alloc, self.operator)?),
            Err(TestErr::NotAllowed) => Reason::NotAllowed(Text::new(alloc, self.column)?),
            Err(TestErr::NotNumber) => {
                Reason::NotNumber(Text::new(alloc, without_end(self.operand))?)
            }
            Err(TestErr::BadPattern) => Reason::BadPattern,
            Err(TestErr::Memory) => return Err(HeaderErr::Memory),
        };
        Err(HeaderErr::Refused(reason))
    }
}

/// The test that the value of a header says on a table.
pub fn test_value(alloc: Global, table: Table, name: &str, value: &str) -> Result<Test, HeaderErr>
    ensures { Finds result (test_of table name.now (test_words value.now)) }
{
    TestWords::of(value).test(alloc, table, name)
}

/// Whether a column is the time of a slice of a history.
fn is_slice_time(column: Option<Col>) -> bool
    ensures { result ≡ is_slice_time column }
{
    matches!(
        column,
        Some(Col {
            prefix: Prefix::Own,
            own: OwnColumn::Slice(SliceColumn::Time),
        })
    )
}

/// How many patterns a query has with one more test.
pub fn patterns_with(patterns: usize, test: &Test) -> Result<usize, HeaderErr>
    ensures { Finds result (patterns_with patterns test.now) }
{
    if !test.has_pattern() {
        return Ok(patterns);
    }
    if patterns < MOST_PATTERNS {
        Ok(patterns + 1)
    } else {
        Err(HeaderErr::Refused(Reason::TooManyPatterns))
    }
}

impl Draft {
    /// Adds the test of a `Filter` line.
    pub(crate) fn add_test(
        &mut self,
        alloc: Global,
        name: &str,
        value: &str,
    ) -> Result<(), HeaderErr>
        ensures { Leaves result self.new (with_test_value name.now value.now self.old) }
    {
        let test = TestWords::of(value).filter(alloc, self.request.table, name)?;
        self.patterns = patterns_with(self.patterns, &test)?;
        self.filters.push(alloc, test)?;
        Ok(())
    }

    /// Joins the last filters: where `any`, one of them is enough, else all have to hold.
    pub(crate) fn join(
        &mut self,
        alloc: Global,
        name: &str,
        any: bool,
        value: &str,
    ) -> Result<(), HeaderErr>
        ensures { Leaves result self.new (with_join_value name.now any value.now self.old) }
    {
        let count = number_value(alloc, name, value)?;
        self.filters.join(alloc, name, any, count)
    }

    /// Makes the last filter its opposite.
    pub(crate) fn negate(&mut self, alloc: Global, name: &str) -> Result<(), HeaderErr>
        ensures { Leaves result self.new (with_negation name.now self.old) }
    {
        self.filters.negate(alloc, name)
    }
}
