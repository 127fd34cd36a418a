ghost use Rattle.std.specs.Prelude.{◌≡◌, IfOk, map};
ghost use Rattle.std.specs.List.{AllByRecursion};
ghost use Rattle.std.specs.Str.{IsUtf8};
ghost use Rattle.lq_request.specs.Headers.{with_count, with_entry, with_stats_join};
ghost use Rattle.lq_request.specs.Headers.{with_stats_value};
ghost use Rattle.lq_request.specs.Reading.{Finds, Leaves};
ghost use Rattle.lq_request.specs.Stats.{aggregate_entry, number_column};
ghost use Rattle.lq_schema.specs.Kinds.{own_kind};
ghost use Rattle.lq_schema.specs.Schema.{column_of};

use crate::aggregate::Aggregate;
use crate::filter::{patterns_with, test_value};
use crate::header::Draft;
use crate::header_err::HeaderErr;
use crate::number::number_value;
use crate::reason::Reason;
use crate::words::{as_text, words_of};
use lq_filter::Test;
use lq_records::Text;
use lq_schema::{Col, ColKind, Table, column, kind};
use std::alloc::Global;

impl Draft {
    /// Adds the entry of a `Stats` line.
    pub(crate) fn add_stats(
        &mut self,
        alloc: Global,
        name: &str,
        value: &str,
    ) -> Result<(), HeaderErr>
        ensures { Leaves result self.new (with_stats_value name.now value.now self.old) }
    {
        let words = words_of(alloc, value.as_bytes())?;
        match Aggregate::first(&words) {
            Some(aggregate) => self.add_aggregate(alloc, name, aggregate, &words),
            None => self.add_count(alloc, test_value(alloc, self.request.table, name, value)?),
        }
    }

    /// Joins the last entries: where `any`, one of their filters is enough, else all have to hold.
    pub(crate) fn join_stats(
        &mut self,
        alloc: Global,
        name: &str,
        any: bool,
        value: &str,
    ) -> Result<(), HeaderErr>
        ensures { Leaves result self.new (with_stats_join name.now any value.now self.old) }
    {
        let count = number_value(alloc, name, value)?;
        self.stats.join(alloc, name, any, count)
    }

    /// Adds an entry that counts the rows of a test.
    fn add_count(&mut self, alloc: Global, test: Test) -> Result<(), HeaderErr>
        ensures { Leaves result self.new (with_count self.old test) }
    {
        self.patterns = patterns_with(self.patterns, &test)?;
        self.stats.push_test(alloc, test)?;
        Ok(())
    }

    /// Adds the aggregate that words say.
    fn add_aggregate(
        &mut self,
        alloc: Global,
        name: &str,
        aggregate: Aggregate,
        words: &[&[u8]],
    ) -> Result<(), HeaderErr>
        requires { AllByRecursion IsUtf8 (map (λ word. word.now) words.now) }
        ensures { Leaves result self.new (with_entry self.old
            (aggregate_entry self.old.request.table name.now aggregate
            (map (λ word. word.now) words.now))) }
    {
        let [word, column] = words else {
            return Err(HeaderErr::Refused(Reason::BadValue(Text::new(alloc, name)?)));
        };
        let Some(kind) = aggregate.kind() else {
            let word = Text::new(alloc, as_text(word))?;
            return Err(HeaderErr::Refused(Reason::AggregateUnsupported(word)));
        };
        let column = number_column(alloc, self.request.table, as_text(column))?;
        self.stats.push_over(kind, column)?;
        Ok(())
    }
}

/// The column of numbers that a table has by a name.
fn number_column(alloc: Global, table: Table, name: &str) -> Result<Col, HeaderErr>
    ensures column { Finds result (number_column name.now (column_of table name.now)) }
    ensures number { IfOk result (λ column. own_kind column.own ≡ ColKind.Int) }
{
    let Some(column) = column(table, name) else {
        return Err(HeaderErr::Refused(Reason::UnknownColumn(Text::new(alloc, name)?)));
    };
    match kind(column) {
        ColKind::Int => Ok(column),
        _ => Err(HeaderErr::Refused(Reason::NotAllowed(Text::new(alloc, name)?))),
    }
}
