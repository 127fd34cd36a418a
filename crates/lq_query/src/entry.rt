ghost use Rattle.std.specs.Prelude.{◌≡◌, IfOk, map};
ghost use Rattle.lq_filter.specs.Trees.{holds, truth_on};
ghost use Rattle.lq_filter.specs.declared.header.Header.{Header};
ghost use Rattle.lq_schema.specs.Value.{Number, meaning_of};
ghost use Rattle.lq_stats.specs.Columns.{column_cells};
ghost use Rattle.lq_stats.specs.declared.cell.StatCell.TheVariants as cell;
ghost use Rattle.lq_query.specs.Counting.{entry_of_ready};
ghost use Rattle.lq_query.specs.Groups.{number_cell, stat_cell};
ghost use Rattle.lq_query.specs.Lines.{seen_cells};

use crate::selection::marks_of;
use crate::sight::Sight;
use lq_filter::ReadyFilter;
use lq_records::Memory;
use lq_request::StatEntry;
use lq_schema::{Col, Val};
use lq_stats::{StatColumn, StatKind};
use lq_tables::{Row, RowCells, row_number};
use std::alloc::Global;

/// An entry of a query's statistics, made ready for many rows.
#[derive(Drop)]
pub enum ReadyEntry<'f> {
    /// How many rows a filter chooses.
    Count(ReadyFilter<'f>),
    /// What a column's numbers give together.
    Over(StatKind, Col),
}

impl ReadyEntry<'_> {
    /// What the statistic takes of each of some rows. The only error is out of memory.
    pub fn cells(
        &mut self,
        alloc: Global,
        sight: &Sight<'_>,
        rows: &[Row],
    ) -> Result<StatColumn, Memory>
        ensures cells { IfOk result (λ cells. column_cells cells
            ≡ map (λ row. stat_cell (seen_cells sight.now row) (entry_of_ready self.old))
            rows.now) }
        ensures same { entry_of_ready self.new ≡ entry_of_ready self.old }
    {
        match self {
            ReadyEntry::Count(filter) => counted_cells(alloc, filter, sight, rows),
            ReadyEntry::Over(_, column) => number_cells(alloc, sight, rows, *column),
        }
    }
}

/// The entries of a query made ready.
pub fn ready_entries(alloc: Global, stats: &[StatEntry]) -> Result<Vec<ReadyEntry<'_>>, Memory>
    ensures { IfOk result (λ entries. map entry_of_ready entries.items ≡ stats.now) }
{
    let mut entries = Vec::with_capacity(alloc, stats.len())?;
    for entry in stats {
        entries.push(ready_entry(alloc, entry)?)?;
    }
    Ok(entries)
}

fn ready_entry(alloc: Global, entry: &StatEntry) -> Result<ReadyEntry<'_>, Memory>
    ensures { IfOk result (λ ready. entry_of_ready ready ≡ entry.now) }
{
    match entry {
        StatEntry::Count(filter) => Ok(ReadyEntry::Count(filter.ready(alloc)?)),
        StatEntry::Over(kind, column) => Ok(ReadyEntry::Over(*kind, *column)),
    }
}

/// Whether the filter chooses a row, of each row.
fn counted_cells(
    alloc: Global,
    filter: &mut ReadyFilter<'_>,
    sight: &Sight<'_>,
    rows: &[Row],
) -> Result<StatColumn, Memory>
    ensures cells { IfOk result (λ cells. column_cells cells
        ≡ map (λ row. cell.Counted (holds (truth_on (seen_cells sight.now row)) filter.old))
        rows.now) }
    ensures same { filter.new ≡ filter.old }
{
    let marks = marks_of(alloc, filter, sight, rows)?;
    Ok(StatColumn::Marks(marks))
}

/// The number that each row has in a column.
fn number_cells(
    alloc: Global,
    sight: &Sight<'_>,
    rows: &[Row],
    column: Col,
) -> Result<StatColumn, Memory>
    ensures { IfOk result (λ cells. column_cells cells
        ≡ map (λ row. number_cell (seen_cells sight.now row column)) rows.now) }
{
    let mut numbers = Vec::with_capacity(alloc, rows.len())?;
    for row in rows {
        numbers.push(row_cell(alloc, sight, row, column)?)?;
    }
    Ok(StatColumn::Numbers(numbers))
}

/// The number that a statistic takes of a row.
fn row_cell(alloc: Global, sight: &Sight<'_>, row: &Row, column: Col) -> Result<i128, Memory>
    ensures { IfOk result (λ number.
        cell.Number number ≡ number_cell (seen_cells sight.now row.now column)) }
{
    match row_number(sight.live, row, column) {
        Some(number) => Ok(sized_number(number)),
        None => value_number(alloc, sight, row, column),
    }
}

/// The same for a number that isn't found without a value, as that of a counter.
#[inline(never)]
fn value_number(alloc: Global, sight: &Sight<'_>, row: &Row, column: Col) -> Result<i128, Memory>
    ensures { IfOk result (λ number.
        cell.Number number ≡ number_cell (seen_cells sight.now row.now column)) }
{
    let value = RowCells::of(sight.live, row, sight.view).value(alloc, column)?;
    Ok(number_of(&value))
}

/// The number that a value is, and 0 for any other.
fn number_of(value: &Val<'_>) -> i128
    ensures { cell.Number result ≡ number_cell (meaning_of value.now) }
{
    match value {
        Val::Int(number) => sized_number(*number),
        _ => 0,
    }
}

fn sized_number(number: i128) -> i128
    ensures { cell.Number result ≡ number_cell (Number number) }
{
    if number.unsigned_abs() <= 18_446_744_073_709_551_616 {
        number
    } else {
        0
    }
}
