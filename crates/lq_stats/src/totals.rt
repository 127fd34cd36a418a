ghost use Rattle.std.specs.Prelude.{◌≡◌, [], All, IfOk, length, map};
ghost use Rattle.std.specs.List.{AllByRecursion};
ghost use Rattle.lq_schema.specs.Value.{meaning_of};
ghost use Rattle.lq_stats.specs.Columns.{column_cells, with_stat_columns};
ghost use Rattle.lq_stats.specs.Totals.{HasRoomForRows, IsSized, IsSmall, total_of, total_value};
ghost use Rattle.lq_stats.specs.Totals.{with_cells};

use crate::cell::StatCell;
use crate::column::StatColumn;
use crate::kind::StatKind;
use crate::total::Total;
use lq_records::{Items, Memory};
use lq_schema::Val;
use std::alloc::Global;
use std::marker::Model;

/// What is kept of the rows of a group, for each statistic. Contracts see it as a list.
#[derive(Drop)]
pub struct Totals {
    each: Vec<Total>,
}

impl Model for Totals {
    ghost use Rattle.std.specs.Prelude.{List};
    ghost use Rattle.lq_stats.specs.declared.total.Total.{Total};

    ghost Value = { List Total };

    ghost view = { λ totals. totals.each.items };
}

impl Totals {
    /// What is kept of no rows. The only error is out of memory.
    pub fn new(alloc: Global, kinds: &[StatKind]) -> Result<Totals, Memory>
        ensures { IfOk result (λ totals. totals ≡ map (λ kind. total_of kind []) kinds.now) }
    {
        Ok(Totals {
            each: kinds.iter().map(|kind| Total::new(*kind)).collect(alloc)?,
        })
    }

    /// Adds a cell to each statistic.
    pub fn add(&mut self, cells: &[StatCell])
        requires same_length { length cells.now ≡ length self.old }
        requires small { All IsSmall self.old }
        requires sized { All IsSized cells.now }
        ensures { self.new ≡ with_cells self.old cells.now }
    {
        add_cells(self.each.as_mut_slice(), cells);
    }

    /// Adds to each statistic the cells of the marked rows, of which it has a column.
    pub fn add_columns(&mut self, marks: &[bool], columns: &[StatColumn])
        requires same_length { length columns.now ≡ length self.old }
        requires room { All (HasRoomForRows (length marks.now)) self.old }
        requires long { All (λ column. length (column_cells column) ≡ length marks.now)
            columns.now }
        requires sized { All (λ column. AllByRecursion IsSized (column_cells column)) columns.now }
        ensures { self.new ≡ with_stat_columns marks.now self.old (map column_cells columns.now) }
    {
        add_columns(self.each.as_mut_slice(), marks, columns);
    }

    /// The values of the statistics. The only error is out of memory.
    pub fn values(&self, alloc: Global) -> Result<Items<Val<'static>>, Memory>
        requires { All IsSmall self.now }
        ensures { IfOk result (λ values. map meaning_of values ≡ map total_value self.now) }
    {
        values_of(alloc, self.each.as_slice())
    }
}

fn add_cells(totals: &mut [Total], cells: &[StatCell])
    requires same_length { length cells.now ≡ length totals.old }
    requires small { All IsSmall totals.old }
    requires sized { All IsSized cells.now }
    ensures { totals.new ≡ with_cells totals.old cells.now }
{
    for (i, cell) in cells.iter().enumerate() {
        totals[i] = totals[i].with(*cell);
    }
}

fn add_columns(totals: &mut [Total], marks: &[bool], columns: &[StatColumn])
    requires same_length { length columns.now ≡ length totals.old }
    requires room { All (HasRoomForRows (length marks.now)) totals.old }
    requires long { All (λ column. length (column_cells column) ≡ length marks.now) columns.now }
    requires sized { All (λ column. AllByRecursion IsSized (column_cells column)) columns.now }
    ensures { totals.new ≡ with_stat_columns marks.now totals.old (map column_cells columns.now) }
{
    for (i, column) in columns.iter().enumerate() {
        totals[i] = totals[i].with_column(marks, column);
    }
}

fn values_of(alloc: Global, totals: &[Total]) -> Result<Items<Val<'static>>, Memory>
    requires { All IsSmall totals.now }
    ensures { IfOk result (λ values. map meaning_of values ≡ map total_value totals.now) }
{
    let mut values = Items::default();
    for total in totals {
        values.push(alloc, total.value())?;
    }
    Ok(values)
}
