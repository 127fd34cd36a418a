//! The rows of the table of histories.

ghost use Rattle.std.specs.Prelude.{◌≡◌, ◌<◌, ◌≤◌, ◌+◌, Err, IfOk, length, map};
ghost use Rattle.lq_schema.specs.declared.columns.Table.TheVariants as table;
ghost use Rattle.lq_statehist.specs.Notes.{lines_below};
ghost use Rattle.lq_statehist.specs.Slices.{most_slices};
ghost use Rattle.lq_tables.specs.Rows.{history_row, rows_of};
ghost use Rattle.lq_tables.specs.declared.rows_err.RowsErr.TheVariants.{TooMany};

use crate::history_row::{BoxedHistoryRow, HistoryRow};
use crate::row::Row;
use crate::rows_err::RowsErr;
use crate::window::Window;
use lq_auth::View;
use lq_live::Live;
use lq_records::Memory;
use lq_statehist::{HistErr, Slice, slices};
use lq_steps::Steps;
use std::alloc::Global;
use std::sync::ledger::Ledger;

/// The slices of the histories of the objects that a query sees, over the interval of a window:
/// hosts, then services, in the order of the base, and of each its slices in the order of time.
/// `TooMany` exactly where they are more than 1,000,000.
pub(crate) fn history_rows<G: Ledger>(
    alloc: Global,
    live: &Live,
    window: &Window,
    view: &View,
    steps: &mut Steps<G>,
) -> Result<Vec<Row>, RowsErr>
    ensures all { IfOk result (λ rows.
        rows.items ≡ rows_of live.now.state view.now window.now table.StateHist) }
    ensures few { IfOk result (λ rows. length rows.items ≤ most_slices) }
    ensures many { result ≡ Err TooMany
        → most_slices < length (rows_of live.now.state view.now window.now table.StateHist) }
    ensures cost { steps.new ≤ steps.old + lines_below window.now.until live.now.state.log + 1 }
{
    match slices(alloc, live, view, window.from, window.until, steps) {
        Ok(slices) => Ok(slice_rows(alloc, window, &slices)?),
        Err(HistErr::TooMany) => Err(RowsErr::TooMany),
        Err(HistErr::Memory) => Err(RowsErr::Memory),
    }
}

/// The rows of some slices. The only error is out of memory.
fn slice_rows(alloc: Global, window: &Window, slices: &[Slice]) -> Result<Vec<Row>, Memory>
    ensures { IfOk result (λ rows. rows.items ≡ map (history_row window.now) slices.now) }
{
    let mut rows = Vec::with_capacity(alloc, slices.len())?;
    for slice in slices {
        rows.push(slice_row(alloc, window, *slice)?)?;
    }
    Ok(rows)
}

/// The row of a slice, which lies on the heap. The only error is out of memory.
fn slice_row(alloc: Global, window: &Window, slice: Slice) -> Result<Row, Memory>
    ensures { IfOk result (λ row. row ≡ history_row window.now slice) }
{
    let row = HistoryRow {
        slice,
        from: window.from,
        until: window.until,
    };
    Ok(Row::Slice(BoxedHistoryRow::new(alloc, row)?))
}
