ghost use Rattle.std.specs.Prelude.{◌≡◌, ◌+◌, ◌≤◌, Err, IfOk, false, filter, true};
ghost use Rattle.lq_statehist.specs.Notes.{lines_below};
ghost use Rattle.lq_tables.specs.Own.{HasIdsRising, IsOwn};
ghost use Rattle.lq_tables.specs.About.{row_line};
ghost use Rattle.lq_tables.specs.Rows.{are_too_many, is_history, rows_of, sees_entry, sees_row};
ghost use Rattle.lq_tables.specs.declared.rows_err.RowsErr.TheVariants.{TooMany};

use crate::about::{row_line, row_object};
use crate::history::history_rows;
use crate::listing::listed_rows;
use crate::row::Row;
use crate::rows_err::RowsErr;
use crate::window::Window;
use lq_auth::View;
use lq_events::LogEntry;
use lq_live::Live;
use lq_log::object_of;
use lq_records::{Base, Items};
use lq_schema::Table;
use lq_steps::Steps;
use std::alloc::Global;
use std::sync::ledger::Ledger;

/// Rows of a table, in order.
pub type Rows = Items<Row>;

/// The rows of a table that a query sees, in order: objects as the object file lists them,
/// downtimes and comments by their ids, the members of each group as the group lists them, the
/// slices of the histories of hosts and then of services, of each in the order of time. On the log
/// and on the histories the window says which seconds count; all other tables are as they are now.
///
/// A downtime, a comment and a slice are seen where their host or service is, a pair of a group and
/// an object where both are, a line of the log by `View::sees_line`. The row of each downtime, each
/// comment and each line is about that one, and the ids of downtimes and comments rise from row to
/// row.
///
/// `TooMany` exactly where they would be more than 1,000,000 slices; the only other error is out of
/// memory. For histories each line of the log before the window ends is one step, and one more; no
/// other table takes a step.
pub fn rows<G: Ledger>(
    alloc: Global,
    live: &Live,
    t: Table,
    w: &Window,
    view: &View,
    steps: &mut Steps<G>,
) -> Result<Rows, RowsErr>
    ensures all { IfOk result (λ rows. rows ≡ rows_of live.now.state view.now w.now t) }
    ensures own { IfOk result (λ rows. IsOwn live.now.state view.now w.now t rows) }
    ensures ids { IfOk result (λ rows. HasIdsRising live.now.state t rows) }
    ensures few { IfOk result (λ rows. are_too_many live.now.state view.now w.now t ≡ false) }
    ensures many { result ≡ Err TooMany → are_too_many live.now.state view.now w.now t ≡ true }
    ensures cost { steps.new ≤ steps.old + lines_below w.now.until live.now.state.log + 1 }
    ensures still { is_history t ≡ false → steps.new ≡ steps.old }
{
    match listed_rows(alloc, live, t, w)? {
        Some(rows) => Ok(seen_of(rows, live, view)),
        None => Ok(Items::from_vec(history_rows(alloc, live, w, view, steps)?)),
    }
}

/// Those of some rows that a query sees.
fn seen_of(rows: Vec<Row>, live: &Live, view: &View) -> Rows
    ensures { result ≡ filter (sees_row live.now.state view.now) rows.items }
{
    let mut rows = rows;
    keep_seen(&mut rows, live, view);
    Items::from_vec(rows)
}

/// Keeps the rows that a query sees.
fn keep_seen(rows: &mut Vec<Row>, live: &Live, view: &View)
    ensures { rows.new.items ≡ filter (sees_row live.now.state view.now) rows.old.items }
{
    match view {
        View::All => {}
        View::Only(_) => drop_hidden(rows, live, view),
    }
}

fn drop_hidden(rows: &mut Vec<Row>, live: &Live, view: &View)
    ensures { rows.new.items ≡ filter (sees_row live.now.state view.now) rows.old.items }
{
    rows.retain(|row| sees_row(live, view, row));
}

/// Whether a query sees a row.
fn sees_row(live: &Live, view: &View, row: &Row) -> bool
    ensures { result ≡ sees_row live.now.state view.now row.now }
{
    match row {
        Row::HostGroup(id) => view.sees_host_group(*id),
        Row::ServiceGroup(id) => view.sees_service_group(*id),
        Row::HostOf(group, id) => view.sees_host_group(*group) && view.sees_host(*id),
        Row::ServiceOf(group, id) => view.sees_service_group(*group) && view.sees_service(*id),
        Row::GroupService(group, id) => view.sees_host_group(*group) && view.sees_service(*id),
        Row::Line(_) => match row_line(live, row) {
            Some(entry) => sees_entry(live.base(), view, entry),
            None => true,
        },
        _ => match row_object(live, row) {
            Some(object) => view.sees_object(object),
            None => true,
        },
    }
}

/// Whether a query sees a line of the log.
fn sees_entry(base: &Base, view: &View, entry: &LogEntry) -> bool
    ensures { result ≡ sees_entry base.now view.now entry.now }
{
    view.sees_line(object_of(base, entry), entry)
}
