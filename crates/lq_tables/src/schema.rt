ghost use Rattle.std.specs.Prelude.{◌≡◌, ◌≤◌, length};
ghost use Rattle.std.specs.List.{flat_map, slice_get};
ghost use Rattle.lq_schema.specs.Schema.{tables};
ghost use Rattle.lq_tables.specs.Schema.{entries_of, schema};

use lq_schema::{Col, Table, column_at, column_count, tables};

/// A column of a table.
#[derive(Clone, Copy)]
pub(crate) struct Entry {
    pub(crate) table: Table,
    pub(crate) column: Col,
}

/// How many columns all tables have together.
pub(crate) fn entry_count() -> u64
    ensures { result ≡ length schema }
{
    count_in(tables())
}

/// The column at a place among all columns of all tables. None after the last one.
pub(crate) fn entry_at(place: u64) -> Option<Entry>
    ensures { result ≡ slice_get schema place }
{
    entry_in(tables(), place)
}

/// How many columns some tables have together.
#[tactic(auto, using(crate::proofs::Entries::few))]
fn count_in(tables: &[Table]) -> u64
    requires { length tables.now ≤ 17 }
    ensures { result ≡ length (flat_map entries_of tables.now) }
{
    let mut count = 0;
    for table in tables {
        count += column_count(*table) as u64;
    }
    count
}

/// The column at a place among those of some tables.
fn entry_in(tables: &[Table], place: u64) -> Option<Entry>
    ensures { result ≡ slice_get (flat_map entries_of tables.now) place }
{
    let mut rest = place;
    for table in tables {
        let count = column_count(*table) as u64;
        if rest < count {
            return Some(Entry {
                table: *table,
                column: column_at(*table, rest as usize),
            });
        }
        rest -= count;
    }
    None
}
