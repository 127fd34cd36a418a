ghost use Rattle.std.specs.Prelude.{◌≡◌, ◌+◌, ◌<◌, ◌^◌, ◌++◌, ◌∷◌, [], All, IfOk, IfSome, List};
ghost use Rattle.std.specs.Prelude.{None, OnErr, OnOk, Some, ◌≤◌, count_by, length, map, position};
ghost use Rattle.std.specs.Prelude.{slice_get, slice_index_or, slice_set};
ghost use Rattle.std.specs.List.{AllByRecursion, AllZip};
ghost use Rattle.lq_schema.specs.Value.{meaning_of};
ghost use Rattle.lq_stats.specs.Columns.{IsColumnOf, column_cells, marked_rows, with_stat_columns};
ghost use Rattle.lq_stats.specs.Groups.{IsCellOf, Row, keys_of, stat_lines, same_key, shown_line};
ghost use Rattle.lq_stats.specs.Grouped.{AreGroupsOf, with_row_in_new_group, kept_lines};
ghost use Rattle.lq_stats.specs.Grouped.{with_row_in_group, totals_of};
ghost use Rattle.lq_stats.specs.Keys.{key_values};
ghost use Rattle.lq_stats.specs.Totals.{HasRoomForRows, IsSized, IsSmall, total_of, with_cells};

use crate::cell::StatCell;
use crate::column::StatColumn;
use crate::key::KeyCell;
use crate::key_set::KeySet;
use crate::kind::StatKind;
use crate::spec::{StatLine, StatsSpec};
use crate::totals::Totals;
use lq_records::{Items, Memory};
use lq_schema::Val;
use std::alloc::{AllocError, Global};
use std::marker::Model;
use std::mem;

/// Statistics over rows that are counted one after another. Rows with the same key are one group.
///
/// To count a row, give `key` each cell of its key and then `take` the cells of its statistics.
/// Without columns `take_marked` counts many rows at once. After an error everything is as it was
/// before the call.
pub struct Groups {
    spec: StatsSpec,
    /// The key so far of the next row.
    next: Vec<KeyCell>,
    /// The key of each group. Without columns this is the one empty key.
    keys: KeySet,
    /// What is kept of the rows of each group.
    totals: Vec<Totals>,
    /// How many rows were counted.
    count: u64,
}

// Written by hand: where one is dropped a proof then meets a call, and not each of the fields.
impl Drop for Groups {
    fn drop(self) {
        let Groups {
            spec: _spec,
            next: _next,
            keys: _keys,
            totals: _totals,
            count: _count,
        } = self;
    }
}

impl Model for Groups {
    ghost use Rattle.lq_stats.specs.Grouped.{Grouped, HasRows};
    ghost use Rattle.lq_stats.specs.Keys.{key_values};

    ghost Value = { Grouped };

    ghost view = { λ groups. record {
      spec = groups.spec;
      next = key_values groups.next.items;
      keys = groups.keys;
      totals = groups.totals.items;
      count = groups.count;
    } };

    ghost invariant = { λ groups. HasRows (record {
      spec = groups.spec;
      next = key_values groups.next.items;
      keys = groups.keys;
      totals = groups.totals.items;
      count = groups.count;
    }) };
}

impl Groups {
    /// The groups of no rows. The only error is out of memory.
    pub fn new(alloc: Global, spec: &StatsSpec) -> Result<Groups, Memory>
        ensures groups { IfOk result (λ groups. AreGroupsOf groups []) }
        ensures spec { IfOk result (λ groups. groups.spec ≡ spec.now) }
        ensures next { IfOk result (λ groups. groups.next ≡ []) }
    {
        let (keys, totals) = first_groups(alloc, spec)?;
        Ok(Groups {
            spec: copy_of(alloc, spec)?,
            next: Vec::new(alloc),
            keys,
            totals,
            count: 0,
        })
    }

    /// Adds a cell to the key of the next row, which has fewer cells than there are columns. The
    /// only error is out of memory.
    pub fn key(&mut self, value: &Val<'_>) -> Result<(), Memory>
        requires { length self.old.next < self.old.spec.keys }
        ensures groups { (rows : List Row) → AreGroupsOf self.old rows → AreGroupsOf self.new rows }
        ensures spec { self.new.spec ≡ self.old.spec }
        ensures next { OnOk result (self.new.next ≡ self.old.next ++ meaning_of value.now ∷ []) }
        ensures count { self.new.count ≡ self.old.count }
        ensures err { OnErr result (self.new ≡ self.old) }
    {
        let cell = KeyCell::new(*self.next.allocator(), value)?;
        self.next.push(cell)?;
        Ok(())
    }

    /// Counts the row with that key, after which the next key is empty.
    ///
    /// The key has a cell for each column, and there is a cell for each statistic: `Counted` for
    /// `StatKind::Count`, else a number that is at most 2^64 away from zero. Fewer than 2^40 rows
    /// were counted before. The only error is out of memory.
    pub fn take(&mut self, cells: &[StatCell]) -> Result<(), Memory>
        requires key { length self.old.next ≡ self.old.spec.keys }
        requires cells { AllZip IsCellOf self.old.spec.entries cells.now }
        requires few { self.old.count < 2 ^ 40 }
        ensures groups { (rows : List Row) → AreGroupsOf self.old rows → OnOk result (AreGroupsOf
            self.new (rows ++ record { key = self.old.next; cells = cells.now } ∷ [])) }
        ensures spec { self.new.spec ≡ self.old.spec }
        ensures next { OnOk result (self.new.next ≡ []) }
        ensures count { OnOk result (self.new.count ≡ self.old.count + 1) }
        ensures err { OnErr result (self.new ≡ self.old) }
    {
        match self.place() {
            Some(place) => {
                self.raise(place, cells);
                Ok(())
            }
            None => self.add(cells),
        }
    }

    /// Counts the marked rows of statistics without columns, of which each has a column of cells.
    ///
    /// No key is begun, and each column is one that its statistic takes: as many cells as there are
    /// marks, which are `Counted` for `StatKind::Count`, else numbers that are at most 2^64 away
    /// from zero. At most 2^40 rows are counted in all. It takes no memory.
    pub fn take_marked(&mut self, marks: &[bool], columns: &[StatColumn])
        requires keys { self.old.spec.keys ≡ 0 }
        requires next { self.old.next ≡ [] }
        requires columns { AllZip (IsColumnOf (length marks.now)) self.old.spec.entries
            (map column_cells columns.now) }
        requires few { self.old.count + length marks.now ≤ 2 ^ 40 }
        ensures groups { (rows : List Row) → AreGroupsOf self.old rows → AreGroupsOf self.new
            (rows ++ marked_rows 0 marks.now (map column_cells columns.now)) }
        ensures spec { self.new.spec ≡ self.old.spec }
        ensures next { self.new.next ≡ [] }
        ensures count { self.new.count ≡ self.old.count + count_by (λ mark. mark) marks.now }
    {
        add_marked(&mut self.totals, marks, columns);
        self.count += count_of(marks);
    }

    /// The groups, in the order in which each had its first row. The only error is that memory
    /// runs out.
    pub fn lines(&self) -> Result<Items<StatLine>, Memory>
        ensures { (rows : List Row) → AreGroupsOf self.now rows → IfOk result
            (λ lines. map shown_line lines ≡ stat_lines self.now.spec rows) }
    {
        kept_lines(*self.next.allocator(), &self.keys, &self.totals)
    }

    /// Where the group of the next row stands.
    fn place(&self) -> Option<usize>
        requires { length self.now.next ≡ self.now.spec.keys }
        ensures value { result ≡ position (same_key self.now.next) self.now.keys }
        ensures within { IfSome result (λ place. place < length self.now.keys) }
    {
        place_of(&self.keys, self.spec.keys, &self.next)
    }

    /// Counts the next row in the group in a place, which is its group.
    fn raise(&mut self, place: usize, cells: &[StatCell])
        requires place { position (same_key self.old.next) self.old.keys ≡ Some place }
        requires cells { AllZip IsCellOf self.old.spec.entries cells.now }
        requires few { self.old.count < 2 ^ 40 }
        ensures { self.new ≡ with_row_in_group self.old place cells.now }
    {
        add_row(&mut self.totals, place, cells);
        self.next.clear();
        self.count += 1;
    }

    /// Counts the next row in a group of its own, which has no row yet.
    fn add(&mut self, cells: &[StatCell]) -> Result<(), Memory>
        requires place { position (same_key self.old.next) self.old.keys ≡ None }
        requires cells { AllZip IsCellOf self.old.spec.entries cells.now }
        requires few { self.old.count < 2 ^ 40 }
        ensures ok { OnOk result (self.new ≡ with_row_in_new_group self.old cells.now) }
        ensures err { OnErr result (self.new ≡ self.old) }
    {
        let first = totals_of_row(*self.next.allocator(), self.spec.entries.as_slice(), cells)?;
        push_group(&mut self.keys, &mut self.totals, &mut self.next, first)?;
        self.count += 1;
        Ok(())
    }
}

fn copy_of(alloc: Global, spec: &StatsSpec) -> Result<StatsSpec, Memory>
    ensures { IfOk result (λ copy. copy ≡ spec.now) }
{
    Ok(StatsSpec {
        keys: spec.keys,
        entries: Items::from_vec(Vec::from_slice(alloc, spec.entries.as_slice())?),
    })
}

/// The groups of no rows: without columns there is one, with the empty key. The only error is that
/// memory runs out.
fn first_groups(alloc: Global, spec: &StatsSpec) -> Result<(KeySet, Vec<Totals>), Memory>
    ensures keys { IfOk result (λ groups. groups.0 ≡ keys_of spec.now.keys []) }
    ensures totals { IfOk result (λ groups. groups.1.items ≡ totals_of spec.now []) }
{
    let mut keys = KeySet::new(alloc);
    let mut totals = Vec::new(alloc);
    if spec.keys > 0 {
        return Ok((keys, totals));
    }
    let fresh = Totals::new(alloc, spec.entries.as_slice())?;
    push_group(&mut keys, &mut totals, &mut Vec::new(alloc), fresh)?;
    Ok((keys, totals))
}

/// Where the group with a key stands. Without columns no key is looked up.
fn place_of(keys: &KeySet, columns: usize, key: &[KeyCell]) -> Option<usize>
    requires long { length key.now ≡ columns }
    requires empty { columns ≡ 0 → slice_get keys.now 0 ≡ Some [] }
    ensures value { result ≡ position (same_key (key_values key.now)) keys.now }
    ensures within { IfSome result (λ place. place < length keys.now) }
{
    if columns == 0 {
        return Some(0);
    }
    keys.place(key)
}

/// Adds a row to what is kept of the group in a place.
fn add_row(totals: &mut Vec<Totals>, place: usize, cells: &[StatCell])
    requires place { place < length totals.old.items }
    requires long { All (λ each. length cells.now ≡ length each) totals.old.items }
    requires small { All (All IsSmall) totals.old.items }
    requires sized { All IsSized cells.now }
    ensures { totals.new.items ≡ slice_set totals.old.items place
        (with_cells (slice_index_or totals.old.items place []) cells.now) }
{
    totals[place].add(cells);
}

/// Adds the marked rows to what is kept of the first group.
fn add_marked(totals: &mut Vec<Totals>, marks: &[bool], columns: &[StatColumn])
    requires some { 0 < length totals.old.items }
    requires count { All (λ each. length columns.now ≡ length each) totals.old.items }
    requires room { All (All (HasRoomForRows (length marks.now))) totals.old.items }
    requires long { All (λ column. length (column_cells column) ≡ length marks.now) columns.now }
    requires sized { All (λ column. AllByRecursion IsSized (column_cells column)) columns.now }
    ensures { totals.new.items ≡ slice_set totals.old.items 0 (with_stat_columns marks.now
        (slice_index_or totals.old.items 0 []) (map column_cells columns.now)) }
{
    totals[0].add_columns(marks, columns);
}

/// How many rows are marked, without a branch in the loop.
fn count_of(marks: &[bool]) -> u64
    ensures { result ≡ count_by (λ mark. mark) marks.now }
{
    let mut count = 0;
    for mark in marks {
        count += u64::from(*mark);
    }
    count
}

/// What is kept of one row. The only error is out of memory.
fn totals_of_row(alloc: Global, kinds: &[StatKind], cells: &[StatCell]) -> Result<Totals, Memory>
    requires long { length cells.now ≡ length kinds.now }
    requires sized { All IsSized cells.now }
    ensures { IfOk result (λ totals. totals
        ≡ with_cells (map (λ kind. total_of kind []) kinds.now) cells.now) }
{
    let mut totals = Totals::new(alloc, kinds)?;
    totals.add(cells);
    Ok(totals)
}

/// Adds a group whose key isn't there yet, after which the next key is empty. Where memory runs
/// out, all three are as they were.
fn push_group(
    keys: &mut KeySet,
    totals: &mut Vec<Totals>,
    next: &mut Vec<KeyCell>,
    fresh: Totals,
) -> Result<(), Memory>
    requires { position (same_key (key_values next.old.items)) keys.old ≡ None }
    ensures keys { OnOk result (keys.new ≡ keys.old ++ key_values next.old.items ∷ []) }
    ensures totals { OnOk result (totals.new.items ≡ totals.old.items ++ fresh ∷ []) }
    ensures next { OnOk result (next.new.items ≡ []) }
    ensures keys_err { OnErr result (keys.new ≡ keys.old) }
    ensures totals_err { OnErr result (totals.new.items ≡ totals.old.items) }
    ensures next_err { OnErr result (next.new.items ≡ next.old.items) }
{
    let alloc = *next.allocator();
    totals.push(fresh)?;
    let key = mem::replace(next, Vec::new(alloc));
    if let Err(key) = keys.push(key) {
        *next = key;
        totals.pop();
        return Err(AllocError);
    }
    Ok(())
}

/// The lines of groups. The only error is out of memory.
fn kept_lines(alloc: Global, keys: &KeySet, totals: &[Totals]) -> Result<Items<StatLine>, Memory>
    requires long { length totals.now ≡ length keys.now }
    requires small { All (All IsSmall) totals.now }
    ensures { IfOk result (λ lines. map shown_line lines ≡ kept_lines keys.now totals.now) }
{
    let mut lines = Items::default();
    for (place, group) in totals.iter().enumerate() {
        let line = StatLine {
            keys: values_of(alloc, keys.get(place))?,
            values: group.values(alloc)?,
        };
        lines.push(alloc, line)?;
    }
    Ok(lines)
}

/// The values of a key. The only error is out of memory.
fn values_of(alloc: Global, key: &[KeyCell]) -> Result<Items<Val<'static>>, Memory>
    ensures { IfOk result (λ values. map meaning_of values ≡ key_values key.now) }
{
    let mut values = Items::default();
    for cell in key {
        values.push(alloc, cell.to_value(alloc)?)?;
    }
    Ok(values)
}
