ghost use Rattle.std.specs.Prelude.{◌≡◌, ℕ, ◌+◌, ◌<◌, ◌≤◌, ◌^◌, ◌∷◌, ◌++◌, [], All, Err, IfOk};
ghost use Rattle.std.specs.Prelude.{None, OnErr, OnOk, IfSome, length, map, take};
ghost use Rattle.std.specs.List.{AllByRecursion, AllZip};
ghost use Rattle.lq_output.specs.declared.error.WriteErr.TheVariants.{TooLarge};
ghost use Rattle.lq_request.specs.Stats.{IsStat};
ghost use Rattle.lq_stats.specs.Columns.{IsColumnOf, cells_at, column_cells};
ghost use Rattle.lq_stats.specs.Grouped.{AreGroupsOf};
ghost use Rattle.lq_stats.specs.Groups.{IsCellOf, shown_line};
ghost use Rattle.lq_tables.specs.Cells.{cell_of};
ghost use Rattle.lq_query.specs.Answer.{first_lines};
ghost use Rattle.lq_query.specs.Counting.{Counts, counted_from, entry_of_ready};
ghost use Rattle.lq_query.specs.Groups.{group_lines, line_cells, stat_cell, stat_kind, stats_row};
ghost use Rattle.lq_query.specs.Groups.{stats_spec};
ghost use Rattle.lq_query.specs.Lines.{HasLines, IsTooLarge, seen_cells, rows_with_marks};
ghost use Rattle.lq_query.specs.Rows.{chosen_rows, row_cells};

use crate::entry::{ReadyEntry, ready_entries};
use crate::line::push_line;
use crate::page::{Page, block_end, has_mark};
use crate::selection::marks_of;
use lq_filter::ReadyFilter;
use lq_output::{WriteErr, Writer};
use lq_records::{Items, Memory};
use lq_request::{Request, StatEntry};
use lq_stats::{Groups, StatCell, StatColumn, StatKind, StatLine, StatsSpec};
use lq_tables::{Row, RowCells};
use std::alloc::{AllocError, Global};

/// The most rows that are counted. No table has nearly as many.
const MOST_ROWS: usize = 1_099_511_627_776;

/// What rows are counted by.
struct Tally<'f> {
    /// The filter that chooses them.
    filter: ReadyFilter<'f>,
    /// What is taken of each.
    entries: Vec<ReadyEntry<'f>>,
}

// Written by hand: where one is dropped a proof then meets a call, and not each of the fields.
impl Drop for Tally<'_> {
    fn drop(self) {
        let Tally {
            filter: _filter,
            entries: _entries,
        } = self;
    }
}

impl Page<'_> {
    /// Adds a line for each group of the rows that the query's filter chooses, as many as it shows.
    pub fn push_groups(
        &self,
        writer: &mut Writer,
        request: &Request,
        rows: &[Row],
    ) -> Result<(), WriteErr>
        requires columns { self.now.columns.now ≡ request.now.columns }
        requires some { 0 < length request.now.stats }
        requires stats { All IsStat request.now.stats }
        ensures lines { OnOk result (HasLines writer.old writer.new (first_lines request.now.limit
            (group_lines request.now.columns request.now.stats
            (chosen_rows request.now.filter (map (seen_cells self.now.sight) rows.now))))) }
        ensures large { result ≡ Err TooLarge → IsTooLarge writer.old (first_lines request.now.limit
            (group_lines request.now.columns request.now.stats
            (chosen_rows request.now.filter (map (seen_cells self.now.sight) rows.now)))) }
    {
        let lines = self.groups(request, rows)?.lines()?;
        push_group_lines(writer, first_of_lines(lines.as_slice(), request.limit))
    }

    /// The groups of the rows that the query's filter chooses.
    fn groups(&self, request: &Request, rows: &[Row]) -> Result<Groups, Memory>
        requires columns { self.now.columns.now ≡ request.now.columns }
        requires stats { All IsStat request.now.stats }
        ensures groups { IfOk result (λ groups. AreGroupsOf groups
            (map (stats_row request.now.columns request.now.stats)
            (chosen_rows request.now.filter (map (seen_cells self.now.sight) rows.now)))) }
        ensures spec { IfOk result
            (λ groups. groups.spec ≡ stats_spec request.now.columns request.now.stats) }
    {
        let mut tally = Tally {
            filter: request.filter.ready(self.alloc)?,
            entries: ready_entries(self.alloc, request.stats.as_slice())?,
        };
        let mut groups = new_groups(self.alloc, self.columns.len(), request.stats.as_slice())?;
        if rows.len() > MOST_ROWS {
            return Err(AllocError);
        }
        self.count(&mut groups, &mut tally, rows)?;
        Ok(groups)
    }

    /// Counts the rows that the filter chooses, block by block.
    fn count(&self, groups: &mut Groups, tally: &mut Tally<'_>, rows: &[Row]) -> Result<(), Memory>
        requires next { groups.old.next ≡ [] }
        requires spec { groups.old.spec
            ≡ stats_spec self.now.columns.now (map entry_of_ready tally.old.entries.items) }
        requires stats { All IsStat (map entry_of_ready tally.old.entries.items) }
        requires few { groups.old.count + length rows.now ≤ 2 ^ 40 }
        ensures { OnOk result (Counts groups.old groups.new
            (map (stats_row self.now.columns.now (map entry_of_ready tally.old.entries.items))
            (chosen_rows tally.old.filter (map (seen_cells self.now.sight) rows.now)))) }
    {
        let mut at = 0;
        'blocks: while at < rows.len() {
            let end = block_end(at, rows.len());
            self.count_block(groups, tally, &rows[at..end])?;
            at = end;
        }
        Ok(())
    }

    /// Counts the rows of a block that the filter chooses.
    fn count_block(
        &self,
        groups: &mut Groups,
        tally: &mut Tally<'_>,
        rows: &[Row],
    ) -> Result<(), Memory>
        requires next { groups.old.next ≡ [] }
        requires spec { groups.old.spec
            ≡ stats_spec self.now.columns.now (map entry_of_ready tally.old.entries.items) }
        requires stats { All IsStat (map entry_of_ready tally.old.entries.items) }
        requires few { groups.old.count + length rows.now ≤ 2 ^ 40 }
        ensures counts { OnOk result (Counts groups.old groups.new
            (map (stats_row self.now.columns.now (map entry_of_ready tally.old.entries.items))
            (chosen_rows tally.old.filter (map (seen_cells self.now.sight) rows.now)))) }
        ensures filter { tally.new.filter ≡ tally.old.filter }
        ensures entries { map entry_of_ready tally.new.entries.items
            ≡ map entry_of_ready tally.old.entries.items }
    {
        let marks = marks_of(self.alloc, &mut tally.filter, &self.sight, rows)?;
        if !has_mark(&marks) {
            return Ok(());
        }
        let cells = self.cells(&mut tally.entries, rows)?;
        self.count_marked(groups, rows, &marks, &cells)
    }

    /// What each entry takes of each row of a block.
    fn cells(&self, entries: &mut [ReadyEntry<'_>], rows: &[Row]) -> Result<Vec<StatColumn>, Memory>
        ensures cells { IfOk result (λ cells. map column_cells cells.items
            ≡ map (λ entry. map (λ row. stat_cell (seen_cells self.now.sight row) entry)
            rows.now) (map entry_of_ready entries.old)) }
        ensures same { map entry_of_ready entries.new ≡ map entry_of_ready entries.old }
    {
        let mut cells = Vec::with_capacity(self.alloc, entries.len())?;
        for place in 0..entries.len() {
            cells.push(entries[place].cells(self.alloc, &self.sight, rows)?)?;
        }
        Ok(cells)
    }

    /// Counts the rows that are marked. Without columns they are of one group, and each statistic
    /// takes its cells of all of them at once.
    fn count_marked(
        &self,
        groups: &mut Groups,
        rows: &[Row],
        marks: &[bool],
        cells: &[StatColumn],
    ) -> Result<(), Memory>
        requires next { groups.old.next ≡ [] }
        requires keys { groups.old.spec.keys ≡ length self.now.columns.now }
        requires marks { length marks.now ≡ length rows.now }
        requires taken { AllZip (IsColumnOf (length rows.now)) groups.old.spec.entries
            (map column_cells cells.now) }
        requires few { groups.old.count + length rows.now ≤ 2 ^ 40 }
        ensures { OnOk result (Counts groups.old groups.new (counted_from
            (λ row. row_cells self.now.columns.now (seen_cells self.now.sight row))
            0 marks.now rows.now (map column_cells cells.now))) }
    {
        if self.columns.is_empty() {
            groups.take_marked(marks, cells);
            return Ok(());
        }
        self.count_each(groups, rows, marks, cells)
    }

    /// The same row by row.
    fn count_each(
        &self,
        groups: &mut Groups,
        rows: &[Row],
        marks: &[bool],
        cells: &[StatColumn],
    ) -> Result<(), Memory>
        requires next { groups.old.next ≡ [] }
        requires keys { groups.old.spec.keys ≡ length self.now.columns.now }
        requires marks { length marks.now ≡ length rows.now }
        requires taken { (place : ℕ) → place < length rows.now → AllZip IsCellOf
            groups.old.spec.entries (cells_at place (map column_cells cells.now)) }
        requires few { groups.old.count + length rows.now ≤ 2 ^ 40 }
        ensures { OnOk result (Counts groups.old groups.new (counted_from
            (λ row. row_cells self.now.columns.now (seen_cells self.now.sight row))
            0 marks.now rows.now (map column_cells cells.now))) }
    {
        let mut taken = Vec::with_capacity(self.alloc, cells.len())?;
        for place in 0..rows.len() {
            if marks[place] {
                take_cells(cells, place, &mut taken)?;
                self.count_row(groups, &rows[place], &taken)?;
            }
        }
        Ok(())
    }

    /// Counts a row, of which the statistics take these cells.
    fn count_row(&self, groups: &mut Groups, row: &Row, cells: &[StatCell]) -> Result<(), Memory>
        requires next { groups.old.next ≡ [] }
        requires keys { groups.old.spec.keys ≡ length self.now.columns.now }
        requires cells { AllZip IsCellOf groups.old.spec.entries cells.now }
        requires few { groups.old.count < 2 ^ 40 }
        ensures { OnOk result (Counts groups.old groups.new (record {
          key = row_cells self.now.columns.now (seen_cells self.now.sight row.now);
          cells = cells.now;
        } ∷ [])) }
    {
        let shown = RowCells::of(self.sight.live, row, self.sight.view);
        for column in self.columns {
            let value = shown.value(self.alloc, column.column())?;
            groups.key(&value)?;
        }
        groups.take(cells)
    }
}

/// The cells in a place, one of each column.
fn take_cells(columns: &[StatColumn], place: usize, taken: &mut Vec<StatCell>) -> Result<(), Memory>
    ensures { OnOk result
        (taken.new.items ≡ cells_at place (map column_cells columns.now)) }
{
    taken.clear();
    for column in columns {
        if let Some(cell) = column.get(place) {
            taken.push(cell)?;
        }
    }
    Ok(())
}

/// The groups of no rows.
fn new_groups(alloc: Global, keys: usize, stats: &[StatEntry]) -> Result<Groups, Memory>
    ensures groups { IfOk result (λ groups. AreGroupsOf groups []) }
    ensures spec { IfOk result (λ groups. groups.spec
        ≡ record { keys = keys; entries = map stat_kind stats.now }) }
    ensures next { IfOk result (λ groups. groups.next ≡ []) }
{
    let mut entries = Items::default();
    for entry in stats {
        entries.push(alloc, kind_of(entry))?;
    }
    Groups::new(alloc, &StatsSpec { keys, entries })
}

fn kind_of(entry: &StatEntry) -> StatKind
    ensures { result ≡ stat_kind entry.now }
{
    match entry {
        StatEntry::Count(_) => StatKind::Count,
        StatEntry::Over(kind, _) => *kind,
    }
}

/// The first of some lines, as many as a limit says.
fn first_of_lines(lines: &[StatLine], limit: Option<u64>) -> &[StatLine]
    ensures none { limit ≡ None → result.now ≡ lines.now }
    ensures some { IfSome limit (λ most. result.now ≡ take most lines.now) }
{
    match limit {
        Some(most) if most < lines.len() as u64 => &lines[..most as usize],
        _ => lines,
    }
}

/// Adds the line of each group.
fn push_group_lines(writer: &mut Writer, lines: &[StatLine]) -> Result<(), WriteErr>
    requires { All (λ line. 0 < length line.values) lines.now }
    ensures lines { OnOk result (HasLines writer.old writer.new
        (map (λ line. line_cells (shown_line line)) lines.now)) }
    ensures large { result ≡ Err TooLarge → IsTooLarge writer.old
        (map (λ line. line_cells (shown_line line)) lines.now) }
{
    for line in lines {
        push_group_line(writer, line)?;
    }
    Ok(())
}

fn push_group_line(writer: &mut Writer, line: &StatLine) -> Result<(), WriteErr>
    requires { 0 < length line.now.values }
    ensures lines { OnOk result
        (HasLines writer.old writer.new (line_cells (shown_line line.now) ∷ [])) }
    ensures large { result ≡ Err TooLarge
        → IsTooLarge writer.old (line_cells (shown_line line.now) ∷ []) }
{
    push_line(writer, line.keys.as_slice(), line.values.as_slice())
}
