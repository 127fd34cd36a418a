ghost use Rattle.std.specs.Prelude.{◌≡◌, ◌-◌, ◌<◌, ◌∷◌, [], ◌≤◌, length, map, take, Err, None};
ghost use Rattle.std.specs.Prelude.{IfOk, IfSome, IsOkUnless, OnOk};
ghost use Rattle.std.specs.List.{list_any};
ghost use Rattle.lq_output.specs.Writing.{AddsCell, IsTooLargeWith, with_cell};
ghost use Rattle.lq_output.specs.declared.error.WriteErr.TheVariants.{Memory, TooLarge};
ghost use Rattle.lq_query.specs.Answer.{first_lines};
ghost use Rattle.lq_query.specs.Rows.{chosen_rows, row_cells};
ghost use Rattle.lq_query.specs.Lines.{HasLines, IsTooLarge, seen_cells, first_rows};
ghost use Rattle.lq_query.specs.Lines.{rows_with_marks};

use crate::column::ShownColumn;
use crate::selection::Selection;
use crate::sight::Sight;
use crate::text_lines::push_text_lines;
use lq_filter::{Filter, Scan};
use lq_output::{WriteErr, Writer};
use lq_request::Request;
use lq_schema::{Col, ColKind};
use lq_tables::{Row, row_number, row_text};
use std::alloc::Global;
use std::slice::from_ref;

/// How many rows are tested at once. More would keep those after the last one that may be shown
/// from being left alone, and fewer would turn from one test to the next too often.
const BLOCK: usize = 512;

/// What the lines of rows are written from.
#[derive(Drop)]
pub struct Page<'a> {
    /// Where the values of cells take their memory.
    pub alloc: Global,
    /// The state that is shown, and what the query sees of it.
    pub sight: Sight<'a>,
    /// The columns that are shown, in order.
    pub columns: &'a [ShownColumn],
}

impl Page<'_> {
    /// Adds the lines of the rows that the query's filter chooses, as many as it shows.
    pub fn push_shown(
        &self,
        writer: &mut Writer,
        request: &Request,
        rows: &[Row],
    ) -> Result<(), WriteErr>
        requires columns { self.now.columns.now ≡ request.now.columns }
        requires some { 0 < length request.now.columns }
        ensures lines { OnOk result (HasLines writer.old writer.new (first_lines request.now.limit
            (map (row_cells request.now.columns)
            (chosen_rows request.now.filter (map (seen_cells self.now.sight) rows.now))))) }
        ensures large { result ≡ Err TooLarge → IsTooLarge writer.old
            (first_lines request.now.limit (map (row_cells request.now.columns)
            (chosen_rows request.now.filter (map (seen_cells self.now.sight) rows.now)))) }
    {
        let most = most_rows(request.limit, rows.len());
        self.push_chosen(writer, &request.filter, rows, most)
    }

    /// Adds the lines of the rows that a filter chooses, as many as may be shown. Where the filter
    /// chooses each row none is tested.
    fn push_chosen(
        &self,
        writer: &mut Writer,
        filter: &Filter,
        rows: &[Row],
        left: usize,
    ) -> Result<(), WriteErr>
        requires { 0 < length self.now.columns.now }
        ensures lines { OnOk result (HasLines writer.old writer.new
            (first_rows self.now.columns.now left
            (chosen_rows filter.now (map (seen_cells self.now.sight) rows.now)))) }
        ensures large { result ≡ Err TooLarge → IsTooLarge writer.old
            (first_rows self.now.columns.now left
            (chosen_rows filter.now (map (seen_cells self.now.sight) rows.now))) }
    {
        if filter.is_everything() {
            return self.push_first(writer, rows, left);
        }
        let mut selection = Selection {
            filter: filter.ready(self.alloc)?,
            left,
        };
        self.push_rows(writer, &mut selection, rows)
    }

    /// Adds the lines of the first rows, as many as may be shown. No row is tested.
    fn push_first(&self, writer: &mut Writer, rows: &[Row], most: usize) -> Result<(), WriteErr>
        requires { 0 < length self.now.columns.now }
        ensures lines { OnOk result (HasLines writer.old writer.new
            (first_rows self.now.columns.now most
            (map (seen_cells self.now.sight) rows.now))) }
        ensures large { result ≡ Err TooLarge → IsTooLarge writer.old
            (first_rows self.now.columns.now most
            (map (seen_cells self.now.sight) rows.now)) }
    {
        self.push_each(writer, first_of(rows, most))
    }

    /// Adds the line of each row: of the first ones all at once, where they are of one text, and of
    /// the others one by one.
    fn push_each(&self, writer: &mut Writer, rows: &[Row]) -> Result<(), WriteErr>
        requires { 0 < length self.now.columns.now }
        ensures lines { OnOk result (HasLines writer.old writer.new
            (map (λ row. row_cells self.now.columns.now (seen_cells self.now.sight row))
            rows.now)) }
        ensures large { result ≡ Err TooLarge → IsTooLarge writer.old
            (map (λ row. row_cells self.now.columns.now (seen_cells self.now.sight row))
            rows.now) }
    {
        let count = self.push_texts(writer, rows)?;
        self.push_lines(writer, &rows[count..])
    }

    /// Adds the lines of the first rows where one column of texts is shown, and says how many they
    /// are. In so short a line the way to the cell and to the line's end costs the most. It stands
    /// apart so that the loop over lines of several cells stays as it is.
    #[inline(never)]
    fn push_texts(&self, writer: &mut Writer, rows: &[Row]) -> Result<usize, WriteErr>
        ensures within { IfOk result (λ count. count ≤ length rows.now) }
        ensures lines { IfOk result (λ count. HasLines writer.old writer.new
            (map (λ row. row_cells self.now.columns.now (seen_cells self.now.sight row))
            (take count rows.now))) }
        ensures memory { IsOkUnless result Memory }
    {
        match self.text_column() {
            Some(column) => push_text_lines(&self.sight, writer, rows, column),
            None => Ok(0),
        }
    }

    /// The column that is shown, if it is one alone and of texts.
    fn text_column(&self) -> Option<Col>
        ensures { IfSome result (λ column. self.now.columns.now ≡ column ∷ []) }
    {
        match self.columns {
            [shown] if shown.kind() == ColKind::Str => Some(shown.column()),
            _ => None,
        }
    }

    /// Adds the line of each row, cell by cell.
    fn push_lines(&self, writer: &mut Writer, rows: &[Row]) -> Result<(), WriteErr>
        requires { 0 < length self.now.columns.now }
        ensures lines { OnOk result (HasLines writer.old writer.new
            (map (λ row. row_cells self.now.columns.now (seen_cells self.now.sight row))
            rows.now)) }
        ensures large { result ≡ Err TooLarge → IsTooLarge writer.old
            (map (λ row. row_cells self.now.columns.now (seen_cells self.now.sight row))
            rows.now) }
    {
        for row in rows {
            self.push_row(writer, row)?;
        }
        Ok(())
    }

    /// Adds the lines of the rows that are shown. The rows are tested block by block, and none
    /// after the last one that may be shown.
    fn push_rows(
        &self,
        writer: &mut Writer,
        selection: &mut Selection<'_>,
        rows: &[Row],
    ) -> Result<(), WriteErr>
        requires { 0 < length self.now.columns.now }
        ensures lines { OnOk result (HasLines writer.old writer.new
            (first_rows self.now.columns.now selection.old.left
            (chosen_rows selection.old.filter (map (seen_cells self.now.sight) rows.now)))) }
        ensures large { result ≡ Err TooLarge → IsTooLarge writer.old
            (first_rows self.now.columns.now selection.old.left
            (chosen_rows selection.old.filter (map (seen_cells self.now.sight) rows.now))) }
    {
        let mut at = 0;
        'blocks: while at < rows.len() && selection.left > 0 {
            let end = block_end(at, rows.len());
            self.push_block(writer, selection, &rows[at..end])?;
            at = end;
        }
        Ok(())
    }

    /// The same for the rows of a block.
    fn push_block(
        &self,
        writer: &mut Writer,
        selection: &mut Selection<'_>,
        rows: &[Row],
    ) -> Result<(), WriteErr>
        requires { 0 < length self.now.columns.now }
        ensures lines { OnOk result (HasLines writer.old writer.new
            (first_rows self.now.columns.now selection.old.left
            (chosen_rows selection.old.filter (map (seen_cells self.now.sight) rows.now)))) }
        ensures large { result ≡ Err TooLarge → IsTooLarge writer.old
            (first_rows self.now.columns.now selection.old.left
            (chosen_rows selection.old.filter (map (seen_cells self.now.sight) rows.now))) }
        ensures left { OnOk result (selection.new.left ≡ selection.old.left
            - length (chosen_rows selection.old.filter
            (map (seen_cells self.now.sight) rows.now))) }
        ensures same { selection.new.filter ≡ selection.old.filter }
    {
        let marks = selection.marks(self.alloc, &self.sight, rows)?;
        if !has_mark(&marks) {
            return Ok(());
        }
        self.push_marked(writer, selection, rows, &marks)
    }

    /// Adds the lines of the rows that are marked, as many as are left to show.
    fn push_marked(
        &self,
        writer: &mut Writer,
        selection: &mut Selection<'_>,
        rows: &[Row],
        marks: &[bool],
    ) -> Result<(), WriteErr>
        requires some { 0 < length self.now.columns.now }
        requires marks { length marks.now ≡ length rows.now }
        ensures lines { OnOk result (HasLines writer.old writer.new
            (first_rows self.now.columns.now selection.old.left
            (map (seen_cells self.now.sight) (rows_with_marks marks.now rows.now)))) }
        ensures large { result ≡ Err TooLarge → IsTooLarge writer.old
            (first_rows self.now.columns.now selection.old.left
            (map (seen_cells self.now.sight) (rows_with_marks marks.now rows.now))) }
        ensures left { OnOk result (selection.new.left
            ≡ selection.old.left - length (rows_with_marks marks.now rows.now)) }
        ensures same { selection.new.filter ≡ selection.old.filter }
    {
        for place in 0..rows.len() {
            if marks[place] {
                self.push_next(writer, selection, &rows[place])?;
            }
        }
        Ok(())
    }

    /// Adds the line of a row where one is left to show.
    fn push_next(
        &self,
        writer: &mut Writer,
        selection: &mut Selection<'_>,
        row: &Row,
    ) -> Result<(), WriteErr>
        requires { 0 < length self.now.columns.now }
        ensures lines { OnOk result (HasLines writer.old writer.new
            (first_rows self.now.columns.now selection.old.left
            (seen_cells self.now.sight row.now ∷ []))) }
        ensures large { result ≡ Err TooLarge → IsTooLarge writer.old
            (first_rows self.now.columns.now selection.old.left
            (seen_cells self.now.sight row.now ∷ [])) }
        ensures left { selection.new.left ≡ selection.old.left - 1 }
        ensures same { selection.new.filter ≡ selection.old.filter }
    {
        if selection.left == 0 {
            return Ok(());
        }
        selection.left -= 1;
        self.push_lines(writer, from_ref(row))
    }

    /// Adds the line of a row.
    fn push_row(&self, writer: &mut Writer, row: &Row) -> Result<(), WriteErr>
        requires { 0 < length self.now.columns.now }
        ensures lines { OnOk result (HasLines writer.old writer.new
            (row_cells self.now.columns.now (seen_cells self.now.sight row.now) ∷ [])) }
        ensures large { result ≡ Err TooLarge → IsTooLarge writer.old
            (row_cells self.now.columns.now (seen_cells self.now.sight row.now) ∷ []) }
    {
        for column in self.columns {
            self.push_cell(writer, row, column)?;
        }
        writer.end_line()
    }

    /// Adds a cell of a row to the open line. A number and a text of a host or a service in a table
    /// of its own, and of the service's host, come first, since most cells are such. They take no
    /// memory but the body's.
    fn push_cell(&self, writer: &mut Writer, row: &Row, shown: &ShownColumn) -> Result<(), WriteErr>
        ensures ok { OnOk result (writer.new
            ≡ with_cell writer.old (seen_cells self.now.sight row.now shown.now)) }
        ensures cell { OnOk result (AddsCell writer.old writer.new
            (seen_cells self.now.sight row.now shown.now)) }
        ensures large { result ≡ Err TooLarge → IsTooLargeWith writer.old
            (seen_cells self.now.sight row.now shown.now) }
    {
        match shown.kind() {
            ColKind::Int => match self.sight.own_number(row, shown.column()) {
                Some(number) => writer.number(number),
                None => self.push_other(writer, row, shown),
            },
            ColKind::Str => match self.sight.own_text(row, shown.column()) {
                Some(text) => writer.text(text),
                None => self.push_other(writer, row, shown),
            },
            ColKind::List | ColKind::Nums | ColKind::Pairs => {
                self.push_any(writer, row, shown.column())
            }
        }
    }

    /// Adds a number or a text of any other row or column, with no look at what the row's other
    /// cells are about. It stands apart so that the plainest cells keep nothing for it.
    #[inline(never)]
    fn push_other(
        &self,
        writer: &mut Writer,
        row: &Row,
        shown: &ShownColumn,
    ) -> Result<(), WriteErr>
        ensures ok { OnOk result (writer.new
            ≡ with_cell writer.old (seen_cells self.now.sight row.now shown.now)) }
        ensures cell { OnOk result (AddsCell writer.old writer.new
            (seen_cells self.now.sight row.now shown.now)) }
        ensures large { result ≡ Err TooLarge → IsTooLargeWith writer.old
            (seen_cells self.now.sight row.now shown.now) }
    {
        let column = shown.column();
        if shown.kind() == ColKind::Str {
            if let Some(text) = row_text(self.sight.live, row, column, self.sight.view) {
                return writer.text(text);
            }
        } else if let Some(number) = row_number(self.sight.live, row, column) {
            return writer.number(number);
        }
        self.push_any(writer, row, column)
    }

    /// Adds a cell of any kind. It stands apart so that plain cells make no room for a value.
    #[inline(never)]
    fn push_any(&self, writer: &mut Writer, row: &Row, column: Col) -> Result<(), WriteErr>
        ensures ok { OnOk result (writer.new
            ≡ with_cell writer.old (seen_cells self.now.sight row.now column)) }
        ensures cell { OnOk result (AddsCell writer.old writer.new
            (seen_cells self.now.sight row.now column)) }
        ensures large { result ≡ Err TooLarge → IsTooLargeWith writer.old
            (seen_cells self.now.sight row.now column) }
    {
        let value = self.sight.get(self.alloc, row, column)?;
        writer.cell(&value)
    }
}

/// How many of some rows are shown at most.
fn most_rows(limit: Option<u64>, count: usize) -> usize
    ensures none { limit ≡ None → result ≡ count }
    ensures some { IfSome limit (λ most. result ≡ most) }
{
    match limit {
        Some(most) => most as usize,
        None => count,
    }
}

/// The first of some rows, as many as there may be.
#[tactic(auto, using(crate::proofs::RowLemmas::few_rows))]
fn first_of(rows: &[Row], most: usize) -> &[Row]
    ensures { result.now ≡ take most rows.now }
{
    if most < rows.len() {
        &rows[..most]
    } else {
        rows
    }
}

/// Whether a row is marked.
pub fn has_mark(marks: &[bool]) -> bool
    ensures { result ≡ list_any (λ mark. mark) marks.now }
{
    marks.iter().any(|mark| *mark)
}

/// Where the block that begins at a place ends.
pub fn block_end(at: usize, count: usize) -> usize
    requires { at < count }
    ensures some { at < result }
    ensures within { result ≤ count }
{
    if count - at < BLOCK {
        count
    } else {
        at + BLOCK
    }
}
