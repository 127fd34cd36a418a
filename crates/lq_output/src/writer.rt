ghost use Rattle.std.specs.Prelude.{◌≡◌, ◌+◌, ◌<◌, ◌≤◌, [], ◌∷◌, ◌++◌, length, map, take};
ghost use Rattle.std.specs.Prelude.{drop, true, false};
ghost use Rattle.std.specs.Prelude.{IfErr, IfOk, OnOk, OnErr, IsOkUnless};
ghost use Rattle.lq_schema.specs.Value.{Number, Words, meaning_of};
ghost use Rattle.lq_output.specs.Body.{body_limit, marks_of};
ghost use Rattle.lq_output.specs.Cells.{plain_line};
ghost use Rattle.lq_output.specs.CellValue.{value_of_cell};
ghost use Rattle.lq_output.specs.Escapes.{is_as_it_is};
ghost use Rattle.lq_output.specs.Spots.{ended_length, text_at};
ghost use Rattle.lq_output.specs.Writing.{AddsCell, AddsLines, EndsLine, HasNoRoom, OfFirst};
ghost use Rattle.lq_output.specs.Writing.{IsTextOfLines, IsTooLargeWith, IsWithinLimit, TakesLines};
ghost use Rattle.lq_output.specs.Writing.{Writes, nothing_written, whole_body, with_cell};
ghost use Rattle.lq_output.specs.Writing.{with_line_end};

use crate::cell::{Cell, is_as_it_is, push_as_it_is, push_cell};
use crate::error::WriteErr;
use crate::layout::{Layout, Spot};
use crate::lines::{FEWEST, LineTexts, push_plain_lines};
use crate::marks::{ending_len, push_finish, push_gap, push_line_end, push_start};
use crate::number::push_number;
use lq_records::{Format, Items, Memory, Separators};
use lq_schema::Val;
use std::alloc::Global;
use std::marker::Model;

/// The most bytes that a body may have.
pub const BODY_LIMIT: usize = 8_388_608;

/// Writes a body cell by cell. After an error it is as it was before the call.
///
/// It never has more than `BODY_LIMIT` bytes, those counted that would end the open line and the
/// body. Contracts see it as what was written, and `Writes` says which lines and cells that is.
#[derive(Drop)]
pub struct Writer {
    layout: Layout,
    /// The bytes so far.
    body: Vec<u8>,
    /// Whether a line was ended.
    has_line: bool,
    /// Whether the open line has a cell.
    has_cell: bool,
    /// Where a cell is written first that doesn't go straight to the body.
    cell: Vec<u8>,
}

impl Model for Writer {
    ghost use Rattle.std.specs.Prelude.{◌≤◌, length};
    ghost use Rattle.lq_output.specs.Body.{body_limit};
    ghost use Rattle.lq_output.specs.Writing.{Writing, whole_body};

    ghost Value = { Writing };

    ghost view = { λ w. record {
      layout = w.layout;
      body = w.body.items;
      has_line = w.has_line;
      has_cell = w.has_cell;
    } };

    ghost invariant = { λ w. length (whole_body (record {
      layout = w.layout;
      body = w.body.items;
      has_line = w.has_line;
      has_cell = w.has_cell;
    }))
        ≤ body_limit };
}

impl Writer {
    /// A writer that has no line yet. The only error is out of memory.
    pub fn new(alloc: Global, format: Format, separators: Separators) -> Result<Writer, Memory>
        ensures ok { IfOk result (λ writer. writer
            ≡ nothing_written (record { format = format; separators = separators })) }
        ensures lines { IfOk result (λ writer. Writes writer [] []) }
    {
        let layout = Layout { format, separators };
        let mut body = Vec::new(alloc);
        push_start(&mut body, layout)?;
        Ok(Writer {
            layout,
            body,
            has_line: false,
            has_cell: false,
            cell: Vec::new(alloc),
        })
    }

    /// Adds a cell to the open line. `TooLarge` where the body, with the open line ended after the
    /// cell, would have more than `BODY_LIMIT` bytes; else the only error is `Memory`.
    pub fn cell(&mut self, value: &Val<'_>) -> Result<(), WriteErr>
        ensures ok { OnOk result (self.new ≡ with_cell self.old (meaning_of value.now)) }
        ensures lines { OnOk result (AddsCell self.old self.new (meaning_of value.now)) }
        ensures fits { OnOk result (IsWithinLimit self.new) }
        ensures large { result ≡ Err WriteErr.TooLarge
            → IsTooLargeWith self.old (meaning_of value.now) }
        ensures err { OnErr result (self.new ≡ self.old) }
    {
        self.add(Cell::Value(value))
    }

    /// Adds a number to the open line, as `cell` does with `Val::Int`.
    #[inline(always)]
    pub fn number(&mut self, number: i128) -> Result<(), WriteErr>
        ensures ok { OnOk result (self.new ≡ with_cell self.old (Number number)) }
        ensures lines { OnOk result (AddsCell self.old self.new (Number number)) }
        ensures fits { OnOk result (IsWithinLimit self.new) }
        ensures large { result ≡ Err WriteErr.TooLarge
            → IsTooLargeWith self.old (Number number) }
        ensures err { OnErr result (self.new ≡ self.old) }
    {
        self.add(Cell::Number(number))
    }

    /// Adds a text to the open line, as `cell` does with `Val::Str`.
    #[inline(always)]
    pub fn text(&mut self, text: &str) -> Result<(), WriteErr>
        ensures ok { OnOk result (self.new ≡ with_cell self.old (Words text.now)) }
        ensures lines { OnOk result (AddsCell self.old self.new (Words text.now)) }
        ensures fits { OnOk result (IsWithinLimit self.new) }
        ensures large { result ≡ Err WriteErr.TooLarge
            → IsTooLargeWith self.old (Words text.now) }
        ensures err { OnErr result (self.new ≡ self.old) }
    {
        self.add(Cell::Text(text))
    }

    /// What `append` does, said of the lines and cells that are written.
    #[inline(always)]
    fn add(&mut self, cell: Cell<'_>) -> Result<(), WriteErr>
        ensures ok { OnOk result (self.new ≡ with_cell self.old (value_of_cell cell.entry)) }
        ensures lines { OnOk result (AddsCell self.old self.new (value_of_cell cell.entry)) }
        ensures fits { OnOk result (IsWithinLimit self.new) }
        ensures large { result ≡ Err WriteErr.TooLarge
            → IsTooLargeWith self.old (value_of_cell cell.entry) }
        ensures err { OnErr result (self.new ≡ self.old) }
    {
        self.append(cell)
    }

    /// Adds a cell to the open line. A number, and a text that is written as it is, go straight to
    /// the body; any other cell is written apart first.
    #[inline(always)]
    fn append(&mut self, cell: Cell<'_>) -> Result<(), WriteErr>
        ensures ok { OnOk result (self.new ≡ with_cell self.old (value_of_cell cell.entry)) }
        ensures fits { OnOk result (length (whole_body self.new) ≤ body_limit) }
        ensures large { result ≡ Err WriteErr.TooLarge
            → body_limit < length (whole_body (with_cell self.old (value_of_cell cell.entry))) }
        ensures err { OnErr result (self.new ≡ self.old) }
    {
        match cell {
            Cell::Number(number) => {
                let spot = self.spot();
                push_number_at(&mut self.body, spot, number)?;
            }
            Cell::Text(text) if is_as_it_is(self.layout.format, text) => {
                let spot = self.spot();
                push_text_at(&mut self.body, spot, text)?;
            }
            Cell::Text(_) | Cell::Value(_) => {
                let spot = self.spot();
                push_apart(&mut self.body, &mut self.cell, spot, cell)?;
            }
        }
        self.has_cell = true;
        Ok(())
    }

    /// Where the next cell comes.
    #[inline]
    fn spot(&self) -> Spot
        ensures layout { result.layout ≡ self.now.layout }
        ensures has_line { result.has_line ≡ self.now.has_line }
        ensures has_cell { result.has_cell ≡ self.now.has_cell }
    {
        Spot {
            layout: self.layout,
            has_line: self.has_line,
            has_cell: self.has_cell,
        }
    }

    /// Ends the open line, which has a cell. The only error is `Memory`: the bytes that end it were
    /// counted with its cells.
    #[inline(always)]
    pub fn end_line(&mut self) -> Result<(), WriteErr>
        requires { self.old.has_cell ≡ true }
        ensures ok { OnOk result (self.new ≡ with_line_end self.old) }
        ensures lines { OnOk result (EndsLine self.old self.new) }
        ensures fits { OnOk result (IsWithinLimit self.new) }
        ensures memory { IsOkUnless result WriteErr.Memory }
        ensures err { OnErr result (self.new ≡ self.old) }
    {
        push_line_end(&mut self.body, self.layout)?;
        self.has_line = true;
        self.has_cell = false;
        Ok(())
    }

    /// Adds the lines of the first rows, each of which is the text that the row gives, and says how
    /// many they are. It stops at the first row that gives no text, and at a line that has more
    /// than 4,096 bytes or for which the body has no room. It adds none where there are fewer than
    /// 16 rows, the format isn't csv, or a line is open. The only error is `Memory`.
    #[inline(always)]
    pub fn text_lines<T: LineTexts>(
        &mut self,
        texts: &T,
        rows: &[T::Row],
    ) -> Result<usize, WriteErr>
        ensures within { IfOk result (λ count. count ≤ length rows.now) }
        ensures layout { self.new.layout ≡ self.old.layout }
        ensures lines { IfOk result (λ count. AddsLines self.old self.new
            (map (λ row. T.cell texts.now row ∷ []) (take count rows.now))) }
        ensures stop { TakesLines self.old → 16 ≤ length rows.now → IfOk result (λ count.
            OfFirst (drop count rows.now) (λ row. T.gives texts.now row
            → HasNoRoom (length self.new.body)
            (plain_line self.old.layout.separators (T.cell texts.now row)))) }
        ensures memory { IsOkUnless result WriteErr.Memory }
        ensures err { OnErr result (self.new ≡ self.old) }
    {
        if self.has_cell || rows.len() < FEWEST {
            return Ok(0);
        }
        match self.layout.format {
            Format::Csv => {
                let separators = self.layout.separators;
                let count = push_plain_lines(&mut self.body, separators, texts, rows)?;
                self.has_line |= count > 0;
                Ok(count)
            }
            Format::Quoted | Format::Json => Ok(0),
        }
    }

    /// The whole body, of `BODY_LIMIT` bytes at most. The open line has no cell. The only error is
    /// `Memory`: the bytes that end the body were counted from the beginning.
    pub fn finish(self) -> Result<Items<u8>, WriteErr>
        requires { self.has_cell ≡ false }
        ensures ok { IfOk result (λ body. body ≡ whole_body self) }
        ensures lines { IfOk result (IsTextOfLines self) }
        ensures fits { IfOk result (λ body. length body ≤ body_limit) }
        ensures memory { IsOkUnless result WriteErr.Memory }
    {
        let layout = self.layout;
        let mut body = self.body;
        push_finish(&mut body, layout)?;
        Ok(Items::from_vec(body))
    }
}

/// Adds a number to a body that has room for it and for the bytes that end the body after it.
/// After an error the body is as it was.
#[inline(always)]
fn push_number_at(body: &mut Vec<u8>, spot: Spot, number: i128) -> Result<(), WriteErr>
    requires { length body.old.items ≤ body_limit }
    ensures ok { OnOk result (body.new.items ≡ body.old.items ++ text_at spot (Number number)) }
    ensures fits { OnOk result
        (ended_length spot body.old.items (Number number) ≤ body_limit) }
    ensures large { result ≡ Err WriteErr.TooLarge
        → body_limit < ended_length spot body.old.items (Number number) }
    ensures err { OnErr result (body.new.items ≡ body.old.items) }
{
    let start = body.len();
    push_gap(body, spot)?;
    if push_number(body, number).is_err() {
        body.truncate(start);
        return Err(WriteErr::Memory);
    }
    keep_fitting(body, start, spot.layout)
}

/// The same for a text that is written as it is.
#[inline(always)]
fn push_text_at(body: &mut Vec<u8>, spot: Spot, text: &str) -> Result<(), WriteErr>
    requires within { length body.old.items ≤ body_limit }
    requires as_it_is { is_as_it_is spot.layout.format text.now ≡ true }
    ensures ok { OnOk result (body.new.items ≡ body.old.items ++ text_at spot (Words text.now)) }
    ensures fits { OnOk result
        (ended_length spot body.old.items (Words text.now) ≤ body_limit) }
    ensures large { result ≡ Err WriteErr.TooLarge
        → body_limit < ended_length spot body.old.items (Words text.now) }
    ensures err { OnErr result (body.new.items ≡ body.old.items) }
{
    let start = body.len();
    push_gap(body, spot)?;
    if push_as_it_is(body, spot.layout, text).is_err() {
        body.truncate(start);
        return Err(WriteErr::Memory);
    }
    keep_fitting(body, start, spot.layout)
}

/// The same for any cell, which is written apart first: where memory runs out, a part of it may
/// stand there, and none in the body.
#[inline(never)]
fn push_apart(
    body: &mut Vec<u8>,
    apart: &mut Vec<u8>,
    spot: Spot,
    cell: Cell<'_>,
) -> Result<(), WriteErr>
    requires { length body.old.items ≤ body_limit }
    ensures ok { OnOk result
        (body.new.items ≡ body.old.items ++ text_at spot (value_of_cell cell.entry)) }
    ensures fits { OnOk result
        (ended_length spot body.old.items (value_of_cell cell.entry) ≤ body_limit) }
    ensures large { result ≡ Err WriteErr.TooLarge
        → body_limit < ended_length spot body.old.items (value_of_cell cell.entry) }
    ensures err { OnErr result (body.new.items ≡ body.old.items) }
{
    apart.clear();
    push_gap(apart, spot)?;
    push_cell(apart, spot.layout, cell)?;
    let start = body.len();
    body.extend_from_slice(apart)?;
    keep_fitting(body, start, spot.layout)
}

/// Takes what was added to a body after a place away again, where the body has no room for it and
/// for the bytes that end the body after it.
#[inline]
fn keep_fitting(body: &mut Vec<u8>, start: usize, layout: Layout) -> Result<(), WriteErr>
    requires { start ≤ length body.old.items }
    ensures ok { OnOk result (body.new.items ≡ body.old.items) }
    ensures fits { OnOk result (length body.old.items
        + (length (marks_of layout).line_end + length (marks_of layout).finish) ≤ body_limit) }
    ensures large { IfErr result (λ error. error ≡ WriteErr.TooLarge) }
    ensures full { OnErr result (body_limit < length body.old.items
        + (length (marks_of layout).line_end + length (marks_of layout).finish)) }
    ensures err { OnErr result (body.new.items ≡ take start body.old.items) }
{
    if body.len() > BODY_LIMIT - ending_len(layout) {
        body.truncate(start);
        return Err(WriteErr::TooLarge);
    }
    Ok(())
}
