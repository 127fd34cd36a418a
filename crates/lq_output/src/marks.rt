ghost use Rattle.std.specs.Prelude.{◌≡◌, ◌+◌, ◌∷◌, [], ◌++◌, OnOk, OnErr, length, false};
ghost use Rattle.lq_records.specs.declared.format.Format.TheVariants as format;
ghost use Rattle.lq_output.specs.Body.{marks_of};
ghost use Rattle.lq_output.specs.Spots.{gap_at};

use crate::layout::{Layout, Spot};
use lq_records::{Format, Memory};

/// Adds what a body begins with. The only error is out of memory.
pub fn push_start(out: &mut Vec<u8>, layout: Layout) -> Result<(), Memory>
    ensures { OnOk result (out.new.items ≡ out.old.items ++ (marks_of layout).start) }
{
    match layout.format {
        Format::Csv | Format::Quoted => Ok(()),
        Format::Json => Ok(out.push(b'[')?),
    }
}

/// Adds what stands before the next cell: before one in a line, or before a new line. Where memory
/// runs out, nothing is added.
#[inline(always)]
pub fn push_gap(out: &mut Vec<u8>, spot: Spot) -> Result<(), Memory>
    ensures ok { OnOk result (out.new.items ≡ out.old.items ++ gap_at spot) }
    ensures err { OnErr result (out.new.items ≡ out.old.items) }
{
    if spot.has_cell {
        return Ok(out.push(between_cells(spot.layout))?);
    }
    match spot.layout.format {
        Format::Csv | Format::Quoted => Ok(()),
        Format::Json => push_line_start(out, spot),
    }
}

/// The byte between the cells of a line.
#[inline]
fn between_cells(layout: Layout) -> u8
    ensures { result ∷ [] ≡ (marks_of layout).between_cells }
{
    match layout.format {
        Format::Csv => layout.separators.column,
        Format::Quoted | Format::Json => b',',
    }
}

/// Adds what stands before the first cell of a line in json. Where memory runs out, nothing is
/// added. It stands apart so that before its text a cell of csv has one place alone where the body
/// may grow.
#[inline(never)]
fn push_line_start(out: &mut Vec<u8>, spot: Spot) -> Result<(), Memory>
    requires json { spot.layout.format ≡ format.Json }
    requires first { spot.has_cell ≡ false }
    ensures ok { OnOk result (out.new.items ≡ out.old.items ++ gap_at spot) }
    ensures err { OnErr result (out.new.items ≡ out.old.items) }
{
    if spot.has_line {
        out.extend_from_slice(b",\n[")
    } else {
        Ok(out.push(b'[')?)
    }
}

/// Adds what ends a line. Where memory runs out, nothing is added.
#[inline(always)]
pub fn push_line_end(out: &mut Vec<u8>, layout: Layout) -> Result<(), Memory>
    ensures ok { OnOk result (out.new.items ≡ out.old.items ++ (marks_of layout).line_end) }
    ensures err { OnErr result (out.new.items ≡ out.old.items) }
{
    let end = match layout.format {
        Format::Csv => layout.separators.row,
        Format::Quoted => return out.extend_from_slice(b"\r\n"),
        Format::Json => b']',
    };
    Ok(out.push(end)?)
}

/// Adds what ends a body. The only error is out of memory.
pub fn push_finish(out: &mut Vec<u8>, layout: Layout) -> Result<(), Memory>
    ensures { OnOk result (out.new.items ≡ out.old.items ++ (marks_of layout).finish) }
{
    match layout.format {
        Format::Csv | Format::Quoted => Ok(()),
        Format::Json => out.extend_from_slice(b"]\n"),
    }
}

/// How many bytes end a body whose line is open.
#[inline]
pub fn ending_len(layout: Layout) -> usize
    ensures { result ≡ length (marks_of layout).line_end + length (marks_of layout).finish }
{
    match layout.format {
        Format::Csv => 1,
        Format::Quoted => 2,
        Format::Json => 3,
    }
}
