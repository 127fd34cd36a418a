ghost use Rattle.std.specs.Prelude.{◌≡◌, ◌++◌, OnErr, OnOk, true};
ghost use Rattle.lq_schema.specs.Value.{Words, meaning_of};
ghost use Rattle.lq_output.specs.Cells.{cell_text};
ghost use Rattle.lq_output.specs.CellValue.{value_of_cell};
ghost use Rattle.lq_output.specs.Escapes.{is_as_it_is};

use crate::fields::{is_quoted, push_field, push_field_of};
use crate::json_text::{has_no_escape, push_in_quotes, push_json, push_string};
use crate::layout::Layout;
use crate::number::push_number;
use crate::plain::push_plain;
use lq_records::{Format, Memory};
use lq_schema::Val;

/// What a cell shows. A number and a text need no value made of them.
#[derive(Clone, Copy)]
pub enum Cell<'a> {
    /// A whole number.
    Number(i128),
    /// A text.
    Text(&'a str),
    /// A value of any kind.
    Value(&'a Val<'a>),
}

/// Adds the text of a cell. The only error is out of memory.
pub fn push_cell(out: &mut Vec<u8>, layout: Layout, cell: Cell<'_>) -> Result<(), Memory>
    ensures { OnOk result
        (out.new.items ≡ out.old.items ++ cell_text layout (value_of_cell cell.entry)) }
{
    match cell {
        Cell::Number(number) => push_number(out, number),
        Cell::Text(text) => push_text(out, layout, text),
        Cell::Value(value) => push_value(out, layout, value),
    }
}

fn push_text(out: &mut Vec<u8>, layout: Layout, text: &str) -> Result<(), Memory>
    ensures { OnOk result
        (out.new.items ≡ out.old.items ++ cell_text layout (Words text.now)) }
{
    match layout.format {
        Format::Csv => out.extend_from_slice(text.as_bytes()),
        Format::Quoted => push_field(out, text.as_bytes()),
        Format::Json => push_string(out, text),
    }
}

fn push_value(out: &mut Vec<u8>, layout: Layout, value: &Val<'_>) -> Result<(), Memory>
    ensures { OnOk result
        (out.new.items ≡ out.old.items ++ cell_text layout (meaning_of value.now)) }
{
    let separators = layout.separators;
    match layout.format {
        Format::Csv => push_plain(out, separators.list, separators.pair, value),
        Format::Quoted => push_field_of(out, value),
        Format::Json => push_json(out, value),
    }
}

/// Whether a text is written as it is, but for the quotes around it in json.
#[inline]
pub fn is_as_it_is(format: Format, text: &str) -> bool
    ensures { result ≡ is_as_it_is format text.now }
{
    match format {
        Format::Csv => true,
        Format::Quoted => !is_quoted(text.as_bytes()),
        Format::Json => has_no_escape(text),
    }
}

/// Adds a text that is written as it is. Where memory runs out, nothing is added.
#[inline(always)]
#[tactic(auto, using(crate::proofs::EscapeLemmas::quoted_plain))]
pub fn push_as_it_is(out: &mut Vec<u8>, layout: Layout, text: &str) -> Result<(), Memory>
    requires { is_as_it_is layout.format text.now ≡ true }
    ensures ok { OnOk result
        (out.new.items ≡ out.old.items ++ cell_text layout (Words text.now)) }
    ensures err { OnErr result (out.new.items ≡ out.old.items) }
{
    match layout.format {
        Format::Csv | Format::Quoted => out.extend_from_slice(text.as_bytes()),
        Format::Json => push_in_quotes(out, text),
    }
}
