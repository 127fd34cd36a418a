ghost use Rattle.std.specs.Prelude.{◌≡◌, [], ◌∷◌, ◌++◌, OnOk};
ghost use Rattle.std.specs.List.{flat_map, list_any};
ghost use Rattle.lq_schema.specs.Value.{meaning_of};
ghost use Rattle.lq_output.specs.Cells.{doubled_quote, csv_field, field_text, is_special};
ghost use Rattle.lq_output.specs.Cells.{plain_text};

use crate::number::{push_micro, push_number};
use crate::plain::push_plain;
use lq_records::Memory;
use lq_schema::Val;

/// Adds the text of a value as a field of RFC 4180. The items of a list have `,` between them, and
/// the parts of a pair `|`. The only error is out of memory.
pub fn push_field_of(out: &mut Vec<u8>, value: &Val<'_>) -> Result<(), Memory>
    ensures { OnOk result (out.new.items ≡ out.old.items ++ field_text (meaning_of value.now)) }
{
    match value {
        Val::Int(number) => push_number(out, *number),
        Val::Micro(micro) => push_micro(out, *micro),
        Val::Str(text) => push_field(out, text.as_bytes()),
        Val::Own(text) => push_field(out, text.as_str().as_bytes()),
        Val::List(_) | Val::Nums(_) | Val::Pairs(_) => push_list(out, value),
    }
}

/// Adds the field of a list, which is written apart first, since any of its items may be what the
/// whole is quoted for.
fn push_list(out: &mut Vec<u8>, value: &Val<'_>) -> Result<(), Memory>
    ensures { OnOk result
        (out.new.items ≡ out.old.items ++ csv_field (plain_text 44 124 (meaning_of value.now))) }
{
    let mut text = Vec::new(*out.allocator());
    push_plain(&mut text, b',', b'|', value)?;
    push_field(out, &text)
}

/// Adds a text as a field of RFC 4180. The only error is out of memory.
pub fn push_field(out: &mut Vec<u8>, text: &[u8]) -> Result<(), Memory>
    ensures { OnOk result (out.new.items ≡ out.old.items ++ csv_field text.now) }
{
    if is_quoted(text) {
        push_quoted(out, text)
    } else {
        out.extend_from_slice(text)
    }
}

/// Whether RFC 4180 quotes a field with this text.
#[inline(never)]
pub fn is_quoted(text: &[u8]) -> bool
    ensures { result ≡ list_any is_special text.now }
{
    text.iter().any(|byte| *byte == b',' || *byte == b'"' || *byte == b'\r' || *byte == b'\n')
}

fn push_quoted(out: &mut Vec<u8>, text: &[u8]) -> Result<(), Memory>
    ensures { OnOk result
        (out.new.items ≡ out.old.items ++ 34 ∷ (flat_map doubled_quote text.now ++ 34 ∷ [])) }
{
    out.push(b'"')?;
    push_doubled(out, text)?;
    Ok(out.push(b'"')?)
}

/// Adds a text with each of its quotes twice.
fn push_doubled(out: &mut Vec<u8>, text: &[u8]) -> Result<(), Memory>
    ensures { OnOk result (out.new.items ≡ out.old.items ++ flat_map doubled_quote text.now) }
{
    for byte in text {
        if *byte == b'"' {
            out.push(b'"')?;
        }
        out.push(*byte)?;
    }
    Ok(())
}
