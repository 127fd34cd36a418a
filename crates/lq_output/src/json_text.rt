ghost use Rattle.std.specs.Prelude.{◌≡◌, [], ◌∷◌, ◌++◌, OnErr, OnOk, map};
ghost use Rattle.std.specs.Fmt.{decimal};
ghost use Rattle.std.specs.List.{list_all};
ghost use Rattle.json.specs.Print.{quoted};
ghost use Rattle.lq_schema.specs.Value.{meaning_of};
ghost use Rattle.lq_output.specs.Cells.{joined_texts, json_list, json_pair, json_text};
ghost use Rattle.lq_output.specs.Escapes.{is_plain_byte};

use crate::number::{push_micro, push_number};
use crate::plain::push_numbers;
use lq_records::{Memory, Text};
use lq_schema::Val;
use serde_json::Value;
use std::alloc::AllocError;

/// Adds the text of a value in JSON. The only error is out of memory.
pub fn push_json(out: &mut Vec<u8>, value: &Val<'_>) -> Result<(), Memory>
    ensures { OnOk result (out.new.items ≡ out.old.items ++ json_text (meaning_of value.now)) }
{
    match value {
        Val::Int(number) => push_number(out, *number),
        Val::Micro(micro) => push_micro(out, *micro),
        Val::Str(text) => push_string(out, text),
        Val::List(texts) => push_strings(out, texts.as_slice()),
        Val::Nums(numbers) => push_number_list(out, numbers.as_slice()),
        Val::Pairs(pairs) => push_pairs(out, pairs.as_slice()),
        Val::Own(text) => push_string(out, text.as_str()),
    }
}

/// Adds a text as a JSON string. The only error is out of memory.
#[tactic(auto, using(crate::proofs::EscapeLemmas::quoted_plain))]
pub fn push_string(out: &mut Vec<u8>, text: &str) -> Result<(), Memory>
    ensures { OnOk result (out.new.items ≡ out.old.items ++ quoted text.now) }
{
    if has_no_escape(text) {
        push_in_quotes(out, text)
    } else {
        push_escaped(out, text)
    }
}

/// Whether a text stands in a JSON string as it is. No byte ends the loop, so that it takes many
/// bytes at once.
#[inline(never)]
pub fn has_no_escape(text: &str) -> bool
    ensures { result ≡ list_all is_plain_byte text.now }
{
    let mut plain = true;
    for byte in text.as_bytes() {
        plain &= is_plain_byte(*byte);
    }
    plain
}

/// Whether a byte stands in a JSON string as it is.
#[inline]
fn is_plain_byte(byte: u8) -> bool
    ensures { result ≡ is_plain_byte byte }
{
    byte >= b' ' && byte != b'"' && byte != b'\\'
}

/// Adds a text between quotes. Where memory runs out, nothing is added.
#[inline(never)]
pub fn push_in_quotes(out: &mut Vec<u8>, text: &str) -> Result<(), Memory>
    ensures ok { OnOk result (out.new.items ≡ out.old.items ++ 34 ∷ (text.now ++ 34 ∷ [])) }
    ensures err { OnErr result (out.new.items ≡ out.old.items) }
{
    let start = out.len();
    out.push(b'"')?;
    if out.extend_from_slice(text.as_bytes()).is_err() {
        out.truncate(start);
        return Err(AllocError);
    }
    if out.push(b'"').is_err() {
        out.truncate(start);
        return Err(AllocError);
    }
    Ok(())
}

#[inline(never)]
fn push_escaped(out: &mut Vec<u8>, text: &str) -> Result<(), Memory>
    ensures { OnOk result (out.new.items ≡ out.old.items ++ quoted text.now) }
{
    let alloc = *out.allocator();
    let string = Value::String(String::from_str(alloc, text)?).to_vec(alloc)?;
    out.extend_from_slice(&string)
}

fn push_strings(out: &mut Vec<u8>, texts: &[Text]) -> Result<(), Memory>
    ensures { OnOk result (out.new.items ≡ out.old.items ++ json_list (map quoted texts.now)) }
{
    out.push(b'[')?;
    push_string_items(out, texts)?;
    Ok(out.push(b']')?)
}

fn push_string_items(out: &mut Vec<u8>, texts: &[Text]) -> Result<(), Memory>
    ensures { OnOk result
        (out.new.items ≡ out.old.items ++ joined_texts (44 ∷ []) (map quoted texts.now)) }
{
    let Some((first, later)) = texts.split_first() else {
        return Ok(());
    };
    push_string(out, first.as_str())?;
    for text in later {
        out.push(b',')?;
        push_string(out, text.as_str())?;
    }
    Ok(())
}

fn push_number_list(out: &mut Vec<u8>, numbers: &[u64]) -> Result<(), Memory>
    ensures { OnOk result (out.new.items ≡ out.old.items ++ json_list (map decimal numbers.now)) }
{
    out.push(b'[')?;
    push_numbers(out, b',', numbers)?;
    Ok(out.push(b']')?)
}

fn push_pairs(out: &mut Vec<u8>, pairs: &[(Text, Text)]) -> Result<(), Memory>
    ensures { OnOk result (out.new.items ≡ out.old.items ++ json_list (map json_pair pairs.now)) }
{
    out.push(b'[')?;
    push_pair_items(out, pairs)?;
    Ok(out.push(b']')?)
}

fn push_pair_items(out: &mut Vec<u8>, pairs: &[(Text, Text)]) -> Result<(), Memory>
    ensures { OnOk result
        (out.new.items ≡ out.old.items ++ joined_texts (44 ∷ []) (map json_pair pairs.now)) }
{
    let Some((first, later)) = pairs.split_first() else {
        return Ok(());
    };
    push_pair(out, first)?;
    for pair in later {
        out.push(b',')?;
        push_pair(out, pair)?;
    }
    Ok(())
}

/// Adds a pair as a list of two strings.
fn push_pair(out: &mut Vec<u8>, pair: &(Text, Text)) -> Result<(), Memory>
    ensures { OnOk result (out.new.items ≡ out.old.items ++ json_pair pair.now) }
{
    out.push(b'[')?;
    push_string(out, pair.0.as_str())?;
    out.push(b',')?;
    push_string(out, pair.1.as_str())?;
    Ok(out.push(b']')?)
}
