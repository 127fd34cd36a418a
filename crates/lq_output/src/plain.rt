ghost use Rattle.std.specs.Prelude.{◌≡◌, [], ◌∷◌, ◌++◌, OnOk, map};
ghost use Rattle.std.specs.Fmt.{decimal};
ghost use Rattle.lq_schema.specs.Value.{meaning_of};
ghost use Rattle.lq_output.specs.Cells.{joined_texts, pair_text, plain_text};

use crate::number::{push_micro, push_number, push_unsigned};
use lq_records::{Memory, Text};
use lq_schema::Val;

/// Adds the text of a value with nothing quoted: the items of a list have the byte `list` between
/// them, the parts of a pair the byte `pair`. The only error is out of memory.
pub fn push_plain(out: &mut Vec<u8>, list: u8, pair: u8, value: &Val<'_>) -> Result<(), Memory>
    ensures { OnOk result
        (out.new.items ≡ out.old.items ++ plain_text list pair (meaning_of value.now)) }
{
    match value {
        Val::Int(number) => push_number(out, *number),
        Val::Micro(micro) => push_micro(out, *micro),
        Val::Str(text) => out.extend_from_slice(text.as_bytes()),
        Val::List(texts) => push_texts(out, list, texts.as_slice()),
        Val::Nums(numbers) => push_numbers(out, list, numbers.as_slice()),
        Val::Pairs(pairs) => push_pairs(out, list, pair, pairs.as_slice()),
        Val::Own(text) => push_text(out, text),
    }
}

fn push_text(out: &mut Vec<u8>, text: &Text) -> Result<(), Memory>
    ensures { OnOk result (out.new.items ≡ out.old.items ++ text.now) }
{
    out.extend_from_slice(text.as_str().as_bytes())
}

fn push_texts(out: &mut Vec<u8>, between: u8, texts: &[Text]) -> Result<(), Memory>
    ensures { OnOk result (out.new.items ≡ out.old.items ++ joined_texts (between ∷ []) texts.now) }
{
    let Some((first, later)) = texts.split_first() else {
        return Ok(());
    };
    push_text(out, first)?;
    for text in later {
        out.push(between)?;
        push_text(out, text)?;
    }
    Ok(())
}

/// Adds numbers with a byte between them. The only error is out of memory.
pub fn push_numbers(out: &mut Vec<u8>, between: u8, numbers: &[u64]) -> Result<(), Memory>
    ensures { OnOk result
        (out.new.items ≡ out.old.items ++ joined_texts (between ∷ []) (map decimal numbers.now)) }
{
    let Some((first, later)) = numbers.split_first() else {
        return Ok(());
    };
    push_unsigned(out, *first)?;
    for number in later {
        out.push(between)?;
        push_unsigned(out, *number)?;
    }
    Ok(())
}

fn push_pair(out: &mut Vec<u8>, between: u8, pair: &(Text, Text)) -> Result<(), Memory>
    ensures { OnOk result (out.new.items ≡ out.old.items ++ pair_text between pair.now) }
{
    push_text(out, &pair.0)?;
    out.push(between)?;
    push_text(out, &pair.1)
}

fn push_pairs(
    out: &mut Vec<u8>,
    between: u8,
    within: u8,
    pairs: &[(Text, Text)],
) -> Result<(), Memory>
    ensures { OnOk result (out.new.items
        ≡ out.old.items ++ joined_texts (between ∷ []) (map (pair_text within) pairs.now)) }
{
    let Some((first, later)) = pairs.split_first() else {
        return Ok(());
    };
    push_pair(out, within, first)?;
    for pair in later {
        out.push(between)?;
        push_pair(out, within, pair)?;
    }
    Ok(())
}
