ghost use Rattle.std.specs.Prelude.{◌≡◌, ◌==◌, ◌∷◌, [], IfOk, filter, is_none, map};
ghost use Rattle.std.specs.List.{list_any};
ghost use Rattle.std.specs.Option.{option_map};
ghost use Rattle.lq_records.specs.Clean.{text_of_bytes};
ghost use Rattle.lq_names.specs.Names.{place_of, single};
ghost use Rattle.lq_objects.specs.Names.{elements, named_in, names_in_pairs, pieces_of};
ghost use Rattle.lq_objects.specs.Views.{lent_texts};

use crate::kind::Reference;
use crate::texts::Texts;
use lq_names::{NameIndex, ObjectName};
use lq_text::trim;
use std::alloc::{AllocError, Global};

/// The names in the value of a directive. None where a service group has an odd number of elements.
pub(crate) fn named_in(
    texts: &Texts,
    reference: Reference,
    value: &[u8],
) -> Result<Option<Vec<ObjectName>>, AllocError>
    ensures { IfOk result
        (λ names. option_map (λ list. list.items) names ≡ named_in reference value.now) }
{
    let alloc = texts.alloc();
    match reference {
        Reference::ServiceHost => whole(texts, value).map(Some),
        Reference::MemberServices => pairs(texts, &pieces(alloc, value)?),
        Reference::Parents
        | Reference::Contacts
        | Reference::ContactGroups
        | Reference::MemberHosts
        | Reference::MemberContacts => singles(texts, &pieces(alloc, value)?).map(Some),
    }
}

/// What stands between commas, without blanks round it and without what is empty.
fn pieces(alloc: Global, value: &[u8]) -> Result<Vec<&[u8]>, AllocError>
    ensures { IfOk result (λ pieces. lent_texts pieces.items ≡ pieces_of value.now) }
{
    value
        .split(|byte| *byte == b',')
        .map(|piece| trim(piece))
        .filter(|piece| !piece.is_empty())
        .collect(alloc)
}

/// A value that is one name.
fn whole(texts: &Texts, value: &[u8]) -> Result<Vec<ObjectName>, AllocError>
    ensures { IfOk result (λ names. names.items ≡ single (text_of_bytes value.now) ∷ []) }
{
    let mut names = Vec::new(texts.alloc());
    names.push(ObjectName::single(texts.text(value)?))?;
    Ok(names)
}

/// Names of one part.
fn singles(texts: &Texts, pieces: &[&[u8]]) -> Result<Vec<ObjectName>, AllocError>
    ensures { IfOk result (λ names. names.items ≡ map single
        (map text_of_bytes (lent_texts pieces.now))) }
{
    let mut names = Vec::new(texts.alloc());
    for piece in pieces {
        names.push(ObjectName::single(texts.text(piece)?))?;
    }
    Ok(names)
}

/// Names of two parts. None where the last one lacks its second.
fn pairs(texts: &Texts, pieces: &[&[u8]]) -> Result<Option<Vec<ObjectName>>, AllocError>
    ensures { IfOk result
        (λ names. option_map (λ list. list.items) names
        ≡ names_in_pairs (map text_of_bytes (lent_texts pieces.now))) }
{
    let mut names = Vec::new(texts.alloc());
    let mut at = 0;
    'pairs: while at + 1 < pieces.len() {
        let first = texts.text(pieces[at])?;
        let second = texts.text(pieces[at + 1])?;
        names.push(ObjectName::new(first, second))?;
        at += 2;
    }
    if at < pieces.len() {
        Ok(None)
    } else {
        Ok(Some(names))
    }
}

/// Whether one of the names isn't there.
pub(crate) fn lacks_any(index: &NameIndex, names: &[ObjectName]) -> bool
    ensures { result ≡ list_any (λ name. is_none (place_of index.now name)) names.now }
{
    names.iter().any(|name| index.find(name).is_none())
}
