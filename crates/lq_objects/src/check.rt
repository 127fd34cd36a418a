ghost use Rattle.std.specs.Prelude.{◌≡◌, ◌<◌, ◌+◌, ◌^◌, ℕ, None, IfOk, OnOk, length, option_map};
ghost use Rattle.std.specs.Option.{option_copied, option_to_list};
ghost use Rattle.lq_objects.specs.Checks.{Checks, with_blocks};
ghost use Rattle.lq_objects.specs.Directories.{names_in, with_name};
ghost use Rattle.lq_objects.specs.Faults.{block_of, directive_fault, first_of, has_separator};
ghost use Rattle.lq_objects.specs.Faults.{inner_fault, is_bad_name, known_block, lacks_name};
ghost use Rattle.lq_objects.specs.Faults.{name_fault, opened_fault, part_fault};
ghost use Rattle.lq_names.specs.Names.{place_of};

use crate::block::Block;
use crate::directive::{is_bad_number, is_template};
use crate::directory::Directory;
use crate::fault::{FaultyLine, ObjectsErr, ObjectsWhat};
use crate::kind::BlockKind;
use crate::line::Line;
use crate::name::name_of;
use crate::part::Part;
use crate::texts::Texts;
use lq_names::{NameIndex, ObjectName};

/// The block that a part is, where its kind is known, or the first fault in the part. The name of
/// the block's object goes into the directory.
pub(crate) fn read_part<'p, 'a>(
    texts: &Texts,
    directory: &mut Directory,
    part: &Part<'p, 'a>,
) -> Result<Option<Block<'p, 'a>>, ObjectsErr>
    ensures fault { Checks result
        (part_fault (names_in directory.old) part.now.lines.now (option_copied part.now.closing)) }
    ensures block { IfOk result (λ block. option_to_list block ≡ block_of part.now.lines.now) }
    ensures directory { IfOk result
        (λ block. directory.new ≡ with_blocks directory.old (option_to_list block)) }
{
    let Some((opening, lines)) = part.lines.split_first() else {
        return match part.closing {
            Some(closing) => Err(closing.fault(ObjectsWhat::Stray)),
            None => Ok(None),
        };
    };
    let Some(word) = opening.opened_word() else {
        return Err(opening.fault(ObjectsWhat::Stray));
    };
    let opened = Opened {
        opening: opening.number(),
        kind: BlockKind::of_word(word),
        lines,
        closing: part.closing,
    };
    opened.read(texts, directory)
}

/// A block that a line opens: that line's number, the kind where it is known, the lines in the
/// block, and the line that closes it.
#[derive(Drop)]
struct Opened<'p, 'a> {
    opening: u64,
    kind: Option<BlockKind>,
    lines: &'p [Line<'a>],
    closing: Option<&'p Line<'a>>,
}

impl<'p, 'a> Opened<'p, 'a> {
    /// The block, where its kind is known, or the first fault in it.
    fn read(
        &self,
        texts: &Texts,
        directory: &mut Directory,
    ) -> Result<Option<Block<'p, 'a>>, ObjectsErr>
        ensures fault { Checks result (opened_fault (names_in directory.old) self.now.opening
            self.now.kind self.now.lines.now (option_copied self.now.closing)) }
        ensures block { IfOk result
            (λ block. option_to_list block ≡ known_block self.now.kind self.now.lines.now) }
        ensures directory { IfOk result
            (λ block. directory.new ≡ with_blocks directory.old (option_to_list block)) }
    {
        if let Some(fault) = lines_fault(self.opening, self.kind, self.lines) {
            return Err(fault.error());
        }
        let Some(closing) = self.closing else {
            return Err(ObjectsErr::At {
                line: self.opening,
                what: ObjectsWhat::Unclosed,
            });
        };
        let Some(kind) = self.kind else {
            return Ok(None);
        };
        let name = name_of(texts, kind, self.lines).map_err(ObjectsErr::Memory)?;
        add_name(directory, kind, name, closing)?;
        Ok(Some(Block::new(kind, self.lines)))
    }
}

/// Adds the name of an object whose block is closed to those of its kind, unless it is at fault.
fn add_name(
    directory: &mut Directory,
    kind: BlockKind,
    name: ObjectName,
    closing: &Line<'_>,
) -> Result<(), ObjectsErr>
    ensures fault { Checks result
        (name_fault kind (names_in directory.old kind) name closing.now.number) }
    ensures directory { OnOk result (directory.new ≡ with_name directory.old kind name) }
{
    if let Some(what) = name_fault(kind, directory.of(kind), &name) {
        return Err(closing.fault(what));
    }
    directory.push(kind, name).map_err(ObjectsErr::Memory)
}

/// The first fault of the lines in a block.
fn lines_fault(opening: u64, kind: Option<BlockKind>, lines: &[Line<'_>]) -> Option<FaultyLine>
    ensures { result ≡ first_of (inner_fault opening kind) lines.now }
{
    for line in lines {
        if let Some(fault) = inner_fault(opening, kind, line) {
            return Some(fault);
        }
    }
    None
}

/// The fault of a line in a block that the line `opening` opens.
fn inner_fault(opening: u64, kind: Option<BlockKind>, line: &Line<'_>) -> Option<FaultyLine>
    ensures { result ≡ inner_fault opening kind line.now }
{
    if line.opened_word().is_some() {
        return Some(FaultyLine {
            line: opening,
            what: ObjectsWhat::Unclosed,
        });
    }
    directive_fault(kind?, line)
}

/// The fault of a directive in a block of a kind.
fn directive_fault(kind: BlockKind, line: &Line<'_>) -> Option<FaultyLine>
    ensures { result ≡ directive_fault kind line.now }
{
    let what = if is_template(line) {
        ObjectsWhat::NotFlattened
    } else if is_bad_number(kind, line) {
        ObjectsWhat::BadNumber
    } else {
        return None;
    };
    Some(FaultyLine {
        line: line.number(),
        what,
    })
}

/// What is wrong with an object's name, after the earlier ones of its kind.
fn name_fault(kind: BlockKind, earlier: &NameIndex, name: &ObjectName) -> Option<ObjectsWhat>
    ensures value { (line : ℕ) → option_map (λ what. record { line = line; what = what }) result
        ≡ name_fault kind earlier.now name.now line }
    ensures absent { result ≡ None → place_of earlier.now name.now ≡ None }
    ensures few { result ≡ None → length earlier.now + 1 < 2 ^ 32 }
{
    if lacks_name(kind, name) {
        Some(ObjectsWhat::NoName)
    } else if is_bad_name(kind, name) {
        Some(ObjectsWhat::BadName)
    } else if earlier.contains(name) {
        Some(ObjectsWhat::Twice)
    } else if earlier.len() >= kind.limit() {
        Some(ObjectsWhat::TooMany)
    } else {
        None
    }
}

/// Whether a part of an object's name is absent or empty.
fn lacks_name(kind: BlockKind, name: &ObjectName) -> bool
    ensures { result ≡ lacks_name kind name.now }
{
    name.first().is_empty() || (kind.second_directive().is_some() && name.second().is_empty())
}

/// Whether a name of a kind whose names are without `;` has one.
fn is_bad_name(kind: BlockKind, name: &ObjectName) -> bool
    ensures { result ≡ is_bad_name kind name.now }
{
    kind.has_numbers() && (has_separator(name.first()) || has_separator(name.second()))
}

fn has_separator(text: &str) -> bool
    ensures { result ≡ has_separator text.now }
{
    text.as_bytes().iter().any(|byte| *byte == b';')
}
