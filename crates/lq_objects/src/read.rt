ghost use Rattle.std.specs.Prelude.{◌≡◌, ◌++◌, [], Ok, IfOk, OnOk};
ghost use Rattle.std.specs.Option.{option_copied};
ghost use Rattle.lq_records.specs.Sound.{IsSound};
ghost use Rattle.lq_objects.specs.Blocks.{parts_of};
ghost use Rattle.lq_objects.specs.Checks.{Checks};
ghost use Rattle.lq_objects.specs.Directories.{directory_of, names_in};
ghost use Rattle.lq_objects.specs.Faults.{block_of, blocks_of, part_fault, parts_fault};
ghost use Rattle.lq_objects.specs.Names.{block_names};
ghost use Rattle.lq_objects.specs.Objects.{base_of, base_of_parts, objects_of};
ghost use Rattle.lq_objects.specs.Reading.{Reads};

use crate::block::Block;
use crate::check::read_part;
use crate::directory::Directory;
use crate::fault::ObjectsErr;
use crate::line::{Line, needed_lines};
use crate::objects::objects_of;
use crate::part::{Part, after, first_part};
use crate::texts::Texts;
use lq_records::{Base, Rules};
use std::alloc::{AllocError, Global};

/// The base that an object file says, with the rules given, or what is wrong in it first.
///
/// The file is the one that Nagios Core writes for its `object_cache_file`. Bytes that aren't UTF-8
/// become U+FFFD. The base is sound: the names of a kind differ and none is empty, each id is a
/// place in the list of its kind, and no list is longer than its limit. `ObjectsErr::At` comes
/// exactly where the file has a fault, with the first one: by its line, and in one line in the
/// order of `ObjectsWhat`, names that aren't there after all others. Any other error is that memory
/// ran out.
pub fn read_objects(alloc: Global, b: &[u8], rules: Rules) -> Result<Base, ObjectsErr>
    ensures reads { Reads result (base_of b.now rules) }
    ensures sound { IfOk result IsSound }
{
    match needed_lines(alloc, b) {
        Ok(lines) => read_lines(alloc, &lines, rules),
        Err(error) => Err(ObjectsErr::Memory(error)),
    }
}

/// The base that the lines of a file say, or the first fault in them.
fn read_lines(alloc: Global, lines: &[Line<'_>], rules: Rules) -> Result<Base, ObjectsErr>
    ensures { Reads result (base_of_parts rules (parts_of lines.now)) }
{
    let texts = Texts::new(alloc).map_err(ObjectsErr::Memory)?;
    let mut directory = Directory::new(alloc);
    let found = read_blocks(&texts, &mut directory, lines)?;
    objects_of(&texts, directory, rules, &found)
}

/// The blocks of known kinds, whose objects' names go into the directory, or the first fault of the
/// parts.
fn read_blocks<'p, 'a>(
    texts: &Texts,
    directory: &mut Directory,
    lines: &'p [Line<'a>],
) -> Result<Vec<Block<'p, 'a>>, ObjectsErr>
    requires { directory.old ≡ directory_of [] }
    ensures fault { Checks result (parts_fault [] (parts_of lines.now)) }
    ensures all { IfOk result (λ blocks. blocks.items ≡ blocks_of (parts_of lines.now)) }
    ensures directory { IfOk result (λ blocks. directory.new ≡ directory_of blocks.items) }
{
    let mut blocks = Vec::new(texts.alloc());
    let mut rest = lines;
    'parts: while !rest.is_empty() {
        let part = first_part(rest);
        read_next(texts, directory, &mut blocks, &part)?;
        rest = after(rest, part.length);
    }
    Ok(blocks)
}

/// Adds the block that a part is, where its kind is known.
fn read_next<'p, 'a>(
    texts: &Texts,
    directory: &mut Directory,
    blocks: &mut Vec<Block<'p, 'a>>,
    part: &Part<'p, 'a>,
) -> Result<(), ObjectsErr>
    requires { directory.old ≡ directory_of blocks.old.items }
    ensures fault { Checks result
        (part_fault (block_names blocks.old.items) part.now.lines.now
        (option_copied part.now.closing)) }
    ensures blocks { OnOk result
        (blocks.new.items ≡ blocks.old.items ++ block_of part.now.lines.now) }
    ensures directory { OnOk result (directory.new ≡ directory_of blocks.new.items) }
{
    if let Some(block) = read_part(texts, directory, part)? {
        blocks
            .push(block)
            .map_err(|_| ObjectsErr::Memory(AllocError))?;
    }
    Ok(())
}
