ghost use Rattle.std.specs.Prelude.{◌≡◌, IfOk, is_some, true};
ghost use Rattle.std.specs.List.{list_any};
ghost use Rattle.lq_objects.specs.Checks.{Tells};
ghost use Rattle.lq_objects.specs.Directories.{names_in};
ghost use Rattle.lq_objects.specs.Faults.{decides, is_unknown, names_unknown, unknown_in};
ghost use Rattle.lq_objects.specs.Faults.{unknown_in_block};
ghost use Rattle.lq_objects.specs.Blocks.{is_named};
ghost use Rattle.lq_objects.specs.Needed.{directive_word};

use crate::block::Block;
use crate::directive::value_of;
use crate::directory::Directory;
use crate::fault::{FaultyLine, ObjectsErr, ObjectsWhat};
use crate::kind::{BlockKind, Reference};
use crate::known::Directive;
use crate::line::Line;
use crate::names::{lacks_any, named_in};
use crate::part::after;
use crate::texts::Texts;
use std::alloc::AllocError;

/// The fault of a block that names what isn't there, as an error: its first line that does so.
pub(crate) fn unknown_error(
    texts: &Texts,
    directory: &Directory,
    block: &Block<'_, '_>,
) -> ObjectsErr
    requires { is_some (unknown_in_block (names_in directory.now) block.now) ≡ true }
    ensures { Tells result (unknown_in_block (names_in directory.now) block.now) }
{
    let finder = Finder { texts, directory };
    match finder.unknown_in_block(block) {
        Ok(Some(fault)) => fault.error(),
        Ok(None) => unreachable!(),
        Err(error) => ObjectsErr::Memory(error),
    }
}

/// What names are looked up in: the names of all objects.
#[derive(Drop)]
struct Finder<'d> {
    texts: &'d Texts,
    directory: &'d Directory,
}

impl<'d> Finder<'d> {
    /// The first line of a block that names what isn't there.
    fn unknown_in_block(&self, block: &Block<'_, '_>) -> Result<Option<FaultyLine>, AllocError>
        ensures { IfOk result
            (λ fault. fault ≡ unknown_in_block (names_in self.now.directory.now) block.now) }
    {
        self.unknown_in(block.kind(), block.lines())
    }

    /// The same, by the block's kind and lines.
    fn unknown_in(
        &self,
        kind: BlockKind,
        lines: &[Line<'_>],
    ) -> Result<Option<FaultyLine>, AllocError>
        ensures { IfOk result
            (λ fault. fault ≡ unknown_in (names_in self.now.directory.now) kind lines.now) }
    {
        for i in 0..lines.len() {
            let line = &lines[i];
            if self.any_unknown(line, after(lines, i + 1), kind.references())? {
                return Ok(Some(FaultyLine {
                    line: line.number(),
                    what: ObjectsWhat::UnknownName,
                }));
            }
        }
        Ok(None)
    }

    /// Whether a line names, by one of the directives, what isn't there.
    fn any_unknown(
        &self,
        line: &Line<'_>,
        later: &[Line<'_>],
        references: &[Reference],
    ) -> Result<bool, AllocError>
        ensures { IfOk result (λ unknown. unknown ≡ list_any
            (names_unknown (names_in self.now.directory.now) line.now later.now) references.now) }
    {
        for reference in references {
            if self.names_unknown(line, later, *reference)? {
                return Ok(true);
            }
        }
        Ok(false)
    }

    /// Whether a line is a directive, decides, and names what isn't there.
    fn names_unknown(
        &self,
        line: &Line<'_>,
        later: &[Line<'_>],
        reference: Reference,
    ) -> Result<bool, AllocError>
        ensures { IfOk result (λ unknown. unknown
            ≡ names_unknown (names_in self.now.directory.now) line.now later.now reference) }
    {
        if decides(reference.directive(), line, later) {
            let value = value_of(reference.directive().word(), line.text());
            self.is_unknown(reference, value)
        } else {
            Ok(false)
        }
    }

    /// Whether a value names what isn't there.
    fn is_unknown(&self, reference: Reference, value: &[u8]) -> Result<bool, AllocError>
        ensures { IfOk result
            (λ unknown. unknown
            ≡ is_unknown (names_in self.now.directory.now) reference value.now) }
    {
        let Some(names) = named_in(self.texts, reference, value)? else {
            return Ok(true);
        };
        Ok(lacks_any(self.directory.of(reference.target()), &names))
    }
}

/// Whether a line is the last one with a directive.
fn decides(wanted: Directive, line: &Line<'_>, later: &[Line<'_>]) -> bool
    ensures { result ≡ decides (directive_word wanted) line.now later.now }
{
    line.is_directive(wanted) && !is_among(wanted, later)
}

/// Whether a directive is among lines.
fn is_among(wanted: Directive, lines: &[Line<'_>]) -> bool
    ensures { result ≡ list_any (λ line. is_named (directive_word wanted) line.text) lines.now }
{
    lines.iter().any(|line| line.is_directive(wanted))
}
