ghost use Rattle.std.specs.Prelude.{◌≡◌};

use crate::kind::BlockKind;
use crate::line::Line;
use std::marker::Model;

/// A block of a known kind, with the lines in it.
#[derive(Drop)]
pub(crate) struct Block<'p, 'a> {
    kind: BlockKind,
    lines: &'p [Line<'a>],
}

impl<'p, 'a> Model for Block<'p, 'a> {
    ghost use Rattle.lq_objects.specs.Names.{Block};

    ghost Value = { Block };

    ghost view = { λ block. record { kind = block.kind; lines = block.lines.now } };
}

impl<'p, 'a> Block<'p, 'a> {
    pub(crate) fn new(kind: BlockKind, lines: &'p [Line<'a>]) -> Self
        ensures { result ≡ record { kind = kind; lines = lines.now } }
    {
        Block { kind, lines }
    }

    pub(crate) fn kind(&self) -> BlockKind
        ensures { result ≡ self.now.kind }
    {
        self.kind
    }

    pub(crate) fn lines(&self) -> &'p [Line<'a>]
        ensures { result.now ≡ self.now.lines }
    {
        self.lines
    }
}
