ghost use Rattle.std.specs.Prelude.{◌≡◌};
ghost use Rattle.lq_objects.specs.Reading.{what_text};
ghost use Rattle.lq_objects.specs.declared.fault.ObjectsErr.TheVariants.{At};

use std::alloc::AllocError;
use std::fmt::{self, Display, Formatter, Write};
use thiserror::Error;

/// What is wrong in a line of the object file.
#[derive(Clone, Copy, Debug)]
pub enum ObjectsWhat {
    /// A line outside a block that opens none.
    Stray,
    /// `use` or `register` in a block of a known kind.
    NotFlattened,
    /// A number outside its range.
    BadNumber,
    /// A name is absent or empty.
    NoName,
    /// A host's or a service's name contains `;`.
    BadName,
    /// The name stands in an earlier block of the kind.
    Twice,
    /// More objects of a kind than a base may have.
    TooMany,
    /// A block that isn't closed before the next one opens, or before the end.
    Unclosed,
    /// A name of an object that isn't there, or an odd number of elements in a service group.
    UnknownName,
}

impl ObjectsWhat {
    /// The words that a message says it by.
    pub fn text(self) -> &'static str
        ensures { result.now ≡ what_text self }
    {
        match self {
            ObjectsWhat::Stray => "stray line",
            ObjectsWhat::NotFlattened => "not flattened",
            ObjectsWhat::BadNumber => "bad number",
            ObjectsWhat::NoName => "no name",
            ObjectsWhat::BadName => "bad name",
            ObjectsWhat::Twice => "twice",
            ObjectsWhat::TooMany => "too many",
            ObjectsWhat::Unclosed => "unclosed",
            ObjectsWhat::UnknownName => "unknown name",
        }
    }
}

impl Display for ObjectsWhat {
    ghost use Rattle.std.specs.Prelude.{Some};
    ghost use Rattle.lq_objects.specs.Reading.{what_text};

    ghost output = { λ what. Some (what_text what) };

    fn fmt<W: Write>(&self, f: &mut Formatter<W>) -> fmt::Result {
        f.write_str(self.text())
    }
}

// No clause speaks of the derived `Display`: the program prints the words of `ObjectsWhat::text`.
/// Why an object file gives no base.
#[derive(Debug, Drop, Error)]
pub enum ObjectsErr {
    /// The number of a line, from 1, and what is wrong there.
    #[error("line {line}: {what}")]
    At { line: u64, what: ObjectsWhat },
    /// Out of memory.
    #[error(transparent)]
    Memory(#[from(alloc)] AllocError),
}

/// The first fault of an object file, as contracts speak of it: the number of its line, from 1, and
/// what is wrong there.
#[derive(Clone, Copy)]
pub struct FaultyLine {
    pub line: u64,
    pub what: ObjectsWhat,
}

impl FaultyLine {
    pub(crate) fn error(self) -> ObjectsErr
        ensures { result ≡ At self.line self.what }
    {
        ObjectsErr::At {
            line: self.line,
            what: self.what,
        }
    }
}

/// Why the object of a block isn't made.
#[derive(Drop)]
pub(crate) enum ObjectErr {
    /// One of its directives names what isn't there.
    UnknownName,
    /// Out of memory.
    Memory(AllocError),
}

impl From<AllocError> for ObjectErr {
    ghost use Rattle.lq_objects.specs.declared.fault.ObjectErr.TheVariants.{Memory};

    ghost from_gives = { λ error e. e ≡ Memory error };

    fn from(error: AllocError) -> Self {
        ObjectErr::Memory(error)
    }
}
