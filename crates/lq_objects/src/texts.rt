ghost use Rattle.std.specs.Prelude.{◌≡◌, ◌<◌, IfOk};
ghost use Rattle.lq_records.specs.Clean.{text_of_bytes};

use lq_records::{Text, clean_text};
use std::alloc::{AllocError, Global};
use std::cell::Cell;
use std::hash::{FoldHasher, Hasher};

/// How many texts are remembered: a power of two, so that a place is cheap to reckon.
const PLACES: usize = 4096;

/// Makes texts of values, and remembers some that it made: an equal value then gets a clone, which
/// takes no memory. Most texts of a site are few distinct ones.
#[derive(Drop)]
pub(crate) struct Texts {
    alloc: Global,
    /// Each text at the place that its bytes give. A later one takes the place of an earlier one.
    /// They stand in cells, since what is remembered changes no answer: one is only given where its
    /// bytes are those that are asked for.
    recent: Vec<Cell<Text>>,
}

impl Texts {
    /// It remembers no text yet. The only error is that memory runs out.
    pub(crate) fn new(alloc: Global) -> Result<Self, AllocError> {
        let mut recent = Vec::with_capacity(alloc, PLACES)?;
        for _ in 0..PLACES {
            recent.push(Cell::new(Text::empty()))?;
        }
        Ok(Texts { alloc, recent })
    }

    /// What the memory is taken from.
    pub(crate) fn alloc(&self) -> Global {
        self.alloc
    }

    /// The text of a value, as `clean_text` gives it. The only error is that memory runs out.
    pub(crate) fn text(&self, value: &[u8]) -> Result<Text, AllocError>
        ensures { IfOk result (λ text. text ≡ text_of_bytes value.now) }
    {
        let Some(recent) = self.recent.get(place_of(value)) else {
            return clean_text(self.alloc, value);
        };
        let text = text_by(self.alloc, recent.replace(Text::empty()), value)?;
        recent.set(text.clone()?);
        Ok(text)
    }
}

/// A known text, where its bytes are those of a value, or else a new one.
fn text_by(alloc: Global, known: Text, value: &[u8]) -> Result<Text, AllocError>
    ensures { IfOk result (λ text. text ≡ text_of_bytes value.now) }
{
    if known.as_str().as_bytes() == value {
        Ok(known)
    } else {
        clean_text(alloc, value)
    }
}

/// The place for a value's text.
fn place_of(value: &[u8]) -> usize
    ensures { result < PLACES }
{
    let mut hasher = FoldHasher::default();
    hasher.write(value);
    hasher.finish() as usize % PLACES
}
