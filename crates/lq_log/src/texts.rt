ghost use Rattle.std.specs.Prelude.{◌≡◌, ◌<◌, IfOk};

use lq_records::{Memory, Text};
use std::alloc::Global;
use std::hash::{FoldHasher, Hasher};

/// How many texts are remembered.
const PLACES: usize = 16_384;

/// Makes the texts of lines. It remembers some that it made: an equal one is then a clone, which
/// takes no memory. The names and words of a log are few distinct ones.
#[derive(Drop)]
pub(crate) struct Texts {
    alloc: Global,
    /// The line that is read.
    line: Text,
    /// Each text at the place that its bytes give. A later one takes the place of an earlier one.
    recent: Vec<Text>,
}

impl Texts {
    /// It remembers the texts that it makes. The only error is out of memory.
    pub(crate) fn new(alloc: Global) -> Result<Self, Memory> {
        let mut recent = Vec::with_capacity(alloc, PLACES)?;
        for _ in 0..PLACES {
            recent.push(Text::empty())?;
        }
        Ok(Texts {
            alloc,
            line: Text::empty(),
            recent,
        })
    }

    /// It remembers none, and takes no memory: for a single line.
    pub(crate) fn of_a_line(alloc: Global) -> Self {
        Texts {
            alloc,
            line: Text::empty(),
            recent: Vec::new(alloc),
        }
    }

    /// What the memory is taken from.
    pub(crate) fn alloc(&self) -> Global {
        self.alloc
    }

    /// Takes note of the line that is read. The only error is out of memory.
    pub(crate) fn begin(&mut self, line: &Text) -> Result<(), Memory> {
        self.line = line.clone()?;
        Ok(())
    }

    /// A text that shares the bytes of the line where it is the end of it, as the output of a check
    /// is. The only error is out of memory.
    pub(crate) fn of_line(&self, text: &str) -> Result<Text, Memory>
        ensures { IfOk result (λ made. made ≡ text.now) }
    {
        self.line.with_end(self.alloc, text)
    }

    /// A text that may be one that was made before. The only error is out of memory.
    pub(crate) fn share(&mut self, text: &str) -> Result<Text, Memory>
        ensures { IfOk result (λ made. made ≡ text.now) }
    {
        let place = place_of(text);
        if place >= self.recent.len() {
            return Text::new(self.alloc, text);
        }
        if self.recent[place].as_str() != text {
            self.recent[place] = Text::new(self.alloc, text)?;
        }
        self.recent[place].clone()
    }
}

/// The place of a text.
fn place_of(text: &str) -> usize
    ensures { result < PLACES }
{
    let mut hasher = FoldHasher::default();
    hasher.write(text.as_bytes());
    hasher.finish() as usize % PLACES
}
