ghost use Rattle.std.specs.Prelude.{◌≡◌, Some, None, Ok, length, min};
ghost use Rattle.std.specs.Io.{ReadsAtMost};
ghost use Rattle.std.specs.Io.KnownBytes.{ReadConsumes};
ghost use Rattle.lq_outside.specs.Forms.{LosesFront};

use crate::failed::Failed;
use crate::source::Source;
use crate::unread::Unread;
use std::marker::Model;

/// Bytes in memory as a source that never fails.
#[derive(Drop)]
pub struct SteadySource {
    unread: Unread,
}

impl Model for SteadySource {
    ghost use Rattle.std.specs.Prelude.{ℕ, List};

    ghost Value = { List ℕ };

    ghost view = { λ s. s.unread };
}

impl SteadySource {
    /// A source that has all of `bytes` left.
    pub fn new(bytes: Vec<u8>) -> Self
        ensures { result ≡ bytes.items }
    {
        SteadySource {
            unread: Unread::new(bytes),
        }
    }

    /// The bytes that are left.
    pub fn left(&self) -> &[u8]
        ensures { result.now ≡ self.now }
    {
        self.unread.as_slice()
    }

    /// No read fails, so this is 0.
    pub fn faults(&self) -> u64
        ensures { result ≡ 0 }
    {
        0
    }
}

impl Source for SteadySource {
    ghost left = { λ s. Some s };

    ghost faults = { λ _. 0 };

    ghost one_read = { LosesFront };

    ghost other_side = { λ _. (None, 0) };

    fn read(&mut self, buf: &mut [u8]) -> Result<usize, Failed>
        ensures bound { ReadsAtMost result buf.new }
        ensures bytes { ReadConsumes (Some self.old) (Some self.new) result buf.new }
        ensures once { LosesFront self.old self.new }
        ensures count { result ≡ Ok (min (length self.old) (length buf.old)) }
    {
        Ok(self.unread.give(buf))
    }
}
