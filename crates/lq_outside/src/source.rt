ghost use Rattle.std.specs.Prelude.{◌≡◌, ℕ, List, Option};
ghost use Rattle.std.specs.Io.{ReadsAtMost};
ghost use Rattle.std.specs.Io.KnownBytes.{ReadConsumes};
ghost use Rattle.lq_outside.specs.Faults.{HasCause};

use crate::failed::Failed;

/// A stream of bytes to read.
pub trait Source {
    // The bytes that are left, where they are told.
    ghost left: { Self → Option (List ℕ) };

    // How many reads failed.
    ghost faults: { Self → ℕ };

    // What one read makes of this source. Who knows a source by this trait alone has it of two
    // sources only where the second came from the first by one call of `read`.
    ghost one_read: { Self → Self → Type 0 };

    // The bytes and the faults of a sink that is the other side of this source, where it has one.
    ghost other_side: { Self → Option (List ℕ) × ℕ };

    /// Reads some of the bytes that are left into the front of `buf`, and returns how many. None
    /// into a buffer with room means that no byte is left. After `Failed` all bytes are left that
    /// were.
    fn read(&mut self, buf: &mut [u8]) -> Result<usize, Failed>
        ensures bound { ReadsAtMost result buf.new }
        ensures bytes { ReadConsumes (left self.old) (left self.new) result buf.new }
        ensures cause { HasCause (faults self.old) (faults self.new) result }
        ensures once { one_read self.old self.new }
        ensures other { other_side self.new ≡ other_side self.old };
}
