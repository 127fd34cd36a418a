ghost use Rattle.std.specs.Prelude.{◌≡◌, ℕ, ◌<◌, List, Option, length, IfOk, OnOk, OnErr};
ghost use Rattle.std.specs.Io.{WritesAtMost};
ghost use Rattle.std.specs.Io.KnownBytes.{Appends, WriteAppends};
ghost use Rattle.lq_outside.specs.Faults.{HasCause};
ghost use Rattle.lq_outside.specs.Sinks.{AppendsFront};

use crate::failed::Failed;

/// A place to write bytes to.
pub trait Sink {
    // The bytes that it holds, where they are told.
    ghost held: { Self → Option (List ℕ) };

    // How many writes failed.
    ghost faults: { Self → ℕ };

    // The bytes and the faults of a source that is the other side of this sink, where it has one.
    ghost other_side: { Self → Option (List ℕ) × ℕ };

    /// Adds the first bytes of `piece` to what the sink holds, and returns how many: at least one,
    /// unless the piece is empty. After `Failed` the sink holds what it held.
    fn write(&mut self, piece: &[u8]) -> Result<usize, Failed>
        ensures bound { WritesAtMost result piece.now }
        ensures bytes { WriteAppends (held self.old) (held self.new) result piece.now }
        ensures some { IfOk result (λ n. 0 < length piece.now → 0 < n) }
        ensures cause { HasCause (faults self.old) (faults self.new) result }
        ensures other { other_side self.new ≡ other_side self.old };
}

/// Writes all the bytes, in as many writes as it takes. It stops at the first that fails; the sink
/// has then taken some of the first bytes, or none.
pub fn write_all<K: Sink>(sink: &mut K, bytes: &[u8]) -> Result<(), Failed>
    ensures ok { OnOk result (Appends (K.held sink.old) (K.held sink.new) bytes.now) }
    ensures err { OnErr result (AppendsFront (K.held sink.old) (K.held sink.new) bytes.now) }
    ensures cause { HasCause (K.faults sink.old) (K.faults sink.new) result }
    ensures other { K.other_side sink.new ≡ K.other_side sink.old }
{
    let mut at = 0;
    'pieces: while at < bytes.len() {
        at += sink.write(&bytes[at..])?;
    }
    Ok(())
}
