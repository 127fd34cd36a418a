ghost use Rattle.std.specs.Prelude.{◌≡◌, ◌≢◌, ◌<◌, length, IfOk, IfErr};
ghost use Rattle.std.specs.Io.{WritesAtMost};
ghost use Rattle.std.specs.IoError.{error_kind};
ghost use Rattle.std.specs.Io.KnownBytes.{WriteAppends};
ghost use Rattle.lq_outside.specs.Faults.{HasCause, faults_after};

use crate::failed::Failed;
use crate::sink::Sink;
use std::io::{self, ErrorKind, Write};

/// A writer as a sink. What it holds is what the writer tells, so it is not told of a file, a
/// socket or the standard streams. No write is flushed: the standard streams keep nothing back, and
/// a writer that does is the caller's to flush. A write that a signal interrupts is taken again,
/// and is no fault.
#[derive(Drop)]
pub struct StdSink<W> {
    inner: W,
    faults: u64,
}

impl<W: Write> StdSink<W> {
    ghost use Rattle.lq_outside.specs.Adapters.{writer_of, write_faults};

    /// Writes to `inner`.
    pub fn new(inner: W) -> Self
        ensures writer { writer_of result ≡ inner }
        ensures faults { write_faults result ≡ 0 }
    {
        StdSink { inner, faults: 0 }
    }

    /// How many writes failed. It stops at the largest `u64`.
    pub fn faults(&self) -> u64
        ensures { result ≡ write_faults self.now }
    {
        self.faults
    }
}

/// One write, taken again where a signal interrupts it. After as many interruptions as a `u64`
/// counts it has timed out.
fn write_uninterrupted<W: Write>(writer: &mut W, piece: &[u8]) -> io::Result<usize>
    ensures bound { WritesAtMost result piece.now }
    ensures bytes { WriteAppends (W.contents writer.old) (W.contents writer.new) result piece.now }
    ensures uninterrupted { IfErr result (λ error. error_kind error ≢ ErrorKind.Interrupted) }
{
    for _ in 0..u64::MAX {
        match writer.write(piece) {
            Err(error) if error.kind() == ErrorKind::Interrupted => {}
            other => return other,
        }
    }
    Err(ErrorKind::TimedOut.into())
}

impl<W: Write> Sink for StdSink<W> {
    ghost use Rattle.std.specs.Prelude.{None};
    ghost use Rattle.lq_outside.specs.Adapters.{writer_of, write_faults};

    ghost held = { λ s. W.contents (writer_of s) };

    ghost faults = { write_faults };

    ghost other_side = { λ _. (None, 0) };

    fn write(&mut self, piece: &[u8]) -> Result<usize, Failed>
        ensures bound { WritesAtMost result piece.now }
        ensures bytes { WriteAppends (W.contents (writer_of self.old))
            (W.contents (writer_of self.new)) result piece.now }
        ensures some { IfOk result (λ n. 0 < length piece.now → 0 < n) }
        ensures cause { HasCause (write_faults self.old) (write_faults self.new) result }

        // The count rises only where a write fails.
        ensures faults { write_faults self.new ≡ faults_after result (write_faults self.old) }
    {
        match write_uninterrupted(&mut self.inner, piece) {
            Ok(count) if count > 0 || piece.is_empty() => Ok(count),
            _ => {
                self.faults = self.faults.saturating_add(1);
                Err(Failed)
            }
        }
    }
}
