ghost use Rattle.std.specs.Prelude.{◌≡◌, ◌≢◌, IfErr};
ghost use Rattle.std.specs.Io.{ReadsAtMost};
ghost use Rattle.std.specs.IoError.{error_kind};
ghost use Rattle.std.specs.Io.KnownBytes.{ReadConsumes};
ghost use Rattle.lq_outside.specs.Faults.{HasCause, RisesOnceAtMost, faults_after};

use crate::failed::Failed;
use crate::source::Source;
use std::io::{self, ErrorKind, Read};

/// A reader as a source. What is left is what the reader tells, so it is not told of a file, a
/// socket or the standard input. A read that a signal interrupts is taken again, and is no fault.
#[derive(Drop)]
pub struct StdSource<R> {
    inner: R,
    faults: u64,
}

impl<R: Read> StdSource<R> {
    ghost use Rattle.lq_outside.specs.Adapters.{reader_of, read_faults};

    /// Reads from `inner`.
    pub fn new(inner: R) -> Self
        ensures reader { reader_of result ≡ inner }
        ensures faults { read_faults result ≡ 0 }
    {
        StdSource { inner, faults: 0 }
    }

    /// How many reads failed. It stops at the largest `u64`.
    pub fn faults(&self) -> u64
        ensures { result ≡ read_faults self.now }
    {
        self.faults
    }
}

/// One read, taken again where a signal interrupts it. After as many interruptions as a `u64`
/// counts it has timed out.
fn read_uninterrupted<R: Read>(reader: &mut R, buf: &mut [u8]) -> io::Result<usize>
    ensures bound { ReadsAtMost result buf.new }
    ensures bytes { ReadConsumes (R.remaining reader.old) (R.remaining reader.new) result buf.new }
    ensures uninterrupted { IfErr result (λ error. error_kind error ≢ ErrorKind.Interrupted) }
{
    for _ in 0..u64::MAX {
        match reader.read(buf) {
            Err(error) if error.kind() == ErrorKind::Interrupted => {}
            other => return other,
        }
    }
    Err(ErrorKind::TimedOut.into())
}

impl<R: Read> Source for StdSource<R> {
    ghost use Rattle.std.specs.Prelude.{None};
    ghost use Rattle.lq_outside.specs.Adapters.{reader_of, read_faults};

    ghost left = { λ s. R.remaining (reader_of s) };

    ghost faults = { read_faults };

    // The count of faults rises by one at most.
    ghost one_read = { λ old new. RisesOnceAtMost (read_faults old) (read_faults new) };

    ghost other_side = { λ _. (None, 0) };

    fn read(&mut self, buf: &mut [u8]) -> Result<usize, Failed>
        ensures bound { ReadsAtMost result buf.new }
        ensures bytes { ReadConsumes (R.remaining (reader_of self.old))
            (R.remaining (reader_of self.new)) result buf.new }
        ensures cause { HasCause (read_faults self.old) (read_faults self.new) result }
        ensures once { RisesOnceAtMost (read_faults self.old) (read_faults self.new) }

        // The count rises only where a read fails.
        ensures faults { read_faults self.new ≡ faults_after result (read_faults self.old) }
    {
        match read_uninterrupted(&mut self.inner, buf) {
            Ok(count) => Ok(count),
            Err(_) => {
                self.faults = self.faults.saturating_add(1);
                Err(Failed)
            }
        }
    }
}
