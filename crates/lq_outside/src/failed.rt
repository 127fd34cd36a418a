ghost use Rattle.std.specs.Prelude.{Some, codes};

use std::alloc::AllocError;
use std::error::Error;
use std::fmt;

/// The error of a call that ran out of memory.
pub type Memory = AllocError;

/// A read or a write failed, and the count of faults rose.
#[derive(Clone, Copy, Debug, PartialEq, Eq)]
pub struct Failed;

impl fmt::Display for Failed {
    ghost output = { λ _. Some (codes "the call failed") };

    fn fmt<W: fmt::Write>(&self, f: &mut fmt::Formatter<W>) -> fmt::Result {
        f.write_str("the call failed")
    }
}

impl Error for Failed {}
