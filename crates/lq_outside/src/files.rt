ghost use Rattle.std.specs.Prelude.{◌≡◌, ℕ, List, Option};
ghost use Rattle.lq_outside.specs.Loading.{HasLoadCause, Loads};

use std::alloc::Global;
use std::error::Error;
use std::fmt;

/// Why a file was not loaded.
#[derive(Clone, Copy, Debug, PartialEq, Eq)]
pub enum LoadErr {
    /// Nothing is there at the path. The count of faults rose.
    Missing,
    /// What is there could not be read. The count of faults rose.
    Failed,
    /// The file has more bytes than the call allows. This is no fault.
    TooLarge,
    /// Memory ran out. This is no fault.
    Memory,
}

impl fmt::Display for LoadErr {
    ghost use Rattle.std.specs.Prelude.{Some};
    ghost use Rattle.lq_outside.specs.Loading.{load_err_text};

    ghost output = { λ e. Some (load_err_text e) };

    fn fmt<W: fmt::Write>(&self, f: &mut fmt::Formatter<W>) -> fmt::Result {
        f.write_str(match self {
            LoadErr::Missing => "missing",
            LoadErr::Failed => "cannot be read",
            LoadErr::TooLarge => "too large",
            LoadErr::Memory => "out of memory",
        })
    }
}

impl Error for LoadErr {}

/// Files by their paths.
pub trait Files {
    // What is there at a path: not told, or told to be nothing, or told with its bytes.
    ghost held_at: { Self → List ℕ → Option (Option (List ℕ)) };

    // How many loads were faults.
    ghost faults: { Self → ℕ };

    /// Returns all bytes of the file at `path`, which may be at most `most`. No load changes a
    /// file. A read that a signal interrupts is taken again.
    fn load(&mut self, alloc: Global, path: &str, most: u64) -> Result<Vec<u8>, LoadErr>
        ensures loads { Loads (held_at self.old path.now) most result }
        ensures cause { HasLoadCause (faults self.old) (faults self.new) result }
        ensures stays { (p : List ℕ) → held_at self.new p ≡ held_at self.old p };
}
