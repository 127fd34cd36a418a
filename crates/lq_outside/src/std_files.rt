ghost use Rattle.std.specs.Prelude.{◌≡◌, ◌≢◌, ◌≤◌, ◌↔◌, None, length, IfOk};
ghost use Rattle.lq_outside.specs.Loading.{HasLoadCause, Loads, load_faults_after};

use crate::files::{Files, LoadErr};
use std::alloc::Global;
use std::io::{ErrorKind, Read};
use std::{fs, rt};

/// The files of the system. What they hold is not told.
#[derive(Drop)]
pub struct StdFiles<'a, R> {
    rt: &'a R,
    faults: u64,
}

impl<'a, R: rt::Files> StdFiles<'a, R> {
    ghost use Rattle.lq_outside.specs.Adapters.{load_faults};

    /// Opens files by `rt`.
    pub fn new(rt: &'a R) -> Self
        ensures { load_faults result ≡ 0 }
    {
        StdFiles { rt, faults: 0 }
    }

    /// How many loads were faults. It stops at the largest `u64`.
    pub fn faults(&self) -> u64
        ensures { result ≡ load_faults self.now }
    {
        self.faults
    }
}

// Why a file that is there could not be read.
fn read_error(kind: ErrorKind) -> LoadErr
    ensures memory { kind ≡ ErrorKind.OutOfMemory → result ≡ LoadErr.Memory }
    ensures failed { kind ≢ ErrorKind.OutOfMemory → result ≡ LoadErr.Failed }
{
    match kind {
        ErrorKind::OutOfMemory => LoadErr::Memory,
        _ => LoadErr::Failed,
    }
}

// Why a file could not be opened.
fn open_error(kind: ErrorKind) -> LoadErr
    ensures missing { (result ≡ LoadErr.Missing) ↔ (kind ≡ ErrorKind.NotFound) }
    ensures memory { (result ≡ LoadErr.Memory) ↔ (kind ≡ ErrorKind.OutOfMemory) }
    ensures no_length { result ≢ LoadErr.TooLarge }
{
    match kind {
        ErrorKind::NotFound => LoadErr::Missing,
        other => read_error(other),
    }
}

fn read_file<R: rt::Files>(rt: &R, alloc: Global, path: &str, most: u64) -> Result<Vec<u8>, LoadErr>
    ensures { IfOk result (λ bytes. length bytes.items ≤ most) }
{
    let file = match fs::open(rt, path) {
        Ok(file) => file,
        Err(e) => return Err(open_error(e.kind())),
    };
    let mut bytes = Vec::new(alloc);
    if let Err(e) = file.take(most.saturating_add(1)).read_to_end(&mut bytes) {
        return Err(read_error(e.kind()));
    }
    if bytes.len() as u64 > most {
        return Err(LoadErr::TooLarge);
    }
    Ok(bytes)
}

impl<R: rt::Files> Files for StdFiles<'_, R> {
    ghost use Rattle.std.specs.Prelude.{None};
    ghost use Rattle.lq_outside.specs.Adapters.{load_faults};

    ghost held_at = { λ _ _. None };

    ghost faults = { load_faults };

    fn load(&mut self, alloc: Global, path: &str, most: u64) -> Result<Vec<u8>, LoadErr>
        ensures loads { Loads None most result }
        ensures cause { HasLoadCause (load_faults self.old) (load_faults self.new) result }

        // The count rises only where the answer is a fault.
        ensures faults { load_faults self.new ≡ load_faults_after result (load_faults self.old) }
    {
        match read_file(self.rt, alloc, path, most) {
            Err(error @ (LoadErr::Missing | LoadErr::Failed)) => {
                self.faults = self.faults.saturating_add(1);
                Err(error)
            }
            other => other,
        }
    }
}
