ghost use Rattle.std.specs.Prelude.{◌≡◌, ◌↔◌, ◌<◌, ◌≤◌, Some, Err, length, option_copied, IfOk};
ghost use Rattle.std.specs.Prelude.{IfErr, IsNone, IsSome, IsSomeAnd, Contains};
ghost use Rattle.lq_outside.specs.Faults.{next_count};
ghost use Rattle.lq_outside.specs.Forms.{held_in, file_pairs};
ghost use Rattle.lq_outside.specs.Loading.{HasLoadCause, IsFault, Loads, load_faults_after};

use crate::files::{Files, LoadErr};
use crate::plan::Plan;
use std::alloc::Global;
use std::marker::Model;

/// Files in memory. A load of a path that is not held is a fault. A load of one that is held fails
/// where its number is given, counted from 0. No other load is a fault.
#[derive(Drop)]
pub struct MemFiles {
    pairs: Vec<(String, Vec<u8>)>,
    plan: Plan,
}

impl Model for MemFiles {
    ghost use Rattle.lq_outside.specs.Forms.{FileSet, file_pairs};

    ghost Value = { FileSet };

    ghost view = { λ f. record {
      pairs = file_pairs f.pairs.items;
      fail_at = f.plan.fail_at;
      calls = f.plan.calls;
      faults = f.plan.faults;
    } };
}

// The bytes beside the first pair with this path.
fn find_file<'a>(pairs: &'a [(String, Vec<u8>)], path: &str) -> Option<&'a [u8]>
    ensures { option_copied result ≡ held_in (file_pairs pairs.now) path.now }
{
    for pair in pairs {
        if pair.0.as_str() == path {
            return Some(pair.1.as_slice());
        }
    }
    None
}

impl MemFiles {
    /// Holds the pairs of a path and its bytes; the first pair with a path decides. The loads with
    /// the numbers `fail_at` are to fail.
    pub fn new(pairs: Vec<(String, Vec<u8>)>, fail_at: Vec<u64>) -> Self
        ensures { result ≡ record {
          pairs = file_pairs pairs.items;
          fail_at = fail_at.items;
          calls = 0;
          faults = 0;
        } }
    {
        MemFiles {
            pairs,
            plan: Plan::new(fail_at),
        }
    }

    /// How many loads were faults.
    pub fn faults(&self) -> u64
        ensures { result ≡ self.now.faults }
    {
        self.plan.faults()
    }
}

// A copy of the bytes, where they are at most `most`.
fn copy_file(alloc: Global, bytes: &[u8], most: u64) -> Result<Vec<u8>, LoadErr>
    ensures ok { IfOk result (λ copy. (copy.items ≡ bytes.now) × (length bytes.now ≤ most)) }
    ensures large { (result ≡ Err LoadErr.TooLarge) ↔ (most < length bytes.now) }
    ensures no_fault { IfErr result (λ e. IsFault e → ⊥) }
{
    if bytes.len() as u64 > most {
        return Err(LoadErr::TooLarge);
    }
    match Vec::from_slice(alloc, bytes) {
        Ok(copy) => Ok(copy),
        Err(_) => Err(LoadErr::Memory),
    }
}

impl Files for MemFiles {
    ghost held_at = { λ f path. Some (held_in f.pairs path) };

    ghost faults = { λ f. f.faults };

    fn load(&mut self, alloc: Global, path: &str, most: u64) -> Result<Vec<u8>, LoadErr>
        ensures loads { Loads (Some (held_in self.old.pairs path.now)) most result }
        ensures cause { HasLoadCause self.old.faults self.new.faults result }

        // `Missing` comes before the number of the call is looked at, and that before the length.
        ensures missing { (result ≡ Err LoadErr.Missing) ↔
            IsNone (held_in self.old.pairs path.now) }
        ensures failed { (result ≡ Err LoadErr.Failed) ↔
            (IsSome (held_in self.old.pairs path.now) × Contains self.old.fail_at self.old.calls) }
        ensures large { (result ≡ Err LoadErr.TooLarge) ↔
            (IsSomeAnd (held_in self.old.pairs path.now) (λ bytes. most < length bytes)
            × ¬ Contains self.old.fail_at self.old.calls) }

        ensures faults { self.new.faults ≡ load_faults_after result self.old.faults }
        ensures calls { self.new.calls ≡ next_count self.old.calls }
        ensures pairs { self.new.pairs ≡ self.old.pairs }
        ensures plan { self.new.fail_at ≡ self.old.fail_at }
    {
        let is_planned = self.plan.begin_call();
        let Some(bytes) = find_file(&self.pairs, path) else {
            self.plan.count_fault();
            return Err(LoadErr::Missing);
        };
        if is_planned {
            self.plan.count_fault();
            return Err(LoadErr::Failed);
        }
        copy_file(alloc, bytes, most)
    }
}
