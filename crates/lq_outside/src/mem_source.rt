ghost use Rattle.std.specs.Prelude.{◌≡◌, ◌↔◌, Some, None, length, min, IfOk, IsErr, Contains};
ghost use Rattle.std.specs.Io.{ReadsAtMost};
ghost use Rattle.std.specs.Io.KnownBytes.{ReadConsumes};
ghost use Rattle.lq_outside.specs.Faults.{HasCause, faults_after, next_count};

use crate::failed::Failed;
use crate::plan::Plan;
use crate::source::Source;
use crate::unread::Unread;
use std::marker::Model;

/// Bytes in memory as a source. The reads whose numbers are given fail, counted from 0, and no
/// other.
#[derive(Drop)]
pub struct MemSource {
    unread: Unread,
    plan: Plan,
}

impl Model for MemSource {
    ghost use Rattle.lq_outside.specs.Forms.{Input};

    ghost Value = { Input };

    ghost view = { λ s. record {
      left = s.unread;
      fail_at = s.plan.fail_at;
      calls = s.plan.calls;
      faults = s.plan.faults;
    } };
}

impl MemSource {
    /// A source that has all of `bytes` left. The reads with the numbers `fail_at` are to fail.
    pub fn new(bytes: Vec<u8>, fail_at: Vec<u64>) -> Self
        ensures { result ≡ record {
          left = bytes.items;
          fail_at = fail_at.items;
          calls = 0;
          faults = 0;
        } }
    {
        MemSource {
            unread: Unread::new(bytes),
            plan: Plan::new(fail_at),
        }
    }

    /// The bytes that are left.
    pub fn left(&self) -> &[u8]
        ensures { result.now ≡ self.now.left }
    {
        self.unread.as_slice()
    }

    /// How many reads failed.
    pub fn faults(&self) -> u64
        ensures { result ≡ self.now.faults }
    {
        self.plan.faults()
    }
}

impl Source for MemSource {
    ghost left = { λ s. Some s.left };

    ghost faults = { λ s. s.faults };

    ghost one_read = { λ old new. new.calls ≡ next_count old.calls };

    ghost other_side = { λ _. (None, 0) };

    fn read(&mut self, buf: &mut [u8]) -> Result<usize, Failed>
        ensures bound { ReadsAtMost result buf.new }
        ensures bytes { ReadConsumes (Some self.old.left) (Some self.new.left) result buf.new }
        ensures cause { HasCause self.old.faults self.new.faults result }

        // It fails exactly at the numbers given, and its count rises only there.
        ensures fails { IsErr result ↔ Contains self.old.fail_at self.old.calls }
        ensures faults { self.new.faults ≡ faults_after result self.old.faults }
        ensures once { self.new.calls ≡ next_count self.old.calls }
        ensures plan { self.new.fail_at ≡ self.old.fail_at }
        ensures count { IfOk result (λ n. n ≡ min (length self.old.left) (length buf.old)) }
    {
        if self.plan.begin_call() {
            self.plan.count_fault();
            return Err(Failed);
        }
        Ok(self.unread.give(buf))
    }
}
