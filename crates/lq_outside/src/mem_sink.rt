ghost use Rattle.std.specs.Prelude.{◌≡◌, ◌<◌, ◌⊎◌, [], Some, None, length, IfOk, OnErr, IsErr};
ghost use Rattle.std.specs.Prelude.{Contains};
ghost use Rattle.std.specs.Io.{WritesAtMost};
ghost use Rattle.std.specs.Io.KnownBytes.{WriteAppends};
ghost use Rattle.lq_outside.specs.Faults.{HasCause, faults_after, next_count};

use crate::failed::Failed;
use crate::plan::Plan;
use crate::sink::Sink;
use std::alloc::Global;
use std::marker::Model;

/// A sink that keeps its bytes in memory. A write fails where its number is given, counted from 0,
/// or where it finds no room for the piece; each other write takes the whole piece.
#[derive(Drop)]
pub struct MemSink {
    bytes: Vec<u8>,
    plan: Plan,
}

impl Model for MemSink {
    ghost use Rattle.std.specs.Prelude.{◌-◌, vec_len, vec_capacity};
    ghost use Rattle.lq_outside.specs.Forms.{Output};

    ghost Value = { Output };

    ghost view = { λ s. record {
      held = s.bytes.items;
      room = vec_capacity s.bytes - vec_len s.bytes;
      fail_at = s.plan.fail_at;
      calls = s.plan.calls;
      faults = s.plan.faults;
    } };
}

impl MemSink {
    /// A sink that holds nothing. The writes with the numbers `fail_at` are to fail.
    pub fn new(alloc: Global, fail_at: Vec<u64>) -> Self
        ensures held { result.held ≡ [] }
        ensures plan { result.fail_at ≡ fail_at.items }
        ensures calls { result.calls ≡ 0 }
        ensures faults { result.faults ≡ 0 }
    {
        MemSink {
            bytes: Vec::new(alloc),
            plan: Plan::new(fail_at),
        }
    }

    /// The bytes that it holds.
    pub fn held(&self) -> &[u8]
        ensures { result.now ≡ self.now.held }
    {
        self.bytes.as_slice()
    }

    /// How many writes failed.
    pub fn faults(&self) -> u64
        ensures { result ≡ self.now.faults }
    {
        self.plan.faults()
    }
}

impl Sink for MemSink {
    ghost held = { λ s. Some s.held };

    ghost faults = { λ s. s.faults };

    ghost other_side = { λ _. (None, 0) };

    fn write(&mut self, piece: &[u8]) -> Result<usize, Failed>
        ensures bound { WritesAtMost result piece.now }
        ensures bytes { WriteAppends (Some self.old.held) (Some self.new.held) result piece.now }
        ensures some { IfOk result (λ n. 0 < length piece.now → 0 < n) }
        ensures cause { HasCause self.old.faults self.new.faults result }

        // It fails at each number given, and else only where it has no room. Its count rises only
        // there.
        ensures fails { Contains self.old.fail_at self.old.calls → IsErr result }
        ensures why { OnErr result
            (Contains self.old.fail_at self.old.calls ⊎ (self.old.room < length piece.now)) }
        ensures faults { self.new.faults ≡ faults_after result self.old.faults }
        ensures calls { self.new.calls ≡ next_count self.old.calls }
        ensures plan { self.new.fail_at ≡ self.old.fail_at }
        ensures whole { IfOk result (λ n. n ≡ length piece.now) }
    {
        if self.plan.begin_call() || self.bytes.extend_from_slice(piece).is_err() {
            self.plan.count_fault();
            return Err(Failed);
        }
        Ok(piece.len())
    }
}
