ghost use Rattle.std.specs.Prelude.{◌≡◌, ◌≤◌, ◌↔◌, IsTrue, Contains};
ghost use Rattle.lq_outside.specs.Faults.{next_count};

use std::marker::Model;

// The calls that a form in memory is to fail, by number from 0, and its counts.
#[derive(Drop)]
pub(crate) struct Plan {
    fail_at: Vec<u64>,
    calls: u64,
    faults: u64,
}

impl Model for Plan {
    ghost use Rattle.lq_outside.specs.Forms.{Planned};

    ghost Value = { Planned };

    ghost view = { λ p. record { fail_at = p.fail_at.items; calls = p.calls; faults = p.faults } };
}

impl Plan {
    pub(crate) fn new(fail_at: Vec<u64>) -> Self
        ensures { result ≡ record { fail_at = fail_at.items; calls = 0; faults = 0 } }
    {
        Plan {
            fail_at,
            calls: 0,
            faults: 0,
        }
    }

    pub(crate) fn faults(&self) -> u64
        ensures { result ≡ self.now.faults }
    {
        self.faults
    }

    // Counts a call, and says whether it is to fail.
    pub(crate) fn begin_call(&mut self) -> bool
        ensures planned { IsTrue result ↔ Contains self.old.fail_at self.old.calls }
        ensures counted { self.new ≡ record self.old { calls = next_count self.old.calls } }
    {
        let is_planned = self.fail_at.contains(&self.calls);
        self.calls = self.calls.saturating_add(1);
        is_planned
    }

    pub(crate) fn count_fault(&mut self)
        ensures later { self.old.faults ≤ self.new.faults }
        ensures counted { self.new ≡ record self.old { faults = next_count self.old.faults } }
    {
        self.faults = self.faults.saturating_add(1);
    }
}
