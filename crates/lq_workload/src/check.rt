ghost use Rattle.std.specs.Prelude.{◌≡◌, ◌+◌, ◌<◌, ◌≤◌, ◌^◌};
ghost use Rattle.lq_workload.specs.Checks.{after_check, next_check, state_name};

use crate::generator::Generator;

/// The result of a check of a service.
#[derive(Clone, Copy)]
pub(crate) struct Check {
    /// When it came, in seconds.
    pub second: u64,
    /// The number of the host, below 100.
    pub host: u64,
    /// The number of the host's service, below 10.
    pub service: u64,
    /// The state, below 4.
    pub state: u64,
}

impl Check {
    /// The name of the state.
    #[tactic(auto, unfolding(crate::specs::Checks::state_name))]
    pub(crate) fn state_name(self) -> &'static str
        ensures { result.now ≡ state_name self.state }
    {
        match self.state {
            0 => "OK",
            1 => "WARNING",
            2 => "CRITICAL",
            _ => "UNKNOWN",
        }
    }
}

/// Results of checks, each at most 29 seconds after the one before it.
#[derive(Clone, Copy)]
pub(crate) struct Checks {
    pub generator: Generator,
    /// When the last result came, in seconds.
    pub second: u64,
}

impl Checks {
    /// The next result.
    pub(crate) fn next(&mut self) -> Check
        requires { self.old.second < 2 ^ 63 }
        ensures check { result ≡ next_check self.old }
        ensures after { self.new ≡ after_check self.old }
        ensures soon { self.new.second ≤ self.old.second + 29 }
    {
        self.second += self.generator.draw(30);
        Check {
            second: self.second,
            host: self.generator.draw(100),
            service: self.generator.draw(10),
            state: self.generator.draw(4),
        }
    }
}
