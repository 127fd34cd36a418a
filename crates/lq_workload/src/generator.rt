ghost use Rattle.std.specs.Prelude.{◌≡◌, ◌<◌};
ghost use Rattle.lq_workload.specs.Draws.{after_draw, draw_below};

/// A generator of numbers that look random. Each draw follows from the number that the one before
/// it left.
#[derive(Clone, Copy)]
pub(crate) struct Generator {
    pub number: u64,
}

impl Generator {
    /// Draws a number below another one.
    #[tactic(auto, unfolding(crate::specs::Draws::after_draw, crate::specs::Draws::draw_below))]
    pub(crate) fn draw(&mut self, below: u64) -> u64
        requires { 0 < below }
        ensures below { result < below }
        ensures drawn { result ≡ draw_below below self.old.number }
        ensures after { self.new.number ≡ after_draw self.old.number }
    {
        self.number = self
            .number
            .wrapping_mul(6_364_136_223_846_793_005)
            .wrapping_add(1_442_695_040_888_963_407);
        (self.number >> 33) % below
    }
}
