//! Drawn numbers, the same for each machine.

ghost use Rattle.std.specs.Prelude.{◌≡◌, ◌%◌, ◌<◌};
ghost use Rattle.wave_base.specs.Draws.{next_draw, draw_from};

// The generator's multiplier and increment, modulo 2^64.
const MULTIPLIER: u64 = 6_364_136_223_846_793_005;

const INCREMENT: u64 = 1_442_695_040_888_963_407;

/// Numbers drawn one after the other by a linear congruential generator of 64 bits.
#[derive(Clone, Copy, Debug)]
pub struct Draws {
    /// What the next draw starts from.
    pub state: u64,
}

impl Draws {
    // The next number, of 31 bits.
    fn draw(&mut self) -> u64
        ensures state { self.new.state ≡ next_draw self.old.state }
        ensures drawn { result ≡ draw_from self.old.state }
    {
        self.state = MULTIPLIER.wrapping_mul(self.state).wrapping_add(INCREMENT);
        self.state / (1 << 33)
    }

    /// The next number, modulo `bound`.
    pub fn draw_below(&mut self, bound: u64) -> u64
        requires { 0 < bound }
        ensures state { self.new.state ≡ next_draw self.old.state }
        ensures drawn { result ≡ draw_from self.old.state % bound }
        ensures below { result < bound }
    {
        self.draw() % bound
    }
}
