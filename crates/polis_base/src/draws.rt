// Draws from a seed.
ghost use Rattle.std.specs.Prelude.{◌≡◌, ◌<◌};
ghost use Rattle.polis_base.specs.Draws.{next, draw};

// The linear congruential generator of Knuth's MMIX.
const MULTIPLIER: u64 = 6364136223846793005;

const INCREMENT: u64 = 1442695040888963407;

/// Numbers that are drawn one after another.
#[derive(Drop)]
pub struct Draws {
    /// The number from which the next draw is made, at the start the seed.
    pub x: u64,
}

impl Draws {
    /// A number below the bound.
    pub fn draw(&mut self, bound: u64) -> u64
        requires { 0 < bound }
        ensures answer { result ≡ draw self.old.x bound }
        ensures moves { self.new.x ≡ next self.old.x }
        ensures below { result < bound }
    {
        self.x = self.x.wrapping_mul(MULTIPLIER).wrapping_add(INCREMENT);
        (self.x >> 33) % bound
    }
}
