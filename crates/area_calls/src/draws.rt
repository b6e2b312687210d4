// Numbers at random, the same in each run.

ghost use Rattle.std.specs.Prelude.{◌≡◌, ◌<◌, ◌≤◌, max};

/// A linear congruential generator.
#[derive(Clone, Copy)]
pub struct Draws {
    state: u64,
}

impl Draws {
    pub fn new() -> Draws {
        Draws { state: 1 }
    }

    /// A number below another, or 0.
    pub fn below(&mut self, bound: u32) -> u32
        ensures { result < max 1 bound }
    {
        self.state = self
            .state
            .wrapping_mul(6_364_136_223_846_793_005)
            .wrapping_add(1_442_695_040_888_963_407);
        let drawn = (self.state >> 33) as u32;
        drawn.checked_rem(bound).unwrap_or(0)
    }
}
