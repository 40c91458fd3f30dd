//! Numbers that a stated number fixes.
ghost use Rattle.std.specs.Prelude.{◌<◌};

/// A row of numbers.
#[derive(Drop)]
pub struct Maker {
    state: u64,
}

impl Maker {
    /// The row that this number fixes.
    pub fn new(state: u64) -> Maker {
        Maker { state }
    }

    /// The next word.
    pub fn word(&mut self) -> u64 {
        self.state = self
            .state
            .wrapping_mul(6_364_136_223_846_793_005)
            .wrapping_add(1_442_695_040_888_963_407);
        self.state >> 33
    }

    /// A number below a bound.
    pub fn number(&mut self, below: usize) -> usize
        requires { 0 < below }
        ensures { result < below }
    {
        (self.word() % below as u64) as usize
    }
}
