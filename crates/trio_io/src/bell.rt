//! A bell that asks a run to stop.
ghost use Rattle.std.specs.Prelude.{◌≡◌, Bool, false, Some, None};
ghost use Rattle.trio_io.specs.Outside.{BellView, Asked, armed_with, unrung};

/// Asked again and again, it may ring once it is armed.
pub trait Bell {
    /// The seconds that the bell was armed with, none at first; how often it rang; and how many asks it left unanswered. Neither count falls. A bell
    /// whose count of rings stands at the last value of its 64 bits rings no more; that of quiet asks may stay where it is, as at that value.
    ghost seen: { Self → BellView };

    /// Arms the bell, once.
    fn arm(&mut self, seconds: u64)
        requires { (seen self.old).armed ≡ None }
        ensures { seen self.new ≡ armed_with seconds (seen self.old) };

    /// Whether it rings. It takes no memory.
    fn ask(&mut self) -> bool
        ensures armed { (seen self.new).armed ≡ (seen self.old).armed }
        ensures asked { Asked result (seen self.old) (seen self.new) };
}

/// A bell that never rings, and counts nothing.
#[derive(Drop)]
pub struct StillBell {
    seconds: Option<u64>,
}

impl StillBell {
    /// A bell that is not armed.
    pub fn new() -> StillBell
        ensures { result.seconds ≡ None }
    {
        StillBell { seconds: None }
    }
}

impl Bell for StillBell {
    ghost seen = { λ bell. unrung bell.seconds };

    fn arm(&mut self, seconds: u64) {
        self.seconds = Some(seconds);
    }

    fn ask(&mut self) -> bool
        ensures armed { self.new.seconds ≡ self.old.seconds }
        ensures never { result ≡ false }
    {
        false
    }
}
