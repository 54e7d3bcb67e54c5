//! The generator of a drill's events.
ghost use Rattle.std.specs.Prelude.{◌≡◌, ◌<◌, ◌/◌};
ghost use Rattle.iss_drill.specs.Generated.{next_state};

/// A linear congruential generator modulo 2^31, of which the upper half of each state is drawn.
#[derive(Drop)]
pub(crate) struct Generator {
    pub(crate) state: u32,
}

impl Generator {
    /// Nothing is drawn yet.
    pub(crate) fn new() -> Generator
        ensures { result.state ≡ 1 }
    {
        Generator { state: 1 }
    }

    /// The next number, below 32768.
    pub(crate) fn draw(&mut self) -> u32
        ensures state { self.new.state ≡ next_state self.old.state }
        ensures drawn { result ≡ self.new.state / 65536 }
        ensures small { result < 32768 }
    {
        self.state = ((u64::from(self.state) * 1_103_515_245 + 12_345) % (1 << 31)) as u32;
        self.state / 65_536
    }
}
