// Numbers that are drawn one after another.
ghost use Rattle.std.specs.Prelude.{◌≡◌, ◌<◌};
ghost use Rattle.hull_maker.specs.Draws.{next_state, drawn};

/// The state that the next number is drawn from.
#[derive(Clone, Copy, Debug, PartialEq, Eq)]
pub(crate) struct Draws {
    pub(crate) state: u32,
}

impl Draws {
    /// Draws a number from 0 to 99.
    pub(crate) fn draw(&mut self) -> u32
        ensures state { self.new.state ≡ next_state self.old.state }
        ensures value { result ≡ drawn (next_state self.old.state) }
        ensures range { result < 100 }
    {
        self.state = self.state.wrapping_mul(1664525).wrapping_add(1013904223);
        self.state / 65536 % 100
    }
}
