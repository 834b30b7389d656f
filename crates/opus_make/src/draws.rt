//! The numbers that all else follows from.
ghost use Rattle.std.specs.Prelude.{◌≡◌};
ghost use Rattle.opus_make.specs.Draws.{next_state, drawn};

/// A linear congruential generator: its state goes on modulo 2^32, and its high half is drawn.
#[derive(Clone, Copy)]
pub(crate) struct Draws {
    pub(crate) state: u32,
}

impl Draws {
    /// Draws the next number.
    pub(crate) fn draw(&mut self) -> u16
        ensures state { self.new.state ≡ next_state self.old.state }
        ensures number { result ≡ drawn self.old.state }
    {
        self.state = self
            .state
            .wrapping_mul(1_664_525)
            .wrapping_add(1_013_904_223);
        (self.state / 65_536) as u16
    }
}
