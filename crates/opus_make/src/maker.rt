//! Making the records of a seed, one after another.
ghost use Rattle.std.specs.Prelude.{◌≡◌, ◌+◌, ◌<◌, ◌≤◌, ℕ, length, vec_len, vec_capacity, IfOk, OnOk, OnErr};
ghost use Rattle.opus_make.specs.Generated.{generated, StandsFor, Gives, record_bytes};

use crate::Made;
use crate::draw_plan::draw_plan;
use crate::draws::Draws;
use crate::ramp::{RAMP_LEN, ramp};
use crate::written::write_plan;
use opus_io::NoMemory;
use std::marker::Model;

/// Makes the records of a seed, one after another.
#[derive(Drop)]
pub struct Maker {
    state: u32,
    ramp: [u8; RAMP_LEN],
}

impl Model for Maker {
    ghost use Rattle.std.specs.Prelude.{◌≡◌, ℕ};
    ghost use Rattle.opus_make.specs.Ramp.{ramp_bytes};

    ghost Value = { ℕ };

    ghost view = { λ m. m.state };

    ghost invariant = { λ m. m.ramp ≡ ramp_bytes };
}

impl Maker {
    /// A maker that has given no record of this seed.
    pub fn new(seed: u32) -> Maker
        ensures { StandsFor result seed 0 }
    {
        Maker {
            state: seed,
            ramp: ramp(),
        }
    }

    /// Makes the next record of the seed. The bytes of a packet are appended; a lost one has none.
    ///
    /// After want of memory the same record is still to come.
    pub fn next(&mut self, out: &mut Vec<u8>) -> Result<Made, NoMemory>
        ensures stands { (seed number : ℕ) → StandsFor self.old seed number
            → OnOk result (StandsFor self.new seed (number + 1)) }
        ensures gives { (seed number : ℕ) → StandsFor self.old seed number
            → IfOk result (λ made. Gives (generated seed number) made out.old.items out.new.items) }
        ensures same { OnErr result (self.new ≡ self.old) }
        ensures err { OnErr result (out.new.items ≡ out.old.items) }
        ensures full { (seed number : ℕ) → StandsFor self.old seed number → OnErr result
            (vec_capacity out.old < vec_len out.old + length (record_bytes (generated seed number))) }
        ensures capacity { vec_capacity out.old ≤ vec_capacity out.new }
    {
        let mut draws = Draws { state: self.state };
        if draws.draw() % 16 == 15 {
            self.state = draws.state;
            return Ok(Made::Lost);
        }
        let plan = draw_plan(&mut draws);
        write_plan(&plan, &self.ramp, out)?;
        self.state = draws.state;
        Ok(Made::Packet)
    }
}
