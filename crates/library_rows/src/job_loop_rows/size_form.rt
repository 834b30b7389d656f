//! The whole input as one record: how many bytes it has.
ghost use Rattle.std.specs.Prelude.{◌≡◌, ◌<◌, ◌≤◌, ℕ, List, [], length, refl};
ghost use Rattle.job_loop.specs.Shown.{Shown};
ghost use Rattle.job_loop.specs.Samples.{size_record, SizeSettles, SizeEnds};
ghost use Rattle.job_loop.specs.SampleLaws.{size_grows, size_ends_grow, size_ends_once};

use job_loop::{Close, Fed, Form, Lent};
use opus_io::NoMemory;

#[derive(Drop)]
pub struct SizeForm {
    size: u64,
}

impl SizeForm {
    pub fn new() -> SizeForm {
        SizeForm { size: 0 }
    }
}

impl Form for SizeForm {
    type Record = u64;

    type Cut = u64;

    ghost Layout = { Unit {0} };

    ghost layout = { λ _. tt };

    ghost settles = { λ _. SizeSettles };

    ghost ends = { λ _. SizeEnds };

    ghost place = { λ r. r.item };

    ghost stands = { λ _. SizeSettles };

    ghost current = { λ s _. size_record s.size };

    ghost lacks = { λ _. ⊥ };

    ghost ready = { λ _ _. Unit {0} };

    fn feed(&mut self, _: u64, piece: &[u8]) -> Result<Fed, NoMemory> {
        Ok(Fed {
            count: piece.len(),
            whole: false,
        })
    }

    fn record<'a>(&'a self, own: &'a [u8]) -> Lent<'a, u64> {
        Lent::new(&self.size, &own[..0])
    }

    fn end(&mut self, at: u64) -> Close<u64> {
        self.size = at;
        Close {
            whole: true,
            cut: None,
        }
    }

    ghost settled = { λ s h rs stands. stands };

    ghost grows = { λ _. size_grows };

    ghost ends_grow = { λ _. size_ends_grow };

    ghost ends_once = { λ _. size_ends_once };
}
