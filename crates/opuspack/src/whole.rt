//! An input that is one record as a whole.
ghost use Rattle.std.specs.Prelude.{◌≤◌, [], vec_len, vec_capacity, IfOk};
ghost use Rattle.opuspack.specs.Whole.{WholeSettles, WholeEnds, WholeStands, place_of};
ghost use Rattle.opuspack.specs.WholeLaws.{whole_settled, whole_grows, whole_ends_grow, whole_ends_once};

use crate::never::Never;
use job_loop::{Close, Fed, Form, Lent, Numbers};
use opus_io::NoMemory;
use std::alloc::Global;

// How many bytes are kept: those of the largest OpusHead with its table, and one more.
const KEPT: usize = 115_792;

/// What is found out about the input.
#[derive(Clone, Copy, Debug, PartialEq, Eq)]
pub(crate) struct WholeInput {
    /// How many bytes it has.
    pub(crate) size: u64,
}

/// Keeps the first 115,792 bytes of an input and counts the others. Its one record is decided by the end.
#[derive(Drop)]
pub(crate) struct WholeForm {
    kept: Vec<u8>,
    input: WholeInput,
    ghost within: { vec_len kept ≤ 115792 },
    ghost room: { 115792 ≤ vec_capacity kept },
}

impl WholeForm {
    /// No byte came. All memory is taken here.
    pub(crate) fn new(alloc: Global) -> Result<WholeForm, NoMemory>
        ensures { IfOk result (λ f. WholeStands f.kept.items [] []) }
    {
        Ok(WholeForm {
            kept: Vec::with_capacity(alloc, KEPT)?,
            input: WholeInput { size: 0 },
        })
    }
}

impl Numbers for WholeInput {
    ghost fits = { λ _ _. Unit {0} };
}

impl Form for WholeForm {
    type Record = WholeInput;

    type Cut = Never;

    ghost Layout = { Unit {0} };

    ghost layout = { λ _. tt };

    ghost settles = { λ _. WholeSettles };

    ghost ends = { λ _. WholeEnds };

    ghost place = { place_of };

    ghost stands = { λ f. WholeStands f.kept.items };

    ghost current = { λ f _. record { item = f.input; bytes = f.kept.items } };

    ghost ready = { λ _ _. Unit {0} };

    ghost lacks = { λ _. ⊥ };

    fn feed(&mut self, _: u64, piece: &[u8]) -> Result<Fed, NoMemory> {
        let count = piece.len().min(KEPT - self.kept.len());
        self.kept.extend_from_slice(&piece[..count]).unwrap();
        Ok(Fed {
            count: piece.len(),
            whole: false,
        })
    }

    fn record<'a>(&'a self, _: &'a [u8]) -> Lent<'a, WholeInput> {
        Lent::new(&self.input, self.kept.as_slice())
    }

    fn end(&mut self, at: u64) -> Close<Never> {
        self.input.size = at;
        Close {
            whole: true,
            cut: None,
        }
    }

    ghost settled = { λ f. whole_settled f.kept.items };

    ghost grows = { λ _. whole_grows };

    ghost ends_grow = { λ _. whole_ends_grow };

    ghost ends_once = { λ _. whole_ends_once };
}
