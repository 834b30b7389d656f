//! The refusal of an input that is cut.
ghost use Rattle.std.specs.Prelude.{◌≡◌, ℕ};
ghost use Rattle.job_ends.specs.declared.refusal.Refusal.{Refusal as RefusalFor};

use crate::refusal::Refusal;

/// A reason that may be the cut of an input, which a `C` tells.
pub trait CutReason<C>: Copy {
    // The refusal of an input that is cut so, where this number is told for the cut record.
    ghost cut_refusal: { ℕ → C → RefusalFor Self };

    /// The refusal of an input that is cut so, with the number of the cut record.
    fn cut(index: u64, cut: &C) -> Refusal<Self>
        ensures { result ≡ cut_refusal index cut.now };
}
