//! What a form of records has to offer.
ghost use Rattle.std.specs.Prelude.{◌≡◌, ◌+◌, ◌≤◌, ◌<◌, ℕ, List, [], ◌++◌, Option, true, take, length, IfOk, OnErr};
ghost use Rattle.opus_io.specs.Reader.{max_input};
ghost use Rattle.job_loop.specs.Shown.{Shown};
ghost use Rattle.job_loop.specs.Forms.{HasFed, HasEnded, Begins};

use crate::{Lent, Numbers};
use opus_io::NoMemory;

/// What a form took of the bytes that it was fed.
#[derive(Clone, Copy, Debug, PartialEq, Eq)]
pub struct Fed {
    /// How many bytes, one at least.
    pub count: usize,
    /// Whether these decide one more record.
    pub whole: bool,
}

/// What the end of the input makes of the bytes that a form was fed.
#[derive(Clone, Copy, Debug, PartialEq, Eq)]
pub struct Close<C> {
    /// Whether the end decides one more record.
    pub whole: bool,
    /// How the input is cut, if it is.
    pub cut: Option<C>,
}

/// A form of records: a machine that is fed an input piece by piece, and says which records its bytes decide.
///
/// It never sees a source, a read or a limit. It stops behind each byte that decides a record, so what its bytes
/// settle is known at every moment.
pub trait Form {
    /// What the form finds out about a record.
    type Record: Numbers;

    /// What tells how an input is cut.
    type Cut: Copy;

    // What the form depends on and never changes, as a number of streams.
    ghost Layout: { Type 0 };

    ghost layout: { Self → Layout };

    // These are the records that these bytes decide, however the input goes on.
    ghost settles: { Layout → List ℕ → List (Shown Self.Record) → Type 0 };

    // These are the records of this whole input, and its cut if there is one.
    ghost ends: { Layout → List ℕ → List (Shown Self.Record) → Option Self.Cut → Type 0 };

    // How many bytes of the input were there when the record was decided.
    ghost place: { Shown Self.Record → ℕ };

    // The machine was fed these bytes, and these records stood.
    ghost stands: { Self → List ℕ → List (Shown Self.Record) → Type 0 };

    // The record that stands, where the bytes taken last are these.
    ghost current: { Self → List ℕ → Shown Self.Record };

    // The record that stands can be lent with these bytes.
    ghost ready: { Self → List ℕ → Type 0 };

    // Whether the machine may run out of memory while it is fed.
    ghost lacks: { Layout → Type 0 };

    /// Takes bytes from the front of `piece`, one at least, and stops behind a byte that decides a record.
    /// `at` bytes came before.
    ///
    /// # Errors
    ///
    /// No memory for what has to be kept. Nothing more may be fed then.
    fn feed(&mut self, at: u64, piece: &[u8]) -> Result<Fed, NoMemory>
        requires some { 0 < length piece.now }
        requires fits { at + length piece.now ≤ max_input }
        ensures some { IfOk result (λ f. 1 ≤ f.count) }
        ensures most { IfOk result (λ f. f.count ≤ length piece.now) }
        ensures same { layout self.new ≡ layout self.old }
        ensures fed { IfOk result (λ f. (h : List ℕ) (rs : List (Shown Self.Record)) → stands self.old h rs
            → length h ≡ at
            → HasFed (stands self.new) place (current self.new (take f.count piece.now)) f.whole
            h rs (take f.count piece.now) (at + f.count)) }
        ensures ready { IfOk result (λ f. f.whole ≡ true → ready self.new (take f.count piece.now)) }
        ensures lacks { OnErr result (lacks (layout self.old)) };

    /// The record that stands. `own` are the bytes that were taken last.
    fn record<'a>(&'a self, own: &'a [u8]) -> Lent<'a, Self::Record>
        requires { ready self.now own.now }
        ensures is { result ≡ current self.now own.now }
        ensures fits { Self.Record.fits result.item result.bytes };

    /// What the end of the input makes of the bytes so far, of which there are `at`.
    fn end(&mut self, at: u64) -> Close<Self::Cut>
        requires fits { at ≤ max_input }
        ensures same { layout self.new ≡ layout self.old }
        ensures ends { (h : List ℕ) (rs : List (Shown Self.Record)) → stands self.old h rs → length h ≡ at
            → (own : List ℕ)
            → HasEnded (ends (layout self.old)) (current self.new own) result.whole result.cut h rs }
        ensures ready { result.whole ≡ true → (own : List ℕ) → ready self.new own };

    // What stands is settled.
    ghost settled: { (s : Self) (h : List ℕ) (rs : List (Shown Self.Record)) → stands s h rs
        → settles (layout s) h rs };

    // More bytes settle the same records and then others.
    ghost grows: { (l : Layout) (h more : List ℕ) (rs ss : List (Shown Self.Record)) → settles l h rs
        → settles l (h ++ more) ss → Begins rs ss };

    // A whole input has the records that a front of it settles, and then others.
    ghost ends_grow: { (l : Layout) (h more : List ℕ) (rs ss : List (Shown Self.Record))
        (cut : Option Self.Cut) → settles l h rs → ends l (h ++ more) ss cut → Begins rs ss };

    // A whole input ends in one way.
    ghost ends_once: { (l : Layout) (h : List ℕ) (rs ss : List (Shown Self.Record))
        (a b : Option Self.Cut) → ends l h rs a → ends l h ss b → (rs ≡ ss) × (a ≡ b) };
}
