//! Laws on forms, jobs and runs: each is the contract of a function that does nothing.
ghost use Rattle.std.specs.Prelude.{◌≡◌, ◌↔◌, ℕ, List, [], ◌++◌, Option};
ghost use Rattle.std.specs.List.{AllByRecursion};
ghost use Rattle.job_loop.specs.Shown.{Shown};
ghost use Rattle.job_loop.specs.Meaning.{Meaning, broke, outcome, end_of};
ghost use Rattle.job_loop.specs.Reading.{IsSettled, IsRefused};
ghost use Rattle.job_loop.specs.FirstFault.{Fault, FaultAt, IsFirst, faults_of, InOrder, RowsRise, FirstBad};

use crate::{Form, RecordJob};

/// A front of an input settles one text, whatever job it is for.
pub fn a_front_settles_one_text<F: Form, J: RecordJob<F::Record, F::Cut>>()
    ensures { (l : F.Layout) (m : Meaning (Shown F.Record) J.Kept F.Cut J.Refusal) (h a b : List ℕ)
        → IsSettled m (F.settles l) h a → IsSettled m (F.settles l) h b → a ≡ b }
{}

/// A longer front settles a longer text, with that of the shorter one at its front.
pub fn a_longer_front_settles_a_longer_text<F: Form, J: RecordJob<F::Record, F::Cut>>()
    ensures { (l : F.Layout) (m : Meaning (Shown F.Record) J.Kept F.Cut J.Refusal) (h more a b : List ℕ)
        → IsSettled m (F.settles l) h a → IsSettled m (F.settles l) (h ++ more) b
        → (c : List ℕ) × (b ≡ a ++ c) }
{}

/// What is refused stays refused, for the same fault and behind the same text, however the input goes on.
pub fn what_is_refused_stays_refused<F: Form, J: RecordJob<F::Record, F::Cut>>()
    ensures longer { (l : F.Layout) (m : Meaning (Shown F.Record) J.Kept F.Cut J.Refusal)
        (h more a b : List ℕ) (f g : J.Refusal) → IsRefused m (F.settles l) h a f
        → IsRefused m (F.settles l) (h ++ more) b g → (b ≡ a) × (g ≡ f) }
    ensures never_clear { (l : F.Layout) (m : Meaning (Shown F.Record) J.Kept F.Cut J.Refusal)
        (h more a b : List ℕ) (f : J.Refusal) → IsRefused m (F.settles l) h a f
        → IsSettled m (F.settles l) (h ++ more) b → ⊥ }
    ensures whole { (l : F.Layout) (m : Meaning (Shown F.Record) J.Kept F.Cut J.Refusal)
        (h more a : List ℕ) (f : J.Refusal) (rs : List (Shown F.Record)) (cut : Option F.Cut)
        → IsRefused m (F.settles l) h a f → F.ends l (h ++ more) rs cut
        → outcome m rs (end_of cut) ≡ broke a f }
{}

/// A whole input ends in one way, with one outcome for each job.
pub fn an_input_ends_in_one_way<F: Form, J: RecordJob<F::Record, F::Cut>>()
    ensures records { (l : F.Layout) (x : List ℕ) (rs ss : List (Shown F.Record)) (a b : Option F.Cut)
        → F.ends l x rs a → F.ends l x ss b → (rs ≡ ss) × (a ≡ b) }
    ensures outcome { (l : F.Layout) (m : Meaning (Shown F.Record) J.Kept F.Cut J.Refusal) (x : List ℕ)
        (rs ss : List (Shown F.Record)) (a b : Option F.Cut) → F.ends l x rs a → F.ends l x ss b
        → outcome m rs (end_of a) ≡ outcome m ss (end_of b) }
{}

/// Where records come in the order of their places, the least fault is the first one of the first bad record.
pub fn the_first_bad_record_has_the_first_fault<R, F>()
    ensures { (place : R → ℕ) (faults : R → List (Fault F)) (rs : List R) (f : FaultAt F)
        → InOrder place 0 rs → AllByRecursion (λ r. RowsRise 0 (faults r)) rs
        → IsFirst (faults_of place faults 0 rs) f ↔ FirstBad place faults rs f }
{}
