//! Laws on captures as an input: each is the contract of a function that does nothing.
ghost use Rattle.std.specs.Prelude.{ℕ, ◌+◌, List, [], ◌∷◌, ◌++◌, length, Option, Some, None};
ghost use Rattle.job_loop.specs.Shown.{Shown};
ghost use Rattle.job_loop.specs.FirstFault.{InOrder};
ghost use Rattle.rec_store.specs.Dump.{DumpRecord};
ghost use Rattle.rec_store.specs.DumpLine.{IsBadLine};
ghost use Rattle.rec_store.specs.DumpStore.{AreBytes, IsDump, IsStoreCut, IsBadLength};
ghost use Rattle.rec_store.specs.declared.dump_opening.DumpHead.{DumpHead};
ghost use Rattle.rec_store.specs.declared.stop.StoreFault.{StoreFault};
ghost use Rattle.rec_store.specs.declared.stop.StoreFault.TheVariants.{StoreCut, DumpLine, DumpLength};
ghost use Rattle.dump_records.specs.declared.item.Item.{Item};
ghost use Rattle.dump_records.specs.Capture.{shown_records, bad_record, DumpSettles, DumpEnds};

/// A capture shows its records and no cut. A cut one shows its cut. One that goes wrong shows the place, as the last of
/// its records, and no cut.
pub fn each_input_shows_what_it_is()
    ensures whole { (x : List ℕ) (head : DumpHead) (records : List DumpRecord) → IsDump x head records
        → (first : ℕ) × DumpEnds x (shown_records first records) None }
    ensures cut { (x : List ℕ) → IsStoreCut x
        → (rs : List (Shown Item)) × DumpEnds x rs (Some (StoreCut (length x))) }
    ensures line { (x : List ℕ) (place : ℕ) → IsBadLine x place
        → DumpEnds x (bad_record (place + 1) (DumpLine place) ∷ []) None }
    ensures length { (x : List ℕ) (place : ℕ) → IsBadLength x place → (rs : List (Shown Item))
        × DumpEnds x (rs ++ bad_record (place + 2) (DumpLength place) ∷ []) None }
{}

/// Whatever the bytes of an input are, it has records and a cut, or none. What its bytes settle comes in the order of the
/// places at which it was decided.
pub fn each_input_has_records_in_order()
    ensures some { (x : List ℕ) → AreBytes x
        → (rs : List (Shown Item)) × (cut : Option StoreFault) × DumpEnds x rs cut }
    ensures order { (h : List ℕ) (rs : List (Shown Item)) → DumpSettles h rs → InOrder (λ r. r.item.place) 0 rs }
{}
