//! Laws on the job join: each is the contract of a function that does nothing.
ghost use Rattle.std.specs.Prelude.{◌≡◌, ◌≤◌, ◌↔◌, ℕ, List, length, None};
ghost use Rattle.job_loop.specs.Shown.{Shown};
ghost use Rattle.job_loop.specs.Meaning.{going, broke, outcome};
ghost use Rattle.job_loop.specs.declared.input_end.InputEnd.TheVariants.{Closed};
ghost use Rattle.opus_feed.specs.declared.padding.Padding.TheVariants.{Drop};
ghost use Rattle.pack_records.specs.Demo.{DemoEnds};
ghost use Rattle.pack_records.specs.declared.item.Item.{Item};
ghost use Rattle.job_ends.specs.Refusal.{told, refusal_of};
ghost use Rattle.stream_jobs.specs.Refusal.{StreamRefusal};
ghost use Rattle.stream_jobs.specs.declared.refusal.StreamWhy.TheVariants.{ShortGroup};
ghost use Rattle.stream_jobs.specs.Join.{join};
ghost use Rattle.stream_jobs.specs.JoinGroups.{JoinsTo};

/// Nothing is refused exactly where the records are groups of so many, all lost or all lasting as long, one after another.
/// Then the text is each of these groups as one record.
pub fn join_writes_each_group_as_one_record()
    ensures { (streams : ℕ) (rs : List (Shown Item)) (text : List ℕ) → 1 ≤ streams
        → (outcome (join streams) rs Closed ≡ going text tt) ↔ JoinsTo streams rs text }
{}

/// A group that is too short at the end of a whole store is told with the number of the store's records, at the store's end.
pub fn a_short_group_is_told_at_the_end()
    ensures { (streams : ℕ) (h : List ℕ) (rs : List (Shown Item)) (text : List ℕ) (f : StreamRefusal)
        → DemoEnds Drop h rs None → outcome (join streams) rs Closed ≡ broke text f → f.why ≡ ShortGroup
        → f ≡ refusal_of (told (length rs)) (length h) ShortGroup }
{}
