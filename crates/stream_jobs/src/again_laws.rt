//! The law on apart and then join: the contract of a function that does nothing.
ghost use Rattle.std.specs.Prelude.{◌≡◌, ◌↔◌, ◌≤◌, ℕ, List, None};
ghost use Rattle.job_loop.specs.Shown.{Shown};
ghost use Rattle.job_loop.specs.Meaning.{going, outcome};
ghost use Rattle.job_loop.specs.declared.input_end.InputEnd.TheVariants.{Closed};
ghost use Rattle.opus_feed.specs.declared.padding.Padding.TheVariants.{Drop};
ghost use Rattle.stream_records.specs.declared.item.StreamsItem.{StreamsItem};
ghost use Rattle.stream_records.specs.Demo.{DemoEnds};
ghost use Rattle.stream_jobs.specs.Apart.{apart};
ghost use Rattle.stream_jobs.specs.JoinAgain.{AreGood, IsJoinedAgain};
ghost use Rattle.stream_jobs.specs.OneStream.{IsNormOfPackets};

/// Apart takes a store exactly where all its records hold multistream packets, or lost ones. What it wrote is a whole store,
/// and join makes of that store what norm writes of the first one with range 0 in every record. A store of one stream is a
/// store of packets, and norm of packets writes the same of it.
pub fn join_puts_together_what_apart_wrote()
    ensures taken { (streams : ℕ) (rs : List (Shown StreamsItem))
        → ((text : List ℕ) × (outcome (apart streams) rs Closed ≡ going text tt)) ↔ AreGood rs }
    ensures again { (streams : ℕ) (x : List ℕ) (rs : List (Shown StreamsItem)) (text : List ℕ) → 1 ≤ streams
        → DemoEnds (record { streams = streams; padding = Drop }) x rs None
        → outcome (apart streams) rs Closed ≡ going text tt → IsJoinedAgain streams rs text }
    ensures one { (x : List ℕ) (rs : List (Shown StreamsItem)) (text : List ℕ)
        → DemoEnds (record { streams = 1; padding = Drop }) x rs None → outcome (apart 1) rs Closed ≡ going text tt
        → (again : IsJoinedAgain 1 rs text) → IsNormOfPackets x again.joined }
{}
