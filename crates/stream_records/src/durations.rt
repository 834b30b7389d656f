//! Whether the streams of a record last as long, told one after another.

/// A stream that lasts other than stream 0, and the place of its first byte.
#[derive(Clone, Copy)]
pub(crate) struct Other {
    pub stream: u8,
    pub start: u64,
}

/// What was told of the streams so far.
#[derive(Clone, Copy)]
pub(crate) struct Durations {
    /// How long stream 0 lasts.
    pub first: u32,
    /// The first stream that lasts otherwise.
    pub other: Option<Other>,
}

impl Durations {
    ghost use Rattle.std.specs.Prelude.{◌≡◌, ℕ, List, [], ◌∷◌, ◌++◌, length, None};
    ghost use Rattle.opus_multi.specs.Told.{Says};
    ghost use Rattle.stream_records.specs.Told.{stream_in, IsAdded};

    /// Nothing was told.
    pub fn new() -> Durations
        ensures told { Says result.first (stream_in result.other) [] }
        ensures none { result.other ≡ None }
    {
        Durations {
            first: 0,
            other: None,
        }
    }

    /// This stream, whose first byte stands at `start`, lasts so long.
    pub fn add(&mut self, stream: u8, start: u64, duration: u32)
        ensures told { (ds : List ℕ) → length ds ≡ stream → Says self.old.first (stream_in self.old.other) ds
            → Says self.new.first (stream_in self.new.other) (ds ++ duration ∷ []) }
        ensures added { IsAdded self.old.other stream start self.new.other }
    {
        if stream == 0 {
            self.first = duration;
        } else if self.other.is_none() && duration != self.first {
            self.other = Some(Other { stream, start });
        }
    }
}
