//! Whether durations are equal, told one after another.

/// What was told of durations so far.
#[derive(Clone, Copy)]
pub(crate) struct Durations {
    /// The first of them.
    pub first: u32,
    /// The least place of another one.
    pub other: Option<usize>,
}

impl Durations {
    ghost use Rattle.std.specs.Prelude.{◌≡◌, ℕ, List, [], ◌∷◌, ◌++◌, length, Some};
    ghost use Rattle.opus_multi.specs.Told.{Told};

    /// None were told.
    pub fn new() -> Durations
        ensures { Told result [] }
    {
        Durations {
            first: 0,
            other: None,
        }
    }

    /// Behind `at` of them comes this one.
    pub fn add(&mut self, at: usize, duration: u32)
        ensures told { (ds : List ℕ) → length ds ≡ at → Told self.old ds → Told self.new (ds ++ duration ∷ []) }
        ensures stays { (k : ℕ) → self.old.other ≡ Some k → self.new.other ≡ Some k }
    {
        if at == 0 {
            self.first = duration;
        } else if self.other.is_none() && duration != self.first {
            self.other = Some(at);
        }
    }
}
