//! A reader or a writer of std, with a count of its errors.
ghost use Rattle.std.specs.Prelude.{◌≡◌, ◌≤◌};
ghost use Rattle.opus_io.specs.Cause.{next_count};
ghost use Rattle.opus_io.specs.Counted.{inner_of, errors_of};

/// A reader or a writer of std, and how many of its errors were met, up to 2^64 - 1 of them.
#[derive(Drop)]
pub struct Counted<T> {
    pub(crate) inner: T,
    errors: u64,
}

impl<T> Counted<T> {
    /// Over `inner`, with no error counted yet.
    pub fn new(inner: T) -> Counted<T>
        ensures inner { inner_of result ≡ inner }
        ensures errors { errors_of result ≡ 0 }
    {
        Counted { inner, errors: 0 }
    }

    // One error more was met.
    pub(crate) fn count_error(&mut self)
        ensures inner { inner_of self.new ≡ inner_of self.old }
        ensures errors { errors_of self.new ≡ next_count (errors_of self.old) }
        ensures later { errors_of self.old ≤ errors_of self.new }
    {
        self.errors = self.errors.saturating_add(1);
    }
}
