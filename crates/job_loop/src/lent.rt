//! A record lent to a job where its bytes lie.
ghost use Rattle.std.specs.Prelude.{◌≡◌, ℕ, List};
ghost use Rattle.job_loop.specs.Shown.{Shown};

use std::marker::Model;

/// What a form finds out about a record: numbers, and never its bytes.
pub trait Numbers {
    /// These numbers belong to these bytes. A job may rely on it, as on lengths that lie within them.
    ghost fits: { Self → List ℕ → Type 0 };
}

// A number that stands for itself: it fits any bytes.
impl Numbers for u64 {
    ghost fits = { λ _ _. Unit {0} };
}

/// A record, lent for one call of a job: its numbers and its bytes. The bytes lie in the reader's own buffer where
/// they can, and the next read ends the lend.
#[derive(Drop)]
pub struct Lent<'a, N> {
    item: &'a N,
    bytes: &'a [u8],
}

impl<'a, N> Model for Lent<'a, N> {
    ghost Value = { Shown N };

    ghost view = { λ l. record { item = l.item.now; bytes = l.bytes.now } };
}

impl<'a, N> Lent<'a, N> {
    /// These numbers with these bytes.
    pub fn new(item: &'a N, bytes: &'a [u8]) -> Lent<'a, N>
        ensures item { result.item ≡ item.now }
        ensures bytes { result.bytes ≡ bytes.now }
    {
        Lent { item, bytes }
    }

    /// What the form found out about the record.
    pub fn item(&self) -> &'a N
        ensures { result.now ≡ self.now.item }
    {
        self.item
    }

    /// The record's bytes.
    pub fn bytes(&self) -> &'a [u8]
        ensures { result.now ≡ self.now.bytes }
    {
        self.bytes
    }
}
