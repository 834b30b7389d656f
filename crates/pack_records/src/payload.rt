//! What reads the payload of a record.
ghost use Rattle.std.specs.Prelude.{◌≡◌, ◌+◌, ◌-◌, ◌<◌, ◌≤◌, ℕ, List, [], true, length, IfSome};
ghost use Rattle.opus_io.specs.Reader.{max_input};
ghost use Rattle.job_loop.specs.Shown.{Shown};
ghost use Rattle.pack_records.specs.Payloads.{Reading, IsReading, Takes, IsHere};
ghost use Rattle.pack_records.specs.OnePayload.{SaysSettles};

use job_loop::{Lent, Numbers};

/// What reads the payload of one record after the other, where it lies or in pieces, and lends what it found.
pub trait PayloadReader {
    /// What is found out about a record.
    type Record: Numbers;

    // What the reader depends on and never changes, as a number of streams.
    ghost Layout: { Type 0 };

    // What it stands for, and what its records show.
    ghost reads: { Reading Self Layout (Shown Self.Record) };

    // What bytes settle that are an input of their own, which is one payload.
    ghost settles: { Layout → List ℕ → List (Shown Self.Record) → Type 0 };

    /// Reads all of `own` behind its first `before` bytes as a payload where it lies, if it can be lent from there;
    /// false where it can't. Its first byte stands at `start`.
    fn here(&mut self, start: u64, range: u32, before: usize, own: &[u8]) -> bool
        requires before { before ≤ length own.now }
        requires fits { start + (length own.now - before) ≤ max_input }
        ensures here { result ≡ true → IsHere reads self.new start range before own.now }
        ensures ready { result ≡ true → reads.ready self.new own.now }
        ensures same { reads.layout self.new ≡ reads.layout self.old };

    /// Begins with another payload, whose first byte stands at `start`.
    fn begin(&mut self, start: u64)
        ensures stands { reads.stands self.new start [] }
        ensures same { reads.layout self.new ≡ reads.layout self.old };

    /// Takes the next bytes of a payload whose first byte stands at `start`. The first of these stands at `at`. Where they
    /// decide the record, behind so many of them, no more of it is taken.
    fn take(&mut self, start: u64, range: u32, at: u64, piece: &[u8]) -> Option<usize>
        requires some { 0 < length piece.now }
        requires fits { at + length piece.now ≤ max_input }
        ensures taken { (h : List ℕ) → reads.stands self.old start h → start + length h ≡ at
            → Takes reads self.new start range h piece.now result }
        ensures count { IfSome result (λ count. (1 ≤ count) × (count ≤ length piece.now)) }
        ensures ready { IfSome result (λ _. (own : List ℕ) → reads.ready self.new own) }
        ensures same { reads.layout self.new ≡ reads.layout self.old };

    /// Says that no byte follows those that came, of which the last stands before `at`.
    fn end(&mut self, start: u64, range: u32, at: u64)
        ensures holds { (h : List ℕ) → reads.stands self.old start h → start + length h ≡ at → (own : List ℕ)
            → (reads.shows (reads.layout self.old)).holds start range h (reads.current self.new own) }
        ensures ready { (own : List ℕ) → reads.ready self.new own }
        ensures same { reads.layout self.new ≡ reads.layout self.old };

    /// A record that has no payload.
    fn lose(&mut self, start: u64, range: u32)
        ensures shown { (own : List ℕ) → reads.current self.new own
            ≡ (reads.shows (reads.layout self.old)).lost start range }
        ensures ready { (own : List ℕ) → reads.ready self.new own }
        ensures same { reads.layout self.new ≡ reads.layout self.old };

    /// The record that stands. `own` are the bytes that were taken last.
    fn record<'a>(&'a self, own: &'a [u8]) -> Lent<'a, Self::Record>
        requires { reads.ready self.now own.now }
        ensures is { result ≡ reads.current self.now own.now }
        ensures fits { Self.Record.fits result.item result.bytes };

    // What it says of itself holds.
    ghost lawful: { IsReading reads };

    ghost says: { (l : Layout) → SaysSettles (reads.shows l).decides (settles l) };
}
