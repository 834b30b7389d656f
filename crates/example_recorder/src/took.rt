//! What became of a piece.
use opus_packet::Fault;

/// What became of a piece.
#[derive(Clone, Copy, Debug, PartialEq, Eq)]
pub enum Took {
    /// All of it was taken, and no packet is whole yet.
    More,
    /// A packet is whole and its record is appended: so many bytes of the piece belong to it, and the next packet begins
    /// behind them.
    Record(usize),
    /// No packet begins as the bytes do that came since the last record.
    Refused(Fault),
}
