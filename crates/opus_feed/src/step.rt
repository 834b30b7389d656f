//! What became of a piece.
use opus_packet::Fault;

/// What became of a piece.
#[derive(Clone, Copy, Debug, PartialEq, Eq)]
pub enum Step {
    /// All of it was taken, and more bytes can follow.
    More,
    /// A self-delimited packet is whole: so many bytes of the piece belong to it, and the others weren't looked at.
    Done(usize),
    /// No packet begins as the bytes up to and with some byte of the piece do.
    Refused(Fault),
}
