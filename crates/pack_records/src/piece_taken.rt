//! What became of bytes that a packet was read from in pieces.

/// What became of a piece of a packet.
#[derive(Clone, Copy)]
pub(crate) enum PieceTaken {
    /// All of it was taken, and nothing is decided yet.
    More,
    /// A packet is whole behind so many bytes of it.
    Packet(usize),
    /// No packet can follow behind so many bytes of it.
    Bad(usize),
}
