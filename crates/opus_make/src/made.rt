//! What the next record is.

/// The next record of a seed.
#[derive(Clone, Copy, Debug, PartialEq, Eq)]
pub enum Made {
    /// A lost packet, which has no bytes.
    Lost,
    /// A packet, whose bytes were appended.
    Packet,
}
