//! Why a packet's frames can't be joined.

/// Why frames don't go behind those so far.
#[derive(Clone, Copy, Debug, PartialEq, Eq)]
pub enum CatFault {
    /// They have another configuration or other channels than the frames so far (RFC 6716, 3.1).
    MixedKind,
    /// All together would last more than 120 ms, 5,760 samples at 48 kHz (RFC 6716, 3.2.5).
    TooLong,
}
