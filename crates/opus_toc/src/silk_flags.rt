//! What a SILK or Hybrid frame tells of itself in its first byte: voice activity and redundancy.

/// The flags at the front of a SILK or Hybrid frame (RFC 6716, 4.2.3).
///
/// The VAD bits are a number whose highest bit is that of the first SILK frame.
#[derive(Clone, Copy, Debug, PartialEq, Eq)]
pub struct Flags {
    /// SILK frames of each channel, 1 to 3.
    pub silk_frames: u8,
    /// Voice activity of mid, one bit for each SILK frame.
    pub vad_mid: u8,
    /// Whether mid has low bit-rate redundancy.
    pub lbrr_mid: bool,
    /// Voice activity of side, one bit for each SILK frame. 0 for mono.
    pub vad_side: u8,
    /// Whether side has low bit-rate redundancy. False for mono.
    pub lbrr_side: bool,
}
