//! How a packet was spelled.

/// The choices among the spellings of a value (RFC 6716, 3.2).
#[derive(Clone, Copy, Debug, PartialEq, Eq)]
pub struct Shape {
    /// The frame count code, 0 to 3.
    pub code: u8,
    /// Whether a code 3 packet gives each frame's length. False for codes 0 to 2.
    pub vbr: bool,
    /// Bytes of padding, those of the padding's length included; 0 without padding.
    pub pad: u32,
}
