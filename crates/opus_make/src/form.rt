//! How a packet is spelled: code, VBR, number of frames and padding.
ghost use Rattle.std.specs.Prelude.{◌≤◌, ◌<◌};

/// How a packet is spelled.
#[derive(Clone, Copy)]
pub(crate) struct Form {
    pub(crate) code: u8,
    pub(crate) vbr: bool,
    /// Frames, 1 to 48.
    pub(crate) count: u8,
    /// Padding bytes and their length byte together, or 0.
    pub(crate) pad: u8,
    ghost two_bits: { code < 4 },
    ghost some: { 1 ≤ count },
    ghost most: { count ≤ 48 },
    ghost few: { pad < 8 },
}
