//! Why bytes are no RTP packet.

/// Why bytes aren't an RTP packet: the first check that fails, in the order of these variants.
#[derive(Clone, Copy, Debug, PartialEq, Eq)]
pub enum RtpFault {
    /// There are fewer than 12 bytes.
    Short,
    /// The version isn't 2.
    Version,
    /// The bytes end before the CSRCs do.
    Csrc,
    /// The bytes end before the header extension does.
    Extension,
    /// No byte is left for the padding, or its count is 0 or above the bytes that are left.
    Padding,
}
