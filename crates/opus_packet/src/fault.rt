//! What bytes that are no packet break, and where.

/// A rule of RFC 6716, 3.4, or one of this project's.
#[derive(Clone, Copy, Debug, PartialEq, Eq)]
pub enum Rule {
    /// A packet has at least one byte.
    R1,
    /// No frame whose length isn't given has more than 1,275 bytes.
    R2,
    /// A code 1 packet has an odd number of bytes.
    R3,
    /// A code 2 packet has a whole length behind the TOC byte, and that many bytes.
    R4,
    /// A code 3 packet has at least one frame, and lasts at most 120 ms.
    R5,
    /// A code 3 packet without VBR has a count byte, its padding, and the rest falls into equal frames.
    R6,
    /// A code 3 packet with VBR has all its header, its frames and its padding.
    R7,
    /// The padding of a packet is below 2^24 bytes, its length included (this project's limit).
    PadLimit,
    /// A self-delimited packet ends before the bytes do (RFC 6716, Appendix B).
    Cut,
}

/// Why bytes aren't a packet.
#[derive(Clone, Copy, Debug, PartialEq, Eq)]
pub struct Fault {
    /// The broken rule.
    pub rule: Rule,
    /// The length in bytes of the longest front that some packet begins with.
    pub place: u64,
}
