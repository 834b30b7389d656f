//! An RTP packet as it is read, and the fields with which one is written.

/// One RTP packet (RFC 3550, 5.1), which borrows from the bytes that it was read from.
#[derive(Clone, Copy, Debug, PartialEq, Eq)]
pub struct Rtp<'a> {
    /// The marker bit, which a profile gives a meaning.
    pub marker: bool,
    /// The payload type, 0 to 127.
    pub payload_type: u8,
    /// The sequence number, one more for each packet, modulo 2^16.
    pub seq: u16,
    /// The timestamp: samples at 48 kHz for Opus, modulo 2^32, from any start (RFC 7587, 4.1).
    pub stamp: u32,
    /// The source of the stream.
    pub ssrc: u32,
    /// The contributing sources, at most 15, four bytes each.
    pub csrc: &'a [u8],
    /// The header extension (RFC 3550, 5.3.1): the 16 bits that its profile defines, and its words, four bytes each.
    pub extension: Option<(u16, &'a [u8])>,
    /// What is carried, without padding. It may be empty.
    pub payload: &'a [u8],
    /// Padding bytes behind the payload, or 0. The last of them is their count.
    pub padding: u8,
}

/// The fields of an RTP packet that is written without CSRCs, extension and padding.
#[derive(Clone, Copy, Debug, PartialEq, Eq)]
pub struct RtpFields {
    /// The marker bit.
    pub marker: bool,
    /// The payload type, 0 to 127.
    pub payload_type: u8,
    /// The sequence number.
    pub seq: u16,
    /// The timestamp: samples at 48 kHz for Opus, modulo 2^32.
    pub stamp: u32,
    /// The source of the stream.
    pub ssrc: u32,
}
