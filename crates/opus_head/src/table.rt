//! The channel mapping table, which says what is played on each channel (RFC 7845, 5.1.1).
use opus_io::Bytes;

/// The channel mapping table of a head.
#[derive(Drop)]
pub enum Table {
    /// Family 0 has none: one stream, coupled for two channels.
    None,
    /// One byte for each channel, in all other families but 3.
    Map {
        /// Streams in each packet, at least 1.
        streams: u8,
        /// How many of them, the first ones, are decoded to two channels.
        coupled: u8,
        /// For each channel the decoded channel that is played on it, or 255 for silence.
        map: Bytes,
    },
    /// Factors, in family 3 (RFC 8486, 3.2).
    Matrix {
        /// Streams in each packet, at least 1.
        streams: u8,
        /// How many of them, the first ones, are decoded to two channels.
        coupled: u8,
        /// The factors in the order of the file, two bytes each, the lowest first.
        entries: Bytes,
    },
}
