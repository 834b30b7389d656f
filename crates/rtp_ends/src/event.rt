//! What a receiver tells.
use opus_io::Bytes;

/// What is told of the numbers, in their order.
#[derive(Drop)]
pub enum Event {
    /// A packet that arrived.
    Packet {
        /// Its extended sequence number.
        number: i64,
        /// Its timestamp, in samples at 48 kHz.
        stamp: u32,
        /// Its payload.
        payload: Bytes,
    },
    /// Numbers one after the other that didn't arrive.
    Gap {
        /// The first of them.
        first: i64,
        /// How many there are, at least 1.
        count: u64,
    },
}

/// What an arrival was, with its extended sequence number.
#[derive(Clone, Copy, Debug, PartialEq, Eq)]
pub enum Arrival {
    /// The first one of its number.
    New(i64),
    /// Its number had arrived before.
    Repeat(i64),
}
