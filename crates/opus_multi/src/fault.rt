//! What bytes that are no multistream packet break, and where.

use opus_packet::Fault;

/// Why bytes aren't a multistream packet of so many streams.
#[derive(Clone, Copy, Debug, PartialEq, Eq)]
pub enum MultiFault {
    /// This stream, from 0, is the first that doesn't read. The fault's place counts from its first byte.
    Stream(u8, Fault),
    /// All streams read, and this is the least one whose duration differs from that of stream 0.
    Unequal(u8),
    /// Memory was refused.
    NoMemory,
}

/// Why packets can't be joined to a multistream packet.
#[derive(Clone, Copy, Debug, PartialEq, Eq)]
pub enum JoinFault {
    /// There are none.
    NoParts,
    /// This part, from 0, is the least one whose duration differs from that of part 0.
    Unequal(usize),
    /// Memory was refused.
    NoMemory,
}
