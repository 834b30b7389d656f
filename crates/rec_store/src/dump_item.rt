//! What is told of a record of a capture.
ghost use Rattle.std.specs.Prelude.{◌≡◌, ◌+◌, ◌-◌, ◌≤◌, ◌++◌, length};
ghost use Rattle.std.specs.Int.{w16, w32, to_be_bytes};
ghost use Rattle.rec_store.specs.DumpItem.{kind_of, packet_size, IsOwnLength, TellsRecord};

use crate::numbers::{read_number, read_short};

/// What a record of a capture holds.
#[derive(Clone, Copy, Debug, PartialEq, Eq)]
pub enum DumpKind {
    /// A whole RTP packet.
    Rtp,
    /// A front of an RTP packet: fewer bytes were kept than it had.
    Cut,
    /// A packet of RTCP.
    Rtcp,
}

/// A record of a capture, without its packet's bytes.
#[derive(Clone, Copy, Debug, PartialEq, Eq)]
pub struct DumpItem {
    /// Milliseconds since the capture began, modulo 2^32.
    pub offset: u32,
    /// What the record holds.
    pub kind: DumpKind,
}

/// The eight bytes before the bytes that a record keeps.
#[derive(Clone, Copy, Debug, PartialEq, Eq)]
pub struct DumpRecordHead {
    /// Bytes of the record, these eight included.
    pub length: u16,
    /// Bytes that the packet had, or 0 for RTCP.
    pub packet_length: u16,
    /// Milliseconds since the capture began, modulo 2^32.
    pub offset: u32,
}

impl DumpRecordHead {
    /// The head that eight bytes spell.
    #[inline(always)]
    pub fn read(bytes: &[u8]) -> DumpRecordHead
        requires { length bytes.now ≡ 8 }
        ensures { to_be_bytes w16 result.length ++ to_be_bytes w16 result.packet_length
            ++ to_be_bytes w32 result.offset ≡ bytes.now }
    {
        DumpRecordHead {
            length: dump_record_length(&bytes[..2]),
            packet_length: dump_record_length(&bytes[2..4]),
            offset: read_number(&bytes[4..]),
        }
    }

    /// What is told of the record.
    #[inline(always)]
    pub fn item(self) -> DumpItem
        requires { 8 ≤ self.length }
        ensures offset { result.offset ≡ self.offset }
        ensures kind { result.kind ≡ kind_of self.packet_length (self.length - 8) }
    {
        let kind = if self.packet_length == 0 {
            DumpKind::Rtcp
        } else if self.length - 8 < self.packet_length {
            DumpKind::Cut
        } else {
            DumpKind::Rtp
        };
        DumpItem {
            offset: self.offset,
            kind,
        }
    }

    /// How many of the bytes that the record keeps are its packet's: what follows them is passed over.
    #[inline(always)]
    pub fn packet_size(self) -> u16
        requires { 8 ≤ self.length }
        ensures value { result ≡ packet_size self.packet_length (self.length - 8) }
        ensures most { result ≤ self.length - 8 }
    {
        let kept = self.length - 8;
        if self.packet_length == 0 {
            kept
        } else {
            kept.min(self.packet_length)
        }
    }
}

/// The length of a record, from its first two bytes. It counts all bytes of the record; one below 8 is a fault.
#[inline(always)]
pub fn dump_record_length(bytes: &[u8]) -> u16
    requires { length bytes.now ≡ 2 }
    ensures { to_be_bytes w16 result ≡ bytes.now }
{
    read_short(bytes)
}

/// What is told of a whole record.
#[derive(Clone, Copy, Debug, PartialEq, Eq)]
pub struct DumpTold {
    /// When it came, and its kind.
    pub item: DumpItem,
    /// How many bytes the packet has, which stand behind the first eight of the record.
    pub size: u16,
}

/// Reads a whole record, whose first two bytes tell how many it has.
#[inline(always)]
pub fn read_dump_record(bytes: &[u8]) -> DumpTold
    requires { IsOwnLength bytes.now }
    ensures told { TellsRecord bytes.now result.item result.size }
    ensures most { 8 + result.size ≤ length bytes.now }
{
    let head = DumpRecordHead::read(&bytes[..8]);
    DumpTold {
        item: head.item(),
        size: head.packet_size(),
    }
}
