//! What is found out about a record of multistream packets.
ghost use Rattle.stream_records.specs.Fits.{ItemFits};

use arrayvec::ArrayVec;
use job_loop::Numbers;
use opus_packet::{Fault, Packet, Shape, Tail};

/// How the packet of one stream was spelled.
#[derive(Clone, Copy, Debug, PartialEq, Eq)]
pub struct Spelling {
    /// The shape of its header.
    pub shape: Shape,
    /// Bytes of the whole spelling, padding included.
    pub size: u32,
    /// Padding bytes that weren't kept.
    pub dropped: u32,
}

impl Spelling {
    ghost use Rattle.std.specs.Prelude.{◌≡◌};
    ghost use Rattle.stream_records.specs.Spellings.{spelling_read};

    /// How this packet was spelled.
    pub(crate) fn of(packet: &Packet<'_>) -> Spelling
        ensures { result ≡ spelling_read packet.now }
    {
        Spelling {
            shape: packet.shape(),
            size: packet.size(),
            dropped: match packet.tail() {
                Tail::Bytes(_) => 0,
                Tail::Dropped(count) => count,
            },
        }
    }
}

impl Default for Spelling {
    fn default() -> Spelling {
        Spelling {
            shape: Shape {
                code: 0,
                vbr: false,
                pad: 0,
            },
            size: 0,
            dropped: 0,
        }
    }
}

/// What a record holds. Streams are numbered from 0, and their places are bytes of the input.
#[derive(Clone, Copy, Debug, PartialEq, Eq)]
pub enum StreamsFound {
    /// A multistream packet (RFC 7845, section 3). The bytes lent with the record are its kept form.
    Packets,
    /// A lost packet: a record of an `opus_demo` store without a payload.
    Lost,
    /// This stream is the first that doesn't read, and begins at this place. The fault's place counts from there.
    Broken {
        stream: u8,
        start: u64,
        fault: Fault,
    },
    /// All streams read. This one, which begins at this place, is the first that lasts other than stream 0.
    Unequal {
        stream: u8,
        start: u64,
    },
}

/// What is found out about a record of multistream packets. Places are bytes of the input.
#[derive(Debug, PartialEq, Eq, Drop)]
pub struct StreamsItem {
    /// The place of the first byte that is a packet's, or could be.
    pub start: u64,
    /// How many bytes of the input were there when the record was decided.
    pub place: u64,
    /// The final range that a store gives; 0 in the other forms.
    pub range: u32,
    /// What the record holds.
    pub found: StreamsFound,
    /// How the packet of each stream was spelled, where it holds packets; none otherwise.
    pub streams: ArrayVec<Spelling, 255>,
}

impl Numbers for StreamsItem {
    ghost fits = { ItemFits };
}
