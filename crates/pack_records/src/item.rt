//! What is found out about a record of an input of packets.
ghost use Rattle.pack_records.specs.Fits.{ItemFits};

use job_loop::Numbers;
use opus_feed::Framing;
use opus_packet::{Fault, Shape};

/// What a record holds.
#[derive(Clone, Copy, Debug, PartialEq, Eq)]
pub enum Found {
    /// A packet of this framing, in the shape and the size in bytes that it was spelled in. The bytes lent with the
    /// record are its kept form.
    Packet {
        framing: Framing,
        shape: Shape,
        size: u32,
    },
    /// A lost packet: a record of an `opus_demo` store without a payload.
    Lost,
    /// No packet, for this fault. Its place counts from the first byte that could be a packet's.
    Bad(Fault),
}

/// What is found out about a record. Places are bytes of the input.
#[derive(Clone, Copy, Debug, PartialEq, Eq)]
pub struct Item {
    /// The place of the first byte that is a packet's, or could be.
    pub start: u64,
    /// How many bytes of the input were there when the record was decided.
    pub place: u64,
    /// The final range that a store gives; 0 in the other forms.
    pub range: u32,
    /// What the record holds.
    pub found: Found,
}

impl Numbers for Item {
    ghost fits = { ItemFits };
}
