//! One stream's packet with memory of its own.
ghost use Rattle.std.specs.Prelude.{◌≡◌, IfOk};
ghost use Rattle.opus_packet.specs.Tail.{kept_bytes};
ghost use Rattle.opus_multi.specs.Parts.{dropped_of};

use opus_io::NoMemory;
use opus_packet::{Held, Packet, Shape, Tail};
use std::alloc::Global;

/// The packet of one stream, and how it was spelled.
#[derive(Drop)]
pub struct Part {
    /// The packet's value, with the padding bytes that were kept.
    pub held: Held,
    /// How the packet was spelled.
    pub shape: Shape,
    /// Bytes of the whole spelling, padding included.
    pub size: u32,
    /// Padding bytes that weren't kept.
    pub dropped: u32,
}

impl Part {
    /// A copy of a packet, with its padding bytes where they are there.
    pub fn copy(alloc: Global, packet: &Packet<'_>) -> Result<Part, NoMemory>
        ensures value { IfOk result (λ p. p.held.value ≡ packet.now.value) }
        ensures tail { IfOk result (λ p. p.held.tail ≡ kept_bytes packet.now.tail) }
        ensures shape { IfOk result (λ p. p.shape ≡ packet.now.shape) }
        ensures size { IfOk result (λ p. p.size ≡ packet.now.size) }
        ensures dropped { IfOk result (λ p. p.dropped ≡ dropped_of packet.now.tail) }
    {
        let (held, dropped) = match packet.tail() {
            Tail::Bytes(_) => (Held::copy_kept(alloc, packet)?, 0),
            Tail::Dropped(count) => (Held::copy(alloc, packet)?, count),
        };
        Ok(Part {
            held,
            shape: packet.shape(),
            size: packet.size(),
            dropped,
        })
    }
}
