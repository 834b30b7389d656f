//! A packet's value that owns its bytes.
ghost use Rattle.std.specs.Prelude.{◌≡◌, ℕ, [], ◌≤◌, length, map, IfOk};
ghost use Rattle.opus_packet.specs.Tail.{max_tail, kept, IsKept, kept_bytes};
ghost use Rattle.opus_packet.specs.Canonical.{keep_shape, kept_form};

use crate::packet::Packet;
use crate::tail::Tail;
use arrayvec::ArrayVec;
use opus_io::NoMemory;
use opus_toc::Toc;
use std::alloc::Global;
use std::marker::Model;

/// One packet's value, and the padding bytes that were kept with it: configuration, channels and frames, in
/// memory of their own.
#[derive(Drop)]
pub struct Held {
    config: u8,
    stereo: bool,
    lens: ArrayVec<u16, 48>,
    // all frames, and then the padding bytes
    bytes: Vec<u8>,
    body: u32,
}

impl Model for Held {
    ghost use Rattle.opus_packet.specs.Held.{HeldRead, held_inside, IsHeld};

    ghost Value = { HeldRead };

    ghost view = { held_inside };

    ghost invariant = { IsHeld };
}

impl Held {
    /// A copy of a packet's value, with no padding.
    pub fn copy(alloc: Global, packet: &Packet<'_>) -> Result<Held, NoMemory>
        ensures value { IfOk result (λ h. h.value ≡ packet.now.value) }
        ensures tail { IfOk result (λ h. h.tail ≡ []) }
    {
        Held::copy_with(alloc, packet, &[])
    }

    /// A copy of a packet's value and of its padding bytes, which must be there (`Tail::Bytes`).
    pub fn copy_kept(alloc: Global, packet: &Packet<'_>) -> Result<Held, NoMemory>
        requires { IsKept packet.now.tail }
        ensures value { IfOk result (λ h. h.value ≡ packet.now.value) }
        ensures tail { IfOk result (λ h. h.tail ≡ kept_bytes packet.now.tail) }
    {
        match packet.tail() {
            Tail::Bytes(bytes) => Held::copy_with(alloc, packet, bytes),
            Tail::Dropped(_) => Held::copy_with(alloc, packet, &[]),
        }
    }

    // A copy of a packet's value with these padding bytes.
    fn copy_with(alloc: Global, packet: &Packet<'_>, tail: &[u8]) -> Result<Held, NoMemory>
        requires { length tail.now ≤ max_tail }
        ensures value { IfOk result (λ h. h.value ≡ packet.now.value) }
        ensures tail { IfOk result (λ h. h.tail ≡ tail.now) }
    {
        let mut lens = ArrayVec::new();
        for len in packet.lens() {
            lens.push(len);
        }
        let body = packet.body();
        let mut bytes = Vec::from_slice(alloc, body)?;
        bytes.extend_from_slice(tail)?;
        let toc = packet.toc();
        Ok(Held {
            config: toc.config,
            stereo: toc.stereo,
            lens,
            bytes,
            body: body.len() as u32,
        })
    }

    /// The value as a packet, in the shape and size of the kept form; without padding bytes these are the
    /// canonical ones.
    pub fn view(&self) -> Packet<'_>
        ensures value { result.value ≡ self.now.value }
        ensures tail { result.tail ≡ kept self.now.tail }
        ensures shape { result.shape
            ≡ keep_shape (map length self.now.value.frames) (length self.now.tail) }
        ensures size { result.size ≡ length (kept_form self.now.value self.now.tail) }
    {
        let (body, tail) = self.bytes.split_at(self.body as usize);
        Packet::of_kept(self.config, self.stereo, body, self.lens.as_slice(), tail)
    }
}
