//! Frames of packets that are collected one after another, and given out in parts.
ghost use Rattle.std.specs.Prelude.{◌≡◌, ℕ, ◌<◌, ◌≤◌, ◌↔◌, Option, Some, None, length, map, IfOk, IfSome, OnOk, OnErr, IsOk, IsErrOf, [], vec_len, vec_capacity};
ghost use Rattle.opus_packet.specs.Value.{IsPacketValue, max_duration};
ghost use Rattle.opus_packet.specs.Tail.{kept};
ghost use Rattle.opus_packet.specs.Canonical.{canonical_shape, canonical};
ghost use Rattle.opus_repack.specs.Parts.{slice_of};
ghost use Rattle.opus_repack.specs.Collected.{frames_in, duration_in, with_frames, GoesBehind, IsMixed, IsTooLong};
ghost use Rattle.opus_repack.specs.declared.fault.CatFault.TheVariants.{MixedKind, TooLong};

use crate::fault::CatFault;
use crate::part::part_of;
use crate::place::{MAX_FRAMES, put, put_lens};
use opus_io::NoMemory;
use opus_packet::Packet;
use opus_toc::Toc;
use std::alloc::Global;
use std::marker::Model;

/// Most bytes of all frames: 48 frames of 1,275 bytes.
const FRAME_BYTES: usize = 61_200;

/// Most samples at 48 kHz of a packet: 120 ms.
const MAX_DURATION: u32 = 5760;

/// The frames of packets, copied one after another, that can be sent as one packet or in parts. All memory is
/// taken by `new`.
#[derive(Drop)]
pub struct Repacketizer {
    config: u8,
    stereo: bool,
    // how many frames there are, whose lengths stand first
    count: usize,
    lens: [u16; MAX_FRAMES],
    // bytes of all frames, which stand first
    size: usize,
    bytes: Vec<u8>,
}

impl Model for Repacketizer {
    ghost use Rattle.std.specs.Prelude.{Option};
    ghost use Rattle.opus_packet.specs.Value.{PacketValue};
    ghost use Rattle.opus_repack.specs.Inside.{collected_inside, IsCollected};

    ghost Value = { Option PacketValue };

    ghost view = { collected_inside };

    ghost invariant = { IsCollected };
}

impl Repacketizer {
    /// A repacketizer without frames. It takes 61,200 bytes of memory, and no later call takes more.
    pub fn new(alloc: Global) -> Result<Repacketizer, NoMemory>
        ensures { IfOk result (λ r. r ≡ None) }
    {
        Ok(Repacketizer {
            config: 0,
            stereo: false,
            count: 0,
            lens: [0; MAX_FRAMES],
            size: 0,
            bytes: zeros(alloc, FRAME_BYTES)?,
        })
    }

    /// Copies the packet's frames behind those so far; its padding bytes are left out. The first packet tells
    /// configuration and channels. `MixedKind` (RFC 6716, 3.1) and `TooLong` (3.2.5) leave all frames as they were.
    pub fn cat(&mut self, packet: &Packet<'_>) -> Result<(), CatFault>
        ensures ok { OnOk result (self.new ≡ Some (with_frames self.old packet.now.value)) }
        ensures exactly { IsOk result ↔ GoesBehind self.old packet.now.value }
        ensures mixed_kind { IsErrOf result MixedKind ↔ IsMixed self.old packet.now.value }
        ensures too_long { IsErrOf result TooLong ↔ IsTooLong self.old packet.now.value }
        ensures err { OnErr result (self.new ≡ self.old) }
    {
        let toc = packet.toc();
        if self.count > 0 && (self.config != toc.config || self.stereo != toc.stereo) {
            return Err(CatFault::MixedKind);
        }
        if self.duration() + packet.duration() > MAX_DURATION {
            return Err(CatFault::TooLong);
        }
        self.push(packet);
        Ok(())
    }

    // The same where the frames go behind those so far.
    fn push(&mut self, packet: &Packet<'_>)
        requires { GoesBehind self.old packet.now.value }
        ensures { self.new ≡ Some (with_frames self.old packet.now.value) }
    {
        let toc = packet.toc();
        let body = packet.body();
        self.config = toc.config;
        self.stereo = toc.stereo;
        self.count = put_lens(&mut self.lens, self.count, packet.lens());
        put(&mut self.bytes, self.size, body);
        self.size += body.len();
    }

    /// How many frames there are, 0 to 48.
    #[inline(always)]
    pub fn count(&self) -> usize
        ensures count { result ≡ length (frames_in self.now) }
        ensures most { result ≤ 48 }
        // Frames that are there can be one packet.
        ensures value { IfSome self.now IsPacketValue }
    {
        self.count
    }

    /// Samples at 48 kHz of all frames, at most 5,760.
    #[inline(always)]
    pub fn duration(&self) -> u32
        ensures duration { result ≡ duration_in self.now }
        ensures most { result ≤ max_duration }
    {
        self.count as u32 * Toc::new(self.config, self.stereo, 0).samples()
    }

    /// Lets all frames go; the next packet may be of any kind.
    #[inline(always)]
    pub fn clear(&mut self)
        ensures { self.new ≡ None }
    {
        self.count = 0;
        self.size = 0;
    }

    /// The frames `from` to `to - 1`, from 0, as a packet in canonical shape and size without padding. They are lent:
    /// the lengths before them are added up, and nothing is copied.
    #[inline(always)]
    pub fn part(&self, from: usize, to: usize) -> Packet<'_>
        requires some { from < to }
        requires within { to ≤ length (frames_in self.now) }
        ensures value { IfSome self.now (λ v. result.value ≡ slice_of v from to) }
        ensures shape { result.shape ≡ canonical_shape (map length result.value.frames) }
        ensures size { result.size ≡ length (canonical result.value) }
        ensures tail { result.tail ≡ kept [] }
    {
        let lens = &self.lens[..self.count];
        let body = &self.bytes[..self.size];
        part_of(self.config, self.stereo, body, lens, from, to)
    }
}

// So many zeros, in just as many bytes of memory.
fn zeros(alloc: Global, size: usize) -> Result<Vec<u8>, NoMemory>
    ensures len { IfOk result (λ v. vec_len v ≡ size) }
    ensures capacity { IfOk result (λ v. vec_capacity v ≡ size) }
{
    let mut bytes = Vec::with_capacity(alloc, size)?;
    'room: for _ in 0..size {
        bytes.push_reserved(0);
    }
    Ok(bytes)
}
