//! A packet whose frames and padding bytes borrow from the bytes that it was read from.
ghost use Rattle.std.specs.Prelude.{◌≡◌, ℕ, ◌+◌, ◌*◌, ◌<◌, ◌≤◌, ◌↔◌, List, [], length, map, sum, All, IsTrue, slice_get, Some};
ghost use Rattle.std.specs.List.{concat};
ghost use Rattle.opus_toc.specs.Configuration.{samples_of};
ghost use Rattle.opus_flen.specs.PaddingLength.{padding_limit};
ghost use Rattle.opus_packet.specs.Value.{max_frame, max_body, max_duration, duration_of, IsPacketValue};
ghost use Rattle.opus_packet.specs.Cut.{cut};
ghost use Rattle.opus_packet.specs.Tail.{tail_value, IsTail, IsWithinMost, kept, max_tail, tail_of};
ghost use Rattle.opus_packet.specs.Header.{frame_count, body_size, padding_data};
ghost use Rattle.opus_packet.specs.HeaderStands.{AreSized, sizes_value, header_value, value_with};
ghost use Rattle.opus_packet.specs.Canonical.{canonical_shape, canonical, keep_shape, kept_form};

use crate::frames::Frames;
use crate::header::Header;
use crate::lens::Lens;
use crate::shape::Shape;
use crate::tail::Tail;
use opus_toc::Toc;
use std::marker::Model;

/// One packet: what it means, how it was spelled, and where its frames lie. It is small, and copies neither
/// frames nor lengths.
#[derive(Drop)]
pub struct Packet<'a> {
    toc: Toc,
    shape: Shape,
    size: u32,
    body: &'a [u8],
    tail: Tail<'a>,
    lens: Lens<'a>,
}

impl<'a> Model for Packet<'a> {
    ghost use Rattle.opus_packet.specs.Read.{PacketRead};

    ghost Value = { PacketRead };

    ghost use Rattle.opus_packet.specs.Inside.{read_inside, IsWhole};

    ghost view = { read_inside };

    ghost invariant = { IsWhole };
}

impl<'a> Packet<'a> {
    /// The packet of these parts: frame i is the slice of `body` after the lengths before it. `size` is in
    /// bytes, of the whole spelling; `lens` and what they lie in are lent by the caller.
    #[inline(always)]
    pub fn of_parts(
        toc: Toc,
        shape: Shape,
        size: u32,
        body: &'a [u8],
        lens: &'a [u16],
        tail: Tail<'a>,
    ) -> Packet<'a>
        requires some { 1 ≤ length lens.now }
        requires most { length lens.now ≤ 48 }
        requires each { All (λ n. n ≤ max_frame) lens.now }
        requires whole { sum lens.now ≡ length body.now }
        requires lasts { length lens.now * samples_of toc.config ≤ max_duration }
        requires code { toc.code ≡ shape.code }
        requires padding { IsTail (tail_value tail) shape.pad }
        ensures config { result.value.config ≡ toc.config }
        ensures stereo { result.value.stereo ≡ toc.stereo }
        ensures frames { result.value.frames ≡ cut body.now lens.now }
        ensures shape { result.shape ≡ shape }
        ensures size { result.size ≡ size }
        ensures tail { result.tail ≡ tail_value tail.entry }
    {
        Packet::of_lens(toc, shape, size, body, Lens::of_list(lens), tail)
    }

    /// The same with lengths that may be spelled or equal.
    #[inline(always)]
    pub fn of_lens(
        toc: Toc,
        shape: Shape,
        size: u32,
        body: &'a [u8],
        lens: Lens<'a>,
        tail: Tail<'a>,
    ) -> Packet<'a>
        requires some { 1 ≤ length lens }
        requires whole { sum lens ≡ length body.now }
        requires lasts { length lens * samples_of toc.config ≤ max_duration }
        requires code { toc.code ≡ shape.code }
        requires padding { IsTail (tail_value tail) shape.pad }
        ensures config { result.value.config ≡ toc.config }
        ensures stereo { result.value.stereo ≡ toc.stereo }
        ensures frames { result.value.frames ≡ cut body.now lens.entry }
        ensures shape { result.shape ≡ shape }
        ensures size { result.size ≡ size }
        ensures tail { result.tail ≡ tail_value tail.entry }
    {
        // Known of every `Lens`: at most 48 lengths, each of at most 1,275 bytes.
        let _ = lens.len();
        Packet {
            toc,
            shape,
            size,
            body,
            tail,
            lens,
        }
    }

    /// The packet with this header, whose last frame has `last` bytes: all frames are `body`, and `tail` are the
    /// padding bytes, kept up to 65,535 of them. `size` is in bytes, of the whole spelling.
    #[inline(always)]
    pub fn of_header(
        header: Header<'a>,
        size: u32,
        body: &'a [u8],
        last: u16,
        tail: &'a [u8],
    ) -> Packet<'a>
        requires sized { AreSized header.sizes }
        requires frame { last ≤ max_frame }
        requires fills { length body.now ≡ body_size (sizes_value header.sizes) last }
        requires lasts { frame_count (sizes_value header.sizes) * samples_of header.toc.config
            ≤ max_duration }
        requires code { header.toc.code ≡ header.shape.code }
        requires padding { length tail.now ≡ padding_data header.shape.pad }
        requires small { length tail.now < padding_limit }
        ensures value { result.value ≡ value_with (header_value header.entry) last body.now }
        ensures shape { result.shape ≡ header.entry.shape }
        ensures size { result.size ≡ size }
        ensures tail { result.tail ≡ tail_of tail.now }
    {
        let lens = Lens::of_sizes(header.sizes, last);
        Packet::of_lens(
            header.toc,
            header.shape,
            size,
            body,
            lens,
            Tail::of_bytes(tail),
        )
    }

    /// The packet of these frames in its canonical shape, size and code, with no padding. Frame i is the slice of
    /// `body` after the lengths before it.
    #[inline(always)]
    pub fn of_frames(config: u8, stereo: bool, body: &'a [u8], lens: &'a [u16]) -> Packet<'a>
        requires config { config < 32 }
        requires some { 1 ≤ length lens.now }
        requires most { length lens.now ≤ 48 }
        requires each { All (λ n. n ≤ max_frame) lens.now }
        requires whole { sum lens.now ≡ length body.now }
        requires lasts { length lens.now * samples_of config ≤ max_duration }
        ensures config { result.value.config ≡ config }
        ensures stereo { result.value.stereo ≡ stereo }
        ensures frames { result.value.frames ≡ cut body.now lens.now }
        ensures shape { result.shape ≡ canonical_shape lens.now }
        ensures size { result.size ≡ length (canonical result.value) }
        ensures tail { result.tail ≡ kept [] }
    {
        Packet::of_kept(config, stereo, body, lens, &[])
    }

    // The same with these padding bytes, in the shape and size of the kept form.
    #[inline(always)]
    pub(crate) fn of_kept(
        config: u8,
        stereo: bool,
        body: &'a [u8],
        lens: &'a [u16],
        tail: &'a [u8],
    ) -> Packet<'a>
        requires config { config < 32 }
        requires some { 1 ≤ length lens.now }
        requires most { length lens.now ≤ 48 }
        requires each { All (λ n. n ≤ max_frame) lens.now }
        requires whole { sum lens.now ≡ length body.now }
        requires lasts { length lens.now * samples_of config ≤ max_duration }
        requires tail { length tail.now ≤ max_tail }
        ensures config { result.value.config ≡ config }
        ensures stereo { result.value.stereo ≡ stereo }
        ensures frames { result.value.frames ≡ cut body.now lens.now }
        ensures shape { result.shape ≡ keep_shape lens.now (length tail.now) }
        ensures size { result.size ≡ length (kept_form result.value tail.now) }
        ensures tail { result.tail ≡ kept tail.now }
    {
        let lens = Lens::of_list(lens);
        let shape = lens.keep_shape(tail.len() as u32);
        let size = lens.header_size(shape) + (body.len() + tail.len()) as u32;
        let toc = Toc::new(config, stereo, shape.code);
        Packet::of_lens(toc, shape, size, body, lens, Tail::Bytes(tail))
    }

    /// The TOC byte as it was read.
    #[inline(always)]
    pub fn toc(&self) -> Toc
        ensures config { result.config ≡ self.now.value.config }
        ensures stereo { result.stereo ≡ self.now.value.stereo }
        ensures code { result.code ≡ self.now.shape.code }
    {
        self.toc
    }

    /// How the packet was spelled.
    #[inline(always)]
    pub fn shape(&self) -> Shape
        ensures { result ≡ self.now.shape }
    {
        self.shape
    }

    /// Bytes of the whole spelling, padding included.
    #[inline(always)]
    pub fn size(&self) -> u32
        ensures { result ≡ self.now.size }
    {
        self.size
    }

    /// How many frames there are, 1 to 48.
    #[inline(always)]
    pub fn count(&self) -> usize
        ensures count { result ≡ length self.now.value.frames }
        ensures some { 1 ≤ result }
        ensures most { result ≤ 48 }
    {
        self.lens.len()
    }

    /// The lengths of the frames, in bytes.
    #[inline(always)]
    pub fn lens(&self) -> Lens<'a>
        ensures are { result ≡ map length self.now.value.frames }
        ensures some { 1 ≤ length result }
        ensures most { length result ≤ 48 }
        ensures each { All (λ n. n ≤ max_frame) result }
    {
        self.lens.again()
    }

    /// The bytes of frame `i`, from 0. It walks past the frames before: a loop over all goes by `frames`.
    pub fn frame(&self, i: usize) -> &'a [u8]
        requires { i < length self.now.value.frames }
        ensures frame { slice_get self.now.value.frames i ≡ Some result.now }
        ensures most { length result.now ≤ max_frame }
    {
        let mut frames = self.frames();
        for _ in 0..i {
            let _ = frames.next();
        }
        match frames.next() {
            Some(frame) => frame,
            None => self.body,
        }
    }

    /// The bytes of all frames, at most 61,200: they lie one after another.
    #[inline(always)]
    pub fn body(&self) -> &'a [u8]
        ensures bytes { result.now ≡ concat self.now.value.frames }
        ensures most { length result.now ≤ max_body }
        // What every packet is: a value that its frames spell.
        ensures value { IsPacketValue self.now.value }
    {
        self.body
    }

    /// The frames in order.
    #[inline(always)]
    pub fn frames(&self) -> Frames<'a>
        ensures { result ≡ self.now.value.frames }
    {
        Frames::new(self.body, self.lens.again())
    }

    /// The padding bytes behind the frames, or how many there were.
    #[inline(always)]
    pub fn tail(&self) -> Tail<'a>
        ensures tail { tail_value result ≡ self.now.tail }
        ensures most { IsWithinMost (tail_value result) }
        ensures fits { IsTail (tail_value result) self.now.shape.pad }
    {
        self.tail
    }

    /// Samples at 48 kHz of all frames, at most 5,760.
    #[inline(always)]
    pub fn duration(&self) -> u32
        ensures duration { result ≡ duration_of self.now.value }
        ensures most { result ≤ max_duration }
    {
        self.lens.len() as u32 * self.toc.samples()
    }

    /// Whether both packets have one configuration and the same channels, so that their frames can be joined.
    #[inline(always)]
    pub fn same_kind(&self, other: &Packet<'_>) -> bool
        ensures { IsTrue result
            ↔ ((self.now.value.config ≡ other.now.value.config)
            × (self.now.value.stereo ≡ other.now.value.stereo)) }
    {
        self.toc.config == other.toc.config && self.toc.stereo == other.toc.stereo
    }
}
