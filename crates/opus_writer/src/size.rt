//! The sizes of the written forms, by arithmetic.
ghost use Rattle.std.specs.Prelude.{◌≡◌, ◌+◌, ◌≤◌, length, map};
ghost use Rattle.opus_flen.specs.FrameLength.{length_bytes};
ghost use Rattle.opus_packet.specs.SelfGrammar.{last_length};
ghost use Rattle.opus_packet.specs.Tail.{IsKept, kept_bytes, max_tail};
ghost use Rattle.opus_packet.specs.Canonical.{canonical, canonical_self_delimited};
ghost use Rattle.opus_writer.specs.Forms.{max_canonical, max_canonical_self, max_kept, max_kept_self, kept_of, kept_self_of};

use opus_packet::{Packet, Tail};

/// Bytes of the canonical form, at most 61,295.
#[inline(always)]
pub fn canon_size(packet: &Packet<'_>) -> u32
    ensures size { result ≡ length (canonical packet.now.value) }
    ensures most { result ≤ max_canonical }
{
    let lens = packet.lens();
    lens.header_size(lens.canonical_shape()) + packet.body().len() as u32
}

/// Bytes of the canonical self-delimited form, at most 61,297.
#[inline(always)]
pub fn canon_self_size(packet: &Packet<'_>) -> u32
    ensures size { result ≡ length (canonical_self_delimited packet.now.value) }
    ensures most { result ≤ max_canonical_self }
{
    canon_size(packet) + last_width(packet)
}

/// Bytes of the kept form, whose padding bytes are the packet's.
#[inline(always)]
pub fn keep_size(packet: &Packet<'_>) -> u32
    requires { IsKept packet.now.tail }
    ensures size { result ≡ length (kept_of packet.now) }
    ensures most { result ≤ max_kept }
{
    let lens = packet.lens();
    let tail = tail_bytes(packet).len() as u32;
    lens.header_size(lens.keep_shape(tail)) + packet.body().len() as u32 + tail
}

/// Bytes of the kept self-delimited form.
#[inline(always)]
pub fn keep_self_size(packet: &Packet<'_>) -> u32
    requires { IsKept packet.now.tail }
    ensures size { result ≡ length (kept_self_of packet.now) }
    ensures most { result ≤ max_kept_self }
{
    keep_size(packet) + last_width(packet)
}

// Bytes that spell the last frame's length.
#[inline(always)]
fn last_width(packet: &Packet<'_>) -> u32
    ensures size { result ≡ length (length_bytes (last_length (map length packet.now.value.frames))) }
    ensures most { result ≤ 2 }
{
    if packet.lens().last_len() < 252 { 1 } else { 2 }
}

// The packet's padding bytes, which are there.
#[inline(always)]
pub(crate) fn tail_bytes<'a>(packet: &Packet<'a>) -> &'a [u8]
    requires { IsKept packet.now.tail }
    ensures bytes { result.now ≡ kept_bytes packet.now.tail }
    ensures most { length result.now ≤ max_tail }
{
    match packet.tail() {
        Tail::Bytes(bytes) => bytes,
        Tail::Dropped(_) => &[],
    }
}
