//! The packet that a feed holds.
ghost use Rattle.std.specs.Prelude.{◌≡◌, ℕ, ◌+◌, ◌^◌, ◌<◌, ◌≤◌, take, drop, length, vec_len};
ghost use Rattle.opus_packet.specs.Value.{max_frame};
ghost use Rattle.opus_packet.specs.Header.{body_size, padding_data};
ghost use Rattle.opus_packet.specs.HeaderStands.{value_with};
ghost use Rattle.opus_packet.specs.Tail.{tail_value};
ghost use Rattle.opus_feed.specs.Heads.{IsSized, header_in, sizes_in};
ghost use Rattle.opus_feed.specs.Bodies.{kept_behind, kept_tail};
ghost use Rattle.opus_feed.specs.Tails.{tail_by};

use crate::body::Body;
use crate::head::Head;
use crate::padding::Padding;
use opus_packet::{Lens, Packet, Tail};

/// The packet with this header, whose frames and padding bytes are the first bytes that are kept.
#[inline(always)]
pub(crate) fn packet_of<'a>(padding: Padding, head: &'a Head, body: &'a Body) -> Packet<'a>
    requires sized { IsSized head.now }
    requires last { head.now.last ≤ max_frame }
    requires kept { kept_behind padding (header_in head.now) head.now.last ≤ body.now.kept }
    requires fits { body.now.kept ≤ vec_len body.now.bytes }
    requires front { body.now.front ≤ 65891 }
    requires came { body.now.came ≤ 16838415 }
    ensures value { result.value ≡ value_with (header_in head.now) head.now.last
        (take (body_size (sizes_in head.now) head.now.last) body.now.bytes.items) }
    ensures shape { result.shape ≡ head.now.shape }
    ensures size { result.size ≡ body.now.front + body.now.came }
    ensures tail { result.tail ≡ tail_by padding (padding_data head.now.shape.pad)
        (drop (body_size (sizes_in head.now) head.now.last) body.now.bytes.items) }
{
    let header = head.header(body.front);
    let size = header.body_size(head.last);
    let tail = tail_of(padding, header.tail, &body.bytes[size..]);
    Packet::of_lens(
        header.toc,
        header.shape,
        (body.front + body.came) as u32,
        &body.bytes[..size],
        Lens::of_sizes(header.sizes, head.last),
        tail,
    )
}

// The tail of `count` padding bytes: with `Keep` they stand first in `bytes`.
#[inline(always)]
fn tail_of(padding: Padding, count: usize, bytes: &[u8]) -> Tail<'_>
    requires kept { kept_tail padding count ≤ length bytes.now }
    requires small { count < 2 ^ 24 }
    ensures { tail_value result ≡ tail_by padding count bytes.now }
{
    let kept = padding.kept(count);
    if kept == count {
        Tail::Bytes(&bytes[..count])
    } else {
        Tail::Dropped(count as u32)
    }
}
