//! Several frame lengths, one after another, as they are spelled.
ghost use Rattle.std.specs.Prelude.{ℕ, ◌≤◌};
ghost use Rattle.opus_packet.specs.Spelled.{ReadsLengths};

use opus_flen::{LenRead, read_len};

/// Frame lengths that stay where they were spelled (RFC 6716, 3.2.1).
#[derive(Clone, Copy)]
pub struct Spelled<'a> {
    /// The bytes that spell the lengths, and no more.
    pub bytes: &'a [u8],
    /// How many lengths there are, at most 47.
    pub count: u8,
    /// Bytes of all these frames, at most 59,925.
    pub sum: u16,
}

/// Reads `count` frame lengths at the front of `bytes`, or tells that they aren't all there.
#[inline(always)]
pub(crate) fn read_lens(bytes: &[u8], count: u8) -> Option<Spelled<'_>>
    requires { count ≤ 47 }
    ensures { ReadsLengths count bytes.now result }
{
    let mut sum: u16 = 0;
    let mut at = 0;
    for _ in 0..count {
        let LenRead::Len { value, used } = read_len(&bytes[at..]) else {
            return None;
        };
        sum += value;
        at += used;
    }
    Some(Spelled {
        bytes: &bytes[..at],
        count,
        sum,
    })
}
