//! The padding bytes behind a packet's frames.

/// Most padding bytes that are kept.
pub const MAX_TAIL: usize = 65_535;

/// The padding bytes at a packet's end, which follow its frames (RFC 6716, 3.2.5).
#[derive(Clone, Copy)]
pub enum Tail<'a> {
    /// The bytes, at most 65,535.
    Bytes(&'a [u8]),
    /// So many bytes, which aren't kept.
    Dropped(u32),
}

impl<'a> Tail<'a> {
    ghost use Rattle.std.specs.Prelude.{◌≡◌, ◌^◌, ◌<◌, length};
    ghost use Rattle.opus_packet.specs.Tail.{tail_value, tail_of};

    /// These bytes where they are few enough to be kept, or their number.
    #[inline(always)]
    pub fn of_bytes(bytes: &'a [u8]) -> Tail<'a>
        requires { length bytes.now < 2 ^ 32 }
        ensures { tail_value result ≡ tail_of bytes.now }
    {
        if bytes.len() <= MAX_TAIL {
            Tail::Bytes(bytes)
        } else {
            Tail::Dropped(bytes.len() as u32)
        }
    }
}
