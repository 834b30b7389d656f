//! What becomes of the padding bytes behind a packet's frames.

use opus_packet::MAX_TAIL;

/// Whether padding bytes are kept (RFC 6716, 3.2.5).
#[derive(Clone, Copy, Debug, PartialEq, Eq)]
pub enum Padding {
    /// They are counted.
    Drop,
    /// They are kept, where a packet has at most 65,535 of them.
    Keep,
}

impl Padding {
    ghost use Rattle.std.specs.Prelude.{◌≡◌};
    ghost use Rattle.opus_feed.specs.Bodies.{kept_tail};

    // How many of `count` padding bytes are kept: all or none.
    #[inline(always)]
    pub(crate) fn kept(self, count: usize) -> usize
        ensures { result ≡ kept_tail self count }
    {
        match self {
            Padding::Keep if count <= MAX_TAIL => count,
            _ => 0,
        }
    }
}
