//! Which byte of a header comes next.

/// How far a header was taken.
#[derive(Clone, Copy, PartialEq, Eq)]
pub(crate) enum Stage {
    /// Nothing was taken: the TOC byte comes next.
    Toc,
    /// The count byte of code 3 comes next.
    Count,
    /// A byte of the padding length comes next.
    PadLength,
    /// A frame length comes next.
    Length,
    /// The second byte of a frame length comes next.
    LengthEnd,
    /// The last frame's length of a self-delimited packet comes next.
    Last,
    /// The second byte of that length comes next.
    LastEnd,
    /// The header is whole.
    Ready,
    /// The count byte says no frames, or more than 120 ms.
    BadCount,
    /// The padding length goes past its limit.
    BadPadding,
}

impl Stage {
    ghost use Rattle.std.specs.Prelude.{IsTrue, ◌↔◌};
    ghost use Rattle.opus_feed.specs.Stage.{IsOpen};

    /// Whether a byte of the header comes next.
    #[inline(always)]
    pub fn is_open(self) -> bool
        ensures { IsTrue result ↔ IsOpen self }
    {
        !matches!(self, Stage::Ready | Stage::BadCount | Stage::BadPadding)
    }
}
