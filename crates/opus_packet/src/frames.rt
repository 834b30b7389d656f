//! The frames of a packet, one after another.
ghost use Rattle.std.specs.Prelude.{◌≡◌, ◌≤◌, length, sum};
ghost use Rattle.opus_packet.specs.Cut.{cut};

use crate::lens::Lens;
use std::marker::Model;

/// An iterator over a packet's frames, in order.
#[derive(Drop)]
pub struct Frames<'a> {
    body: &'a [u8],
    lens: Lens<'a>,
}

impl<'a> Model for Frames<'a> {
    ghost use Rattle.std.specs.Prelude.{List, ℕ};
    ghost use Rattle.opus_packet.specs.Frames.{frames_inside, AreFrames};

    ghost Value = { List (List ℕ) };

    ghost view = { frames_inside };

    ghost invariant = { AreFrames };
}

impl<'a> Frames<'a> {
    /// The frames of these lengths that fill `body`.
    #[inline(always)]
    pub(crate) fn new(body: &'a [u8], lens: Lens<'a>) -> Frames<'a>
        requires { sum lens ≡ length body.now }
        ensures { result ≡ cut body.now lens.entry }
    {
        Frames { body, lens }
    }
}

impl<'a> Iterator for Frames<'a> {
    ghost use Rattle.std.specs.Iterator.{YieldsFirstBy, item_count};

    type Item = &'a [u8];

    ghost next_gives = { YieldsFirstBy (λ f. f.now) (λ l. l) };

    ghost remaining = { item_count (λ l. l) };

    #[inline(always)]
    fn next(&mut self) -> Option<&'a [u8]> {
        let len = usize::from(self.lens.next()?);
        let frame = &self.body[..len];
        self.body = &self.body[len..];
        Some(frame)
    }
}
