//! A line of text in fixed memory, written from its end.
ghost use Rattle.std.specs.Prelude.{◌≡◌, ◌+◌, ◌≤◌, ◌++◌, [], ◌∷◌, length, decimal};
ghost use Rattle.pack_jobs.specs.PacketLines.{bit_digits};

use std::marker::Model;

/// A text of at most `N` bytes that grows at its front.
#[derive(Drop)]
pub(crate) struct Line<const N: usize> {
    bytes: [u8; N],
    at: usize,
}

impl<const N: usize> Model for Line<N> {
    ghost use Rattle.std.specs.Prelude.{◌≤◌, ℕ, List, drop};

    ghost Value = { List ℕ };

    ghost view = { λ l. drop l.at l.bytes };

    ghost invariant = { λ l. l.at ≤ N };
}

impl<const N: usize> Line<N> {
    /// No text yet.
    #[inline(always)]
    pub(crate) fn new() -> Line<N>
        ensures { result ≡ [] }
    {
        Line {
            bytes: [0; N],
            at: N,
        }
    }

    /// Puts a piece before the text.
    #[inline(always)]
    pub(crate) fn piece(&mut self, piece: &[u8])
        requires { length piece.now + length self.old ≤ N }
        ensures text { self.new ≡ piece.now ++ self.old }
        ensures size { length self.new ≡ length piece.now + length self.old }
    {
        let end = self.at;
        self.at -= piece.len();
        let bytes = &mut self.bytes[..];
        bytes[self.at..end].copy_from_slice(piece);
    }

    /// Puts a number's decimal digits before the text.
    #[inline(always)]
    pub(crate) fn number(&mut self, n: u64)
        requires { 20 + length self.old ≤ N }
        ensures text { self.new ≡ decimal n ++ self.old }
        ensures most { length self.new ≤ 20 + length self.old }
    {
        let mut left = n;
        'digits: while left >= 10 {
            self.byte(b'0' + (left % 10) as u8);
            left /= 10;
        }
        self.byte(b'0' + left as u8);
    }

    /// Puts the lowest `count` bits of a number before the text, the highest first.
    #[inline(always)]
    pub(crate) fn bits(&mut self, count: u8, bits: u8)
        requires room { 8 + length self.old ≤ N }
        requires fits { count ≤ 8 }
        ensures text { self.new ≡ bit_digits count bits ++ self.old }
        ensures most { length self.new ≤ 8 + length self.old }
    {
        for place in 0..count {
            self.byte(b'0' + (bits >> place) % 2);
        }
    }

    #[inline(always)]
    fn byte(&mut self, byte: u8)
        requires { length self.old + 1 ≤ N }
        ensures { self.new ≡ byte ∷ self.old }
    {
        self.at -= 1;
        self.bytes[self.at] = byte;
    }

    /// The text.
    #[inline(always)]
    pub(crate) fn as_slice(&self) -> &[u8]
        ensures { result.now ≡ self.now }
    {
        let bytes = &self.bytes[..];
        &bytes[self.at..]
    }
}
