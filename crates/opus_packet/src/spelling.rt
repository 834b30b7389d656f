//! How frames of given lengths are spelled: shapes, and the sizes of headers.
ghost use Rattle.std.specs.Prelude.{◌≡◌, ℕ, ◌+◌, ◌-◌, ◌*◌, ◌<◌, ◌≤◌, ◌==◌, ◌||◌, Bool, length, take, flat_map};
ghost use Rattle.opus_flen.specs.FrameLength.{length_bytes};
ghost use Rattle.opus_flen.specs.PaddingLength.{padding_limit};
ghost use Rattle.opus_packet.specs.Value.{max_frame};
ghost use Rattle.opus_packet.specs.Header.{header_bytes, count_and_padding};
ghost use Rattle.opus_packet.specs.PacketGrammar.{header_in};
ghost use Rattle.opus_packet.specs.Tail.{max_tail};
ghost use Rattle.opus_packet.specs.Canonical.{canonical_shape, keep_shape, pad_total};

use crate::lens::Lens;
use crate::shape::Shape;
use opus_flen::pad_parts;

impl<'a> Lens<'a> {
    /// How the canonical form spells frames of these lengths.
    #[inline(always)]
    pub fn canonical_shape(&self) -> Shape
        requires { 1 ≤ length self.now }
        ensures { result ≡ canonical_shape self.now }
    {
        let (code, vbr) = match self.len() {
            1 => (0, false),
            2 if self.are_one() => (1, false),
            2 => (2, false),
            _ => (3, !self.are_one()),
        };
        Shape { code, vbr, pad: 0 }
    }

    /// How the kept form spells frames of these lengths with `tail` padding bytes behind them.
    #[inline(always)]
    pub fn keep_shape(&self, tail: u32) -> Shape
        requires some { 1 ≤ length self.now }
        requires most { tail ≤ max_tail }
        ensures { result ≡ keep_shape self.now tail }
    {
        if tail == 0 {
            self.canonical_shape()
        } else {
            Shape {
                code: 3,
                vbr: !self.are_one(),
                pad: tail + (tail - 1) / 254 + 1,
            }
        }
    }

    /// Bytes of a header in this shape.
    #[inline(always)]
    pub fn header_size(&self, shape: Shape) -> u32
        requires some { 1 ≤ length self.now }
        requires pad { shape.pad < padding_limit }
        ensures size { (config : ℕ) (stereo : Bool)
            → result ≡ length (header_bytes (header_in config stereo shape self.now)) }
        ensures most { result ≤ 65891 }
    {
        let lens = if gives_lens(shape) {
            self.spelled_size()
        } else {
            0
        };
        1 + count_size(shape) + lens
    }

    /// Bytes that spell all lengths but the last, at most 94.
    #[inline(always)]
    pub fn spelled_size(&self) -> u32
        requires { 1 ≤ length self.now }
        ensures size { result
            ≡ length (flat_map length_bytes (take (length self.now - 1) self.now)) }
        ensures most { result ≤ 96 }
    {
        match self.spelled() {
            Some(bytes) => bytes.len() as u32,
            None => self.count_spelled(),
        }
    }

    // The same, counted one by one.
    fn count_spelled(&self) -> u32
        requires { 1 ≤ length self.now }
        ensures size { result
            ≡ length (flat_map length_bytes (take (length self.now - 1) self.now)) }
        ensures most { result ≤ 96 }
    {
        let mut size = 0;
        for len in self.again() {
            size += width(len);
        }
        size - width(self.last_len())
    }
}

/// Whether a header in this shape gives the lengths of all frames but the last: with code 2, and with VBR.
#[inline(always)]
pub fn gives_lens(shape: Shape) -> bool
    ensures { result ≡ ((shape.code == 2) || shape.vbr) }
{
    shape.code == 2 || shape.vbr
}

// Bytes that spell one length.
#[inline(always)]
fn width(len: u16) -> u32
    ensures { result ≡ length (length_bytes len) }
{
    if len < 252 { 1 } else { 2 }
}

// Bytes of the count byte and the padding length.
#[inline(always)]
fn count_size(shape: Shape) -> u32
    requires { shape.pad < padding_limit }
    ensures size { (count : ℕ) → result ≡ length (count_and_padding shape count) }
    ensures most { result ≤ 65794 }
{
    if shape.code != 3 {
        0
    } else if shape.pad == 0 {
        1
    } else {
        pad_parts(shape.pad).full + 2
    }
}
