//! The header of a packet: its bytes before the frames (RFC 6716, 3.2).
ghost use Rattle.std.specs.Prelude.{◌≡◌, ℕ, ◌+◌, ◌*◌, ◌<◌, ◌≤◌, length, IsTrue, false, IfSome, IfNone};
ghost use Rattle.opus_toc.specs.Toc.{code_of, config_of};
ghost use Rattle.opus_toc.specs.Configuration.{samples_of};
ghost use Rattle.opus_flen.specs.PaddingLength.{padding_limit, padding_read};
ghost use Rattle.opus_packet.specs.Value.{max_body, max_duration, max_frame};
ghost use Rattle.opus_packet.specs.Header.{count_and_padding, padding_data, padding_length, body_size, equal};
ghost use Rattle.opus_packet.specs.HeaderRead.{header_read, after_toc, after_padding, with_padding, with_lengths, lengths_read, shape_of, is_count, padded_of};
ghost use Rattle.opus_packet.specs.HeaderStands.{ReadsHeader, IsMade, AreSized, Fills, sizes_value};

use crate::fault::{Fault, Rule};
use crate::shape::Shape;
use crate::spelled::{Spelled, read_lens};
use opus_flen::{PadRead, pad_parts, read_pad};
use opus_toc::Toc;

/// Most samples at 48 kHz of a packet: 120 ms.
pub const MAX_DURATION: u32 = 5760;

/// Most bytes of a frame.
pub const MAX_FRAME: u16 = 1275;

/// What a header says of the frames' lengths.
#[derive(Clone, Copy)]
pub enum Sizes<'a> {
    /// So many frames of one length.
    Equal(u8),
    /// The lengths of all frames but the last.
    Given(Spelled<'a>),
}

/// A header as it was read.
#[derive(Clone, Copy)]
pub struct Header<'a> {
    /// The TOC byte.
    pub toc: Toc,
    /// The shape that the header gives the packet.
    pub shape: Shape,
    /// The frames' lengths, as far as they are said.
    pub sizes: Sizes<'a>,
    /// Bytes of the header.
    pub used: usize,
    /// Padding bytes behind the frames.
    pub tail: usize,
}

impl<'a> Header<'a> {
    /// Bytes of all frames, where the last one has `last`.
    #[inline(always)]
    pub fn body_size(&self, last: u16) -> usize
        requires sized { AreSized self.now.sizes }
        requires frame { last ≤ max_frame }
        ensures size { result ≡ body_size (sizes_value self.now.sizes) last }
        ensures small { result ≤ max_body }
    {
        match &self.sizes {
            Sizes::Equal(count) => usize::from(*count) * usize::from(last),
            Sizes::Given(spelled) => usize::from(spelled.sum) + usize::from(last),
        }
    }

    /// The length of the last frame, where frames and padding fill the `rest` bytes behind the header.
    #[inline(always)]
    pub fn last_length(&self, rest: usize) -> Option<u16>
        requires sized { AreSized self.now.sizes }
        requires most { rest ≤ body_size (sizes_value self.now.sizes) max_frame + self.now.tail }
        ensures { Fills (sizes_value self.now.sizes) self.now.tail rest result }
    {
        if rest < self.tail {
            return None;
        }
        let body = rest - self.tail;
        match &self.sizes {
            Sizes::Equal(count) => quotient(body, *count),
            Sizes::Given(spelled) => remainder(body, usize::from(spelled.sum)),
        }
    }
}

// The length of `count` frames of one length that fill `body` bytes.
#[inline(always)]
fn quotient(body: usize, count: u8) -> Option<u16>
    requires some { 1 ≤ count }
    requires most { body ≤ count * max_frame }
    ensures { Fills (equal count) 0 body result }
{
    if count == 1 {
        return Some(body as u16);
    }
    let count = usize::from(count);
    if body % count == 0 {
        Some((body / count) as u16)
    } else {
        None
    }
}

// The length of a frame that fills `body` bytes with others that have `sum`.
#[inline(always)]
fn remainder(body: usize, sum: usize) -> Option<u16>
    requires { body ≤ sum + max_frame }
    ensures some { IfSome result (λ n. (n ≤ max_frame) × (body ≡ sum + n)) }
    ensures none { IfNone result (body < sum) }
{
    if body < sum {
        None
    } else {
        Some((body - sum) as u16)
    }
}

/// What the first bytes of a packet say.
#[derive(Clone, Copy)]
pub enum HeaderRead<'a> {
    /// A header stands first.
    Whole(Header<'a>),
    /// The bytes are a part of a header.
    Partial,
    /// No header begins as the bytes up to and with the one at the fault's place do.
    Refused(Fault),
}

/// Reads the header at the front of `bytes`, which both framings begin with (RFC 6716, 3.2 and Appendix B).
#[inline(always)]
pub fn read_header(bytes: &[u8]) -> HeaderRead<'_>
    ensures { ReadsHeader (length bytes.now) result (header_read bytes.now) }
{
    let Some((first, rest)) = bytes.split_first() else {
        return HeaderRead::Partial;
    };
    let first = *first;
    match first % 4 {
        0 => HeaderRead::Whole(make(first, plain(0), Sizes::Equal(1), 1)),
        1 => HeaderRead::Whole(make(first, plain(1), Sizes::Equal(2), 1)),
        2 => read_given(first, plain(2), rest, 1, 1),
        _ => read_count(first, rest),
    }
}

// The shape of a packet with no count byte.
#[inline(always)]
fn plain(code: u8) -> Shape
    ensures { result ≡ shape_of code false 0 }
{
    Shape {
        code,
        vbr: false,
        pad: 0,
    }
}

/// Padding bytes behind the frames, where the padding has `pad` bytes with its length, below 2^24.
#[inline(always)]
pub fn padding_len(pad: u32) -> usize
    requires { pad < padding_limit }
    ensures data { result ≡ padding_data pad }
    ensures small { result < padding_limit }
{
    if pad == 0 {
        0
    } else {
        pad_parts(pad).data_bytes as usize
    }
}

// The header with these parts.
#[inline(always)]
fn make(first: u8, shape: Shape, sizes: Sizes<'_>, used: usize) -> Header<'_>
    requires pad { shape.pad < padding_limit }
    ensures { IsMade first shape sizes.entry used result }
{
    Header {
        toc: Toc::of_byte(first),
        shape,
        sizes,
        used,
        tail: padding_len(shape.pad),
    }
}

// Behind what comes first, `before` bytes, stand the lengths of `count` frames.
#[inline(always)]
fn read_given(first: u8, shape: Shape, rest: &[u8], count: u8, before: usize) -> HeaderRead<'_>
    requires most { count ≤ 47 }
    requires code { shape.code ≡ code_of first }
    requires pad { shape.pad < padding_limit }
    requires before { before ≡ 1 + length (count_and_padding shape (count + 1)) }
    requires small { before ≤ 65795 }
    requires lasts { (count + 1) * samples_of (config_of first) ≤ max_duration }
    ensures { ReadsHeader (before + length rest.now) result
        (with_lengths first shape (lengths_read count rest.now)) }
{
    match read_lens(rest, count) {
        Some(spelled) => {
            let used = before + spelled.bytes.len();
            HeaderRead::Whole(make(first, shape, Sizes::Given(spelled), used))
        }
        None => HeaderRead::Partial,
    }
}

// Code 3: behind the TOC byte stands the count byte (RFC 6716, 3.2.5).
#[inline(always)]
fn read_count(first: u8, rest: &[u8]) -> HeaderRead<'_>
    requires { code_of first ≡ 3 }
    ensures { ReadsHeader (1 + length rest.now) result (after_toc 3 first rest.now) }
{
    let Some((count, rest)) = rest.split_first() else {
        return HeaderRead::Partial;
    };
    let count = *count;
    let frames = count % 64;
    if frames == 0 || u32::from(frames) * Toc::of_byte(first).samples() > MAX_DURATION {
        return HeaderRead::Refused(Fault {
            rule: Rule::R5,
            place: 1,
        });
    }
    if count / 64 % 2 == 1 {
        read_padded(first, count, rest)
    } else {
        read_sizes(first, count, 0, rest, 2)
    }
}

// Code 3 behind the count byte, where a padding length follows.
#[inline(always)]
fn read_padded(first: u8, count: u8, rest: &[u8]) -> HeaderRead<'_>
    requires code { code_of first ≡ 3 }
    requires count { IsTrue (is_count first count) }
    requires padded { IsTrue (padded_of count) }
    ensures { ReadsHeader (2 + length rest.now) result
        (with_padding first count rest.now (padding_read rest.now)) }
{
    match read_pad(rest) {
        PadRead::Pad { total, used } => read_sizes(first, count, total, &rest[used..], 2 + used),
        PadRead::Cut => HeaderRead::Partial,
        PadRead::Limit { place } => HeaderRead::Refused(Fault {
            rule: Rule::PadLimit,
            place: place as u64 + 2,
        }),
    }
}

// Code 3 behind the count byte and the padding length: `before` bytes, with `pad` bytes of padding.
#[inline(always)]
fn read_sizes(first: u8, count: u8, pad: u32, rest: &[u8], before: usize) -> HeaderRead<'_>
    requires code { code_of first ≡ 3 }
    requires count { IsTrue (is_count first count) }
    requires pad { pad < padding_limit }
    requires before { before ≡ 2 + length (padding_length pad) }
    requires small { before ≤ 65795 }
    ensures { ReadsHeader (before + length rest.now) result
        (after_padding first count pad rest.now) }
{
    let frames = count % 64;
    let shape = Shape {
        code: 3,
        vbr: count >= 128,
        pad,
    };
    if shape.vbr {
        read_given(first, shape, rest, frames - 1, before)
    } else {
        HeaderRead::Whole(make(first, shape, Sizes::Equal(frames), before))
    }
}
