//! A packet's header as it is taken, byte by byte.
ghost use Rattle.std.specs.Prelude.{◌≡◌, ℕ, List, ◌+◌, ◌^◌, ◌≤◌, ◌<◌, ◌++◌, ◌∷◌, [], length, replicate, take, true, nat_lt};

use crate::framing::Framing;
use crate::stage::Stage;
use opus_packet::{Header, MAX_FRAME, Rule, Shape, Sizes, Spelled, padding_len};
use opus_toc::Toc;

/// Most bytes 255 of a padding length: the padding is at most 2^24 - 1 bytes, which is 255 * 65,793.
const MOST_FULL: u32 = 65_792;

/// Most samples at 48 kHz of a packet: 120 ms.
const MAX_DURATION: u32 = 5760;

/// Most bytes that spell the lengths of all frames but the last.
const MOST_SPELLED: usize = 94;

/// The parts of a header. Which of them were taken, the stage tells.
#[derive(Drop)]
pub(crate) struct Head {
    /// The TOC byte.
    pub first: u8,
    /// The count byte of code 3.
    pub count: u8,
    /// The shape that the header gives the packet.
    pub shape: Shape,
    /// How many frames there are.
    pub frames: u8,
    /// How many bytes 255 of the padding length were taken, at most 65,792.
    pub full: u32,
    /// How many frame lengths were taken, at most 46 while one comes next.
    pub done: u8,
    /// The first byte of a length that has two.
    pub low: u8,
    /// Bytes of the last frame; where the header doesn't tell them, most that they can be.
    pub last: u16,
    /// The bytes that spell the frame lengths, at the front.
    pub lengths: [u8; MOST_SPELLED],
    /// How many such bytes there are.
    pub spelled: usize,
    /// Bytes of the frames whose lengths these are.
    pub sum: u16,
}

impl Head {
    ghost use Rattle.opus_feed.specs.Stage.{IsOpen};
    ghost use Rattle.opus_feed.specs.Heads.{IsSound, spelling, lead, spelled_in, IsCounting, IsCounted, IsPadded, IsGiving, IsLed, IsSized, IsLow, HasLengths, gives, sizes_in, header_in};
    ghost use Rattle.opus_feed.specs.declared.framing.Framing.TheVariants.{SelfDelimited};
    ghost use Rattle.opus_packet.specs.Header.{padding_length, padding_data};
    ghost use Rattle.opus_packet.specs.HeaderStands.{AreSized, sizes_value, header_value};
    ghost use Rattle.opus_feed.specs.Rules.{rule_by};
    ghost use Rattle.opus_packet.specs.HeaderRead.{padded_of};

    /// A header of which nothing was taken.
    pub fn new() -> Head {
        Head {
            first: 0,
            count: 0,
            shape: Shape {
                code: 0,
                vbr: false,
                pad: 0,
            },
            frames: 0,
            full: 0,
            done: 0,
            low: 0,
            last: 0,
            lengths: [0; MOST_SPELLED],
            spelled: 0,
            sum: 0,
        }
    }

    // The TOC byte.
    #[inline(always)]
    pub fn take_toc(&mut self, framing: Framing, first: u8) -> Stage
        ensures sound { IsSound framing result self.new }
        ensures spelled { spelling framing result self.new ≡ first ∷ [] }
    {
        self.first = first;
        self.shape = Shape {
            code: first % 4,
            vbr: false,
            pad: 0,
        };
        self.spelled = 0;
        self.sum = 0;
        match first % 4 {
            0 => {
                self.frames = 1;
                self.behind_lengths(framing)
            }
            1 => {
                self.frames = 2;
                self.behind_lengths(framing)
            }
            2 => {
                self.frames = 2;
                self.done = 0;
                Stage::Length
            }
            _ => Stage::Count,
        }
    }

    // The count byte of code 3 (RFC 6716, 3.2.5).
    #[inline(always)]
    pub fn take_count(&mut self, framing: Framing, count: u8) -> Stage
        requires { IsCounting self.old }
        ensures sound { IsSound framing result self.new }
        ensures spelled { spelling framing result self.new ≡ self.old.first ∷ count ∷ [] }
    {
        self.count = count;
        self.frames = count % 64;
        self.shape.vbr = count >= 128;
        let samples = Toc::of_byte(self.first).samples();
        if self.frames == 0 || u32::from(self.frames) * samples > MAX_DURATION {
            return Stage::BadCount;
        }
        if count / 64 % 2 == 1 {
            self.full = 0;
            return Stage::PadLength;
        }
        self.behind_padding(framing)
    }

    // A byte of the padding length.
    #[inline(always)]
    pub fn take_padding(&mut self, framing: Framing, byte: u8) -> Stage
        requires { IsPadded self.old.full self.old }
        ensures sound { IsSound framing result self.new }
        ensures spelled { spelling framing result self.new
            ≡ self.old.first ∷ self.old.count ∷ replicate self.old.full 255 ++ byte ∷ [] }
    {
        if byte == 255 {
            if self.full == MOST_FULL {
                return Stage::BadPadding;
            }
            self.full += 1;
            return Stage::PadLength;
        }
        self.shape.pad = 255 * self.full + u32::from(byte) + 1;
        self.behind_padding(framing)
    }

    // What comes behind the count byte and the padding length.
    #[inline(always)]
    fn behind_padding(&mut self, framing: Framing) -> Stage
        requires counted { IsCounted self.old }
        requires pad { self.old.shape.pad < 2 ^ 24 }
        requires padded { padded_of self.old.count ≡ nat_lt 0 self.old.shape.pad }
        ensures sound { IsSound framing result self.new }
        ensures spelled { spelling framing result self.new
            ≡ self.old.first ∷ self.old.count ∷ padding_length self.old.shape.pad }
    {
        if self.shape.vbr && self.frames > 1 {
            self.done = 0;
            Stage::Length
        } else {
            self.behind_lengths(framing)
        }
    }

    // The first byte of a frame length.
    #[inline(always)]
    pub fn take_length(&mut self, framing: Framing, byte: u8) -> Stage
        requires { IsGiving self.old.done self.old }
        ensures sound { IsSound framing result self.new }
        ensures spelled { spelling framing result self.new
            ≡ lead self.old ++ spelled_in self.old ++ byte ∷ [] }
    {
        if byte >= 252 {
            self.low = byte;
            return Stage::LengthEnd;
        }
        self.lengths[self.spelled] = byte;
        self.spelled += 1;
        self.sum += u16::from(byte);
        self.next_length(framing)
    }

    // The second byte of a frame length.
    #[inline(always)]
    pub fn end_length(&mut self, framing: Framing, byte: u8) -> Stage
        requires giving { IsGiving self.old.done self.old }
        requires low { IsLow self.old.low }
        ensures sound { IsSound framing result self.new }
        ensures spelled { spelling framing result self.new
            ≡ (lead self.old ++ spelled_in self.old ++ self.old.low ∷ []) ++ byte ∷ [] }
    {
        self.lengths[self.spelled] = self.low;
        self.lengths[self.spelled + 1] = byte;
        self.spelled += 2;
        self.sum += 4 * u16::from(byte) + u16::from(self.low);
        self.next_length(framing)
    }

    // What comes behind one length more.
    #[inline(always)]
    fn next_length(&mut self, framing: Framing) -> Stage
        requires led { IsLed self.old }
        requires giving { gives self.old.shape ≡ true }
        requires lengths { HasLengths (self.old.done + 1) self.old }
        requires more { self.old.done + 2 ≤ self.old.frames }
        ensures sound { IsSound framing result self.new }
        ensures spelled { spelling framing result self.new ≡ lead self.old ++ spelled_in self.old }
    {
        self.done += 1;
        if self.done + 1 == self.frames {
            self.behind_lengths(framing)
        } else {
            Stage::Length
        }
    }

    // What comes behind the lengths of all frames but the last.
    #[inline(always)]
    fn behind_lengths(&mut self, framing: Framing) -> Stage
        requires { IsSized self.old }
        ensures sound { IsSound framing result self.new }
        ensures spelled { spelling framing result self.new ≡ lead self.old ++ spelled_in self.old }
    {
        match framing {
            Framing::Whole => {
                self.last = MAX_FRAME;
                Stage::Ready
            }
            Framing::SelfDelimited => Stage::Last,
        }
    }

    // The first byte of the last frame's length.
    #[inline(always)]
    pub fn take_last(&mut self, byte: u8) -> Stage
        requires { IsSized self.old }
        ensures sound { IsSound SelfDelimited result self.new }
        ensures spelled { spelling SelfDelimited result self.new
            ≡ lead self.old ++ spelled_in self.old ++ byte ∷ [] }
    {
        if byte >= 252 {
            self.low = byte;
            return Stage::LastEnd;
        }
        self.last = u16::from(byte);
        Stage::Ready
    }

    // The second byte of that length.
    #[inline(always)]
    pub fn end_last(&mut self, byte: u8) -> Stage
        requires sized { IsSized self.old }
        requires low { IsLow self.old.low }
        ensures sound { IsSound SelfDelimited result self.new }
        ensures spelled { spelling SelfDelimited result self.new
            ≡ (lead self.old ++ spelled_in self.old ++ self.old.low ∷ []) ++ byte ∷ [] }
    {
        self.last = 4 * u16::from(byte) + u16::from(self.low);
        Stage::Ready
    }

    /// What the header says of the frames' lengths.
    #[inline(always)]
    pub fn sizes(&self) -> Sizes<'_>
        requires { IsSized self.now }
        ensures value { sizes_value result ≡ sizes_in self.now }
        ensures sized { AreSized result }
    {
        if self.shape.code == 2 || self.shape.vbr {
            Sizes::Given(Spelled {
                bytes: &self.lengths[..self.spelled],
                count: self.frames - 1,
                sum: self.sum,
            })
        } else {
            Sizes::Equal(self.frames)
        }
    }

    /// The header, which has `used` bytes.
    #[inline(always)]
    pub fn header(&self, used: usize) -> Header<'_>
        requires { IsSized self.now }
        ensures value { header_value result ≡ header_in self.now }
        ensures sized { AreSized result.sizes }
        ensures code { result.toc.code ≡ result.shape.code }
        ensures used { result.used ≡ used }
        ensures tail { result.tail ≡ padding_data self.now.shape.pad }
        ensures small { result.tail < 2 ^ 24 }
    {
        Header {
            toc: Toc::of_byte(self.first),
            shape: self.shape,
            sizes: self.sizes(),
            used,
            tail: padding_len(self.shape.pad),
        }
    }

    /// The rule that bytes break which end in this header, or behind it, and can still become an undelimited packet.
    pub fn part_rule(&self) -> Rule
        ensures { result ≡ rule_by self.now.shape.code self.now.shape.vbr }
    {
        match self.shape.code {
            0 => Rule::R6,
            1 => Rule::R3,
            2 => Rule::R4,
            _ if self.shape.vbr => Rule::R7,
            _ => Rule::R6,
        }
    }
}
