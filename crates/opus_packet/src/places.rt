//! Where a packet's parts lie: small numbers from which the packet is made again over the same bytes.
ghost use Rattle.std.specs.Prelude.{◌≡◌, ℕ, ◌+◌, ◌-◌, ◌<◌, ◌≤◌, List, length, drop, IfOk, IfErr};
ghost use Rattle.opus_toc.specs.Toc.{code_of};
ghost use Rattle.opus_flen.specs.PaddingLength.{padding_limit};
ghost use Rattle.opus_packet.specs.declared.shape.Shape.{Shape};
ghost use Rattle.opus_packet.specs.Value.{PacketValue, max_frame};
ghost use Rattle.opus_packet.specs.Header.{max_header, body_size};
ghost use Rattle.opus_packet.specs.HeaderRead.{header_read};
ghost use Rattle.opus_packet.specs.HeaderStands.{HeaderStands, AreSized, header_value, sizes_value, value_at};
ghost use Rattle.opus_packet.specs.PacketGrammar.{max_packet, Spells};
ghost use Rattle.opus_packet.specs.PacketFault.{packet_fault, rule_of_part, rule_of_code, fault};
ghost use Rattle.opus_packet.specs.Tail.{tail_of};
ghost use Rattle.opus_packet.specs.HasTail.{HasTail};
ghost use Rattle.opus_packet.specs.Places.{Fits, HeaderFits, IsFrom, header_at};

use crate::fault::{Fault, Rule};
use crate::header::{Header, HeaderRead, MAX_FRAME, Sizes, read_header};
use crate::lens::Lens;
use crate::packet::Packet;
use crate::shape::Shape;
use crate::spelled::Spelled;
use crate::tail::Tail;
use opus_toc::Toc;

/// How the lengths of the frames before the last are kept.
#[derive(Clone, Copy)]
enum LensAt {
    /// They are equal to the last.
    Equal,
    /// So many bytes at the header's end spell them.
    Spelled(u8),
}

/// Where a packet's parts lie in the bytes that it was read from: 24 bytes of plain numbers, which a reader of
/// records keeps while the bytes stay where they are.
#[derive(Clone, Copy)]
pub struct Places {
    toc: Toc,
    shape: Shape,
    used: u32,
    tail: u32,
    last: u16,
    count: u8,
    lens: LensAt,
}

/// Reads the whole of `bytes` as one undelimited packet, and keeps where its parts lie. A fault is that of
/// `decode`.
#[inline(always)]
pub fn locate(bytes: &[u8]) -> Result<Places, Fault>
    ensures fits { IfOk result (λ p. Fits p bytes.now) }
    ensures none { IfErr result
        (λ f. (v : PacketValue) (s : Shape) → Spells v s bytes.now → ⊥) }
    ensures fault { IfErr result (λ f. f ≡ packet_fault bytes.now) }
{
    match read_header(bytes) {
        HeaderRead::Whole(header) => read_body(header, bytes),
        HeaderRead::Partial => Err(part_fault(bytes)),
        HeaderRead::Refused(fault) => Err(fault),
    }
}

impl Places {
    /// The places of a packet with this header, whose last frame has `last` bytes.
    #[inline(always)]
    pub fn of_header(header: Header<'_>, last: u16) -> Places
        requires stands { header.used ≤ max_header }
        requires tail { header.tail < padding_limit }
        requires sized { AreSized header.sizes }
        ensures { IsFrom header.entry last result }
    {
        let (count, lens) = match header.sizes {
            Sizes::Equal(count) => (count, LensAt::Equal),
            Sizes::Given(spelled) => {
                let width = spelled.bytes.len() as u8;
                (spelled.count + 1, LensAt::Spelled(width))
            }
        };
        Places {
            toc: header.toc,
            shape: header.shape,
            used: header.used as u32,
            tail: header.tail as u32,
            last,
            count,
            lens,
        }
    }

    /// Bytes of the header.
    #[inline(always)]
    pub fn header_len(&self) -> usize
        ensures { result ≡ self.now.used }
    {
        self.used as usize
    }

    /// Bytes of the last frame.
    #[inline(always)]
    pub fn last_len(&self) -> u16
        ensures { result ≡ self.now.last }
    {
        self.last
    }

    /// Padding bytes behind the frames.
    #[inline(always)]
    pub fn tail_len(&self) -> usize
        ensures { result ≡ self.now.tail }
    {
        self.tail as usize
    }

    /// The header of the packet, whose frames have `body` bytes.
    #[inline(always)]
    pub fn header<'a>(&self, bytes: &'a [u8], body: usize) -> Header<'a>
        requires fits { HeaderFits self.now bytes.now }
        requires body { body ≡ body_size (header_at self.now bytes.now).sizes self.now.last }
        ensures stands { HeaderStands result (length bytes.now) (header_read bytes.now) }
        ensures value { header_value result ≡ header_at self.now bytes.now }
    {
        let used = self.used as usize;
        let sizes = match self.lens {
            LensAt::Equal => Sizes::Equal(self.count),
            LensAt::Spelled(width) => Sizes::Given(Spelled {
                bytes: &bytes[used - usize::from(width)..used],
                count: self.count - 1,
                sum: (body - usize::from(self.last)) as u16,
            }),
        };
        Header {
            toc: self.toc,
            shape: self.shape,
            sizes,
            used,
            tail: self.tail as usize,
        }
    }

    /// The packet over the bytes that it was read from.
    #[inline(always)]
    pub fn over<'a>(&self, bytes: &'a [u8]) -> Packet<'a>
        requires { Fits self.now bytes.now }
        ensures found { Spells result.value result.shape bytes.now }
        ensures size { result.size ≡ length bytes.now }
        ensures most { result.size ≤ max_packet }
        ensures only { (v : PacketValue) (s : Shape) → Spells v s bytes.now
            → (result.value ≡ v) × (result.shape ≡ s) }
        ensures tail { HasTail result bytes.now }
    {
        let end = bytes.len() - self.tail as usize;
        let body = &bytes[self.used as usize..end];
        let header = self.header(bytes, body.len());
        Packet::of_header(header, bytes.len() as u32, body, self.last, &bytes[end..])
    }
}

// Reads what follows the header.
#[inline(always)]
fn read_body(header: Header<'_>, bytes: &[u8]) -> Result<Places, Fault>
    requires { HeaderStands header (length bytes.now) (header_read bytes.now) }
    ensures fits { IfOk result (λ p. Fits p bytes.now) }
    ensures none { IfErr result
        (λ f. (v : PacketValue) (s : Shape) → Spells v s bytes.now → ⊥) }
    ensures fault { IfErr result (λ f. f ≡ packet_fault bytes.now) }
{
    let rest = bytes.len() - header.used;
    let most = header.body_size(MAX_FRAME) + header.tail;
    if rest > most {
        return Err(Fault {
            rule: Rule::R2,
            place: (header.used + most) as u64,
        });
    }
    match header.last_length(rest) {
        Some(last) => Ok(Places::of_header(header, last)),
        None => Err(part_fault(bytes)),
    }
}

// The fault of bytes that some packet begins with, where they are none themselves.
#[cold]
#[inline(never)]
fn part_fault(bytes: &[u8]) -> Fault
    ensures { result ≡ fault (rule_of_part bytes.now) (length bytes.now) }
{
    let rule = match bytes {
        [] => Rule::R1,
        [first, rest @ ..] => part_rule(*first, rest),
    };
    Fault {
        rule,
        place: bytes.len() as u64,
    }
}

// The rule that bytes break which some packet begins with: a first byte, and the rest.
fn part_rule(first: u8, rest: &[u8]) -> Rule
    ensures { result ≡ rule_of_code (code_of first) rest.now }
{
    match first % 4 {
        0 => Rule::R6,
        1 => Rule::R3,
        2 => Rule::R4,
        _ => match rest.first() {
            Some(count) if *count >= 128 => Rule::R7,
            _ => Rule::R6,
        },
    }
}
