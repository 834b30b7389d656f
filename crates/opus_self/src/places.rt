//! Where the parts of a self-delimited packet lie: small numbers from which it is made again over its bytes.
ghost use Rattle.std.specs.Prelude.{◌≡◌, ◌+◌, ◌≤◌, length, take, drop, IfOk, IfErr};
ghost use Rattle.opus_flen.specs.FrameLength.{length_bytes, length_read};
ghost use Rattle.opus_flen.specs.declared.frame_length.LenRead.TheVariants.{Len};
ghost use Rattle.opus_packet.specs.declared.fault.Rule.TheVariants.{Cut};
ghost use Rattle.opus_packet.specs.Value.{max_frame};
ghost use Rattle.opus_packet.specs.HeaderRead.{header_read};
ghost use Rattle.opus_packet.specs.HeaderStands.{HeaderStands};
ghost use Rattle.opus_packet.specs.PacketFault.{fault};
ghost use Rattle.opus_packet.specs.SelfGrammar.{SpellsSelf};
ghost use Rattle.opus_packet.specs.SelfPrefix.{self_delimited_fault};
ghost use Rattle.opus_self.specs.SelfFits.{SelfFits, max_self_packet};
ghost use Rattle.opus_self.specs.HasSelfTail.{HasSelfTail};
ghost use Rattle.opus_self.specs.OnlyReading.{IsOnlyReading};
ghost use Rattle.opus_self.specs.BecomesSelf.{BeginsWithNone};

use opus_flen::{LenRead, read_len};
use opus_packet::{Fault, Header, HeaderRead, Packet, Places, Rule, read_header};

/// Where the parts of a self-delimited packet lie in its bytes: plain numbers, which a reader of records keeps
/// while the bytes stay where they are.
#[derive(Clone, Copy)]
pub struct SelfPlaces {
    places: Places,
    size: u32,
}

/// Reads one self-delimited packet from the front of `bytes`, and keeps where its parts lie. A fault is that of
/// `decode_self`.
#[inline(always)]
pub fn locate_self(bytes: &[u8]) -> Result<SelfPlaces, Fault>
    ensures within { IfOk result (λ p. p.size ≤ length bytes.now) }
    ensures fits { IfOk result (λ p. SelfFits p (take p.size bytes.now)) }
    ensures none { IfErr result (λ f. BeginsWithNone bytes.now) }
    ensures fault { IfErr result (λ f. f ≡ self_delimited_fault bytes.now) }
{
    match read_header(bytes) {
        HeaderRead::Whole(header) => read_last(header, bytes),
        HeaderRead::Partial => Err(cut(bytes)),
        HeaderRead::Refused(fault) => Err(fault),
    }
}

impl SelfPlaces {
    /// Bytes of the packet.
    #[inline(always)]
    pub fn size(&self) -> usize
        ensures { result ≡ self.now.size }
    {
        self.size as usize
    }

    /// The packet over its own bytes, all of them and no more.
    #[inline(always)]
    pub fn over<'a>(&self, bytes: &'a [u8]) -> Packet<'a>
        requires { SelfFits self.now bytes.now }
        ensures found { SpellsSelf result.value result.shape bytes.now }
        ensures size { result.size ≡ length bytes.now }
        ensures most { result.size ≤ max_self_packet }
        ensures only { IsOnlyReading result bytes.now }
        ensures tail { HasSelfTail result bytes.now }
    {
        let last = self.places.last_len();
        let front = self.places.header_len() + width(last);
        let end = bytes.len() - self.places.tail_len();
        let body = &bytes[front..end];
        let header = self.places.header(bytes, body.len());
        Packet::of_header(header, self.size, body, last, &bytes[end..])
    }
}

// Bytes that spell a length.
#[inline(always)]
fn width(len: u16) -> usize
    ensures { result ≡ length (length_bytes len) }
{
    if len < 252 { 1 } else { 2 }
}

// The fault of bytes that end before the packet does.
#[cold]
#[inline(never)]
fn cut(bytes: &[u8]) -> Fault
    ensures { result ≡ fault Cut (length bytes.now) }
{
    Fault {
        rule: Rule::Cut,
        place: bytes.len() as u64,
    }
}

// Reads what follows the header: the last frame's length, the frames and the padding.
#[inline(always)]
fn read_last(header: Header<'_>, bytes: &[u8]) -> Result<SelfPlaces, Fault>
    requires { HeaderStands header (length bytes.now) (header_read bytes.now) }
    ensures within { IfOk result (λ p. p.size ≤ length bytes.now) }
    ensures fits { IfOk result (λ p. SelfFits p (take p.size bytes.now)) }
    ensures none { IfErr result (λ f. BeginsWithNone bytes.now) }
    ensures fault { IfErr result (λ f. f ≡ self_delimited_fault bytes.now) }
{
    match read_len(&bytes[header.used..]) {
        LenRead::Len { value, used } => read_body(header, bytes, value, used),
        LenRead::Cut => Err(cut(bytes)),
    }
}

// Reads the frames and the padding, where the last frame has `last` bytes and its length takes `width`.
#[inline(always)]
fn read_body(header: Header<'_>, bytes: &[u8], last: u16, width: usize) -> Result<SelfPlaces, Fault>
    requires stands { HeaderStands header (length bytes.now) (header_read bytes.now) }
    requires read { length_read (drop header.used bytes.now) ≡ Len last width }
    requires frame { last ≤ max_frame }
    requires width { width ≡ length (length_bytes last) }
    requires short { width ≤ 2 }
    requires within { header.used + width ≤ length bytes.now }
    ensures within { IfOk result (λ p. p.size ≤ length bytes.now) }
    ensures fits { IfOk result (λ p. SelfFits p (take p.size bytes.now)) }
    ensures none { IfErr result (λ f. BeginsWithNone bytes.now) }
    ensures fault { IfErr result (λ f. f ≡ self_delimited_fault bytes.now) }
{
    let size = header.used + width + header.body_size(last) + header.tail;
    if size > bytes.len() {
        return Err(cut(bytes));
    }
    Ok(SelfPlaces {
        places: Places::of_header(header, last),
        size: size as u32,
    })
}
