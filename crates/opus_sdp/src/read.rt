//! Reading the two lines.
ghost use Rattle.std.specs.Prelude.{◌≡◌, ◌≢◌, ◌⊎◌, ◌+◌, ◌^◌, ◌<◌, ◌≤◌, true, None, Some, Ok, Err, [], map, length, codes, IsTrue, IfOk, IfErr};
ghost use Rattle.opus_sdp.specs.Text.{is_line, trim};
ghost use Rattle.text_numbers.specs.Number.{value_of};
ghost use Rattle.opus_sdp.specs.Table.{same_name};
ghost use Rattle.opus_sdp.specs.Params.{fmtp_of};
ghost use Rattle.opus_sdp.specs.Parts.{parts_of, param_of};
ghost use Rattle.opus_sdp.specs.Fault.{front_fault, word_in, word_end, first_fault, fmtp_fault, rtpmap_fault};
ghost use Rattle.opus_sdp.specs.Grammar.{IsFmtpLine, IsRtpmapLine};
ghost use Rattle.opus_sdp.specs.Found.{Tells};
ghost use Rattle.opus_sdp.specs.declared.fmtp.Fmtp.{Fmtp};
ghost use Rattle.opus_sdp.specs.declared.fmtp.Rtpmap.{Rtpmap};

use crate::found::Found;
use crate::text::{blanks, trim_end, until, until_blank};
use crate::{Fmtp, Rtpmap, SdpFault};
use std::alloc::Global;
use text_numbers::read_number;

// The payload type behind these first bytes of a line, and where its digits end.
fn read_front(line: &[u8], front: &[u8]) -> Result<(u8, usize), SdpFault>
    ensures none { IfOk result (λ p. front_fault front.now line.now ≡ None) }
    ensures payload_type { IfOk result (λ p. p.0 ≡ value_of (word_in (length front.now) line.now)) }
    ensures end { IfOk result (λ p. p.1 ≡ word_end (length front.now) line.now) }
    ensures within { IfOk result (λ p. p.1 ≤ length line.now) }
    ensures fault { IfErr result (λ fault. front_fault front.now line.now ≡ Some fault) }
    ensures other { IfErr result (λ fault. fault ≢ SdpFault.NoMemory) }
{
    let Some(behind) = line.strip_prefix(front) else {
        return Err(SdpFault::Prefix);
    };
    let size = until_blank(behind);
    match read_number(&behind[..size], 0, 127) {
        Some(number) => Ok((number as u8, front.len() + size)),
        None => Err(SdpFault::PayloadType(front.len() as u64)),
    }
}

// Reads the parameters in a text that stands at a place.
fn read_params(alloc: Global, at: usize, text: &[u8], payload_type: u8) -> Result<Fmtp, SdpFault>
    requires { at + length text.now < 2 ^ 64 }
    ensures none { IfOk result (λ m. first_fault [] (parts_of at text.now) ≡ None) }
    ensures ok { IfOk result (λ m. m ≡ fmtp_of payload_type (map param_of (parts_of at text.now))) }
    ensures fault { IfErr result (λ fault. Tells fault (first_fault [] (parts_of at text.now))) }
{
    let mut found = Found::new(alloc);
    let mut from = 0;
    loop {
        let rest = &text[from..];
        let size = until(rest, b';');
        found.take_piece(alloc, at + from, &rest[..size])?;
        if size == rest.len() {
            return Ok(found.finish(payload_type));
        }
        from += size + 1;
    }
}

/// Reads a line that begins with `a=fmtp:`, without its newline (RFC 7587, 6.1).
pub fn read_fmtp(alloc: Global, line: &[u8]) -> Result<Fmtp, SdpFault>
    requires { IsTrue (is_line line.now) }
    // What is read is spelled so, each byte of it; and what is spelled so is read.
    ensures found { IfOk result (λ m. IsFmtpLine m line.now) }
    ensures only { (m : Fmtp) → IsFmtpLine m line.now
        → (result ≡ Ok m) ⊎ (result ≡ Err SdpFault.NoMemory) }
    ensures fault { IfErr result (λ fault. (fault ≡ SdpFault.NoMemory)
        ⊎ (fmtp_fault line.now ≡ Some fault)) }
    // Want of memory comes only where nothing is wrong in front of the parameters.
    ensures last { result ≡ Err SdpFault.NoMemory → front_fault (codes "a=fmtp:") line.now ≡ None }
{
    let (payload_type, end) = read_front(line, b"a=fmtp:")?;
    read_params(alloc, end, &line[end..], payload_type)
}

/// Reads a line that begins with `a=rtpmap:`, without its newline (RFC 7587, 7).
pub fn read_rtpmap(line: &[u8]) -> Result<Rtpmap, SdpFault>
    // What is read is spelled so, each byte of it; and what is spelled so is read.
    ensures found { IfOk result (λ r. IsRtpmapLine r line.now) }
    ensures only { (r : Rtpmap) → IsRtpmapLine r line.now → result ≡ Ok r }
    ensures fault { IfErr result (λ fault. rtpmap_fault line.now ≡ Some fault) }
{
    let (payload_type, end) = read_front(line, b"a=rtpmap:")?;
    if !is_opus(&line[end..]) {
        return Err(SdpFault::Codec(end as u64));
    }
    Ok(Rtpmap { payload_type })
}

// Whether the text is the codec of Opus, with blanks around it.
fn is_opus(text: &[u8]) -> bool
    ensures { result ≡ same_name (trim text.now) (codes "opus/48000/2") }
{
    let codec = trim_end(&text[blanks(text)..]);
    codec.eq_ignore_ascii_case(b"opus/48000/2")
}
