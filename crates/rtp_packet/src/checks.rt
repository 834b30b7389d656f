//! The checks, in their order, and where the parts of a packet end.
ghost use Rattle.std.specs.Prelude.{◌≡◌, ◌≤◌, ◌<◌, ◌+◌, ◌-◌, ◌&&◌, None, Some, true, false, length, IfOk, IfErr, OnOk, OnErr};
ghost use Rattle.rtp_packet.specs.RtpFault.{has_padding, has_extension, csrc_end, header_size, padding_in, is_bad_padding, rtp_fault};
ghost use Rattle.rtp_packet.specs.Checks.{AreEnds};

use crate::RtpFault;
use byteorder::{BigEndian, ByteOrder};

/// Where the parts of a packet end, in bytes from its first one, and how many padding bytes it has.
#[derive(Clone, Copy)]
pub(crate) struct Ends {
    pub(crate) csrc: usize,
    pub(crate) header: usize,
    pub(crate) padding: u8,
}

/// Makes all checks.
#[tactic(auto, unfolding(crate::specs::RtpFault::rtp_fault))]
pub(crate) fn ends_of(bytes: &[u8]) -> Result<Ends, RtpFault>
    ensures ends { IfOk result (λ ends. AreEnds ends bytes.now) }
    ensures none { OnOk result (rtp_fault bytes.now ≡ None) }
    ensures fault { IfErr result (λ fault. rtp_fault bytes.now ≡ Some fault) }
{
    if bytes.len() < 12 {
        return Err(RtpFault::Short);
    }
    if bytes[0] / 64 != 2 {
        return Err(RtpFault::Version);
    }
    let csrc = 12 + 4 * usize::from(bytes[0] % 16);
    if bytes.len() < csrc {
        return Err(RtpFault::Csrc);
    }
    let header = header_end(bytes, csrc)?;
    let padding = padding_of(bytes, header)?;
    Ok(Ends {
        csrc,
        header,
        padding,
    })
}

/// Whether there is a header extension.
pub(crate) fn has_extension(bytes: &[u8]) -> bool
    requires { 1 ≤ length bytes.now }
    ensures { result ≡ has_extension bytes.now }
{
    bytes[0] / 16 % 2 == 1
}

// Bytes up to the end of the extension, which may stand behind so many.
fn header_end(bytes: &[u8], csrc: usize) -> Result<usize, RtpFault>
    requires front { 12 ≤ length bytes.now }
    requires csrc { csrc ≡ csrc_end bytes.now }
    requires within { csrc ≤ length bytes.now }
    ensures is { IfOk result (λ end. end ≡ header_size bytes.now) }
    ensures whole { OnOk result (header_size bytes.now ≤ length bytes.now) }
    ensures cut { OnErr result (length bytes.now < header_size bytes.now) }
    ensures fault { IfErr result (λ fault. fault ≡ RtpFault.Extension) }
{
    if !has_extension(bytes) {
        return Ok(csrc);
    }
    if bytes.len() < csrc + 4 {
        return Err(RtpFault::Extension);
    }
    let end = csrc + 4 + 4 * usize::from(BigEndian::read_u16(&bytes[csrc + 2..]));
    if bytes.len() < end {
        return Err(RtpFault::Extension);
    }
    Ok(end)
}

// How many padding bytes there are, where payload and padding stand behind so many bytes.
fn padding_of(bytes: &[u8], header: usize) -> Result<u8, RtpFault>
    requires front { 12 ≤ length bytes.now }
    requires header { header ≡ header_size bytes.now }
    requires within { header ≤ length bytes.now }
    ensures is { IfOk result (λ padding. padding ≡ padding_in bytes.now) }
    ensures whole { OnOk result (header + padding_in bytes.now ≤ length bytes.now) }
    ensures good { OnOk result ((has_padding bytes.now && is_bad_padding bytes.now) ≡ false) }
    ensures bad { OnErr result ((has_padding bytes.now && is_bad_padding bytes.now) ≡ true) }
    ensures fault { IfErr result (λ fault. fault ≡ RtpFault.Padding) }
{
    if bytes[0] / 32 % 2 == 0 {
        return Ok(0);
    }
    let padding = bytes[bytes.len() - 1];
    if padding == 0 || bytes.len() - header < usize::from(padding) {
        return Err(RtpFault::Padding);
    }
    Ok(padding)
}
