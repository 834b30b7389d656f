//! Reading a packet.
ghost use Rattle.std.specs.Prelude.{◌≡◌, ◌↔◌, Some, Err, IfOk};
ghost use Rattle.std.specs.Result.{IsOkAnd};
ghost use Rattle.rtp_packet.specs.RtpValue.{RtpValue};
ghost use Rattle.rtp_packet.specs.RtpBytes.{IsRtp};
ghost use Rattle.rtp_packet.specs.RtpFault.{rtp_fault};
ghost use Rattle.rtp_packet.specs.RtpRead.{rtp_value, extension_value};
ghost use Rattle.rtp_packet.specs.Checks.{AreEnds, extension_in, rtp_in};
ghost use Rattle.rtp_packet.specs.declared.fault.RtpFault as declared;

use crate::checks::{Ends, ends_of, has_extension};
use crate::{Rtp, RtpFault};
use byteorder::{BigEndian, ByteOrder};

/// Reads an RTP packet, which is all of `bytes` (RFC 3550, 5.1 and 5.3.1). A fault is the first check that fails. It takes
/// no memory and copies nothing.
pub fn read_rtp(bytes: &[u8]) -> Result<Rtp<'_>, RtpFault>
    // The bytes are a packet that says what is read; and what they say is read.
    ensures found { IfOk result (λ r. IsRtp (rtp_value r) bytes.now) }
    ensures only { (p : RtpValue) → IsRtp p bytes.now → IsOkAnd result (λ r. rtp_value r ≡ p) }
    ensures fault { (f : declared.RtpFault) → (result ≡ Err f) ↔ (rtp_fault bytes.now ≡ Some f) }
{
    let ends = ends_of(bytes)?;
    Ok(packet_of(bytes, ends))
}

// The packet whose parts end there.
fn packet_of(bytes: &[u8], ends: Ends) -> Rtp<'_>
    requires { AreEnds ends bytes.now }
    ensures { rtp_value result ≡ rtp_in bytes.now }
{
    Rtp {
        marker: bytes[1] / 128 == 1,
        payload_type: bytes[1] % 128,
        seq: BigEndian::read_u16(&bytes[2..]),
        stamp: BigEndian::read_u32(&bytes[4..]),
        ssrc: BigEndian::read_u32(&bytes[8..]),
        csrc: &bytes[12..ends.csrc],
        extension: extension_of(bytes, ends),
        payload: &bytes[ends.header..bytes.len() - usize::from(ends.padding)],
        padding: ends.padding,
    }
}

// The header extension, if there is one.
fn extension_of(bytes: &[u8], ends: Ends) -> Option<(u16, &[u8])>
    requires { AreEnds ends bytes.now }
    ensures { extension_value result ≡ extension_in bytes.now }
{
    if !has_extension(bytes) {
        return None;
    }
    let profile = BigEndian::read_u16(&bytes[ends.csrc..]);
    Some((profile, &bytes[ends.csrc + 4..ends.header]))
}
