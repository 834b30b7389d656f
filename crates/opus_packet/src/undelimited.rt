//! Reading one undelimited packet (RFC 6716, section 3).
ghost use Rattle.std.specs.Prelude.{◌≡◌, ◌≤◌, length, IfOk, IfErr};
ghost use Rattle.std.specs.Result.{IsOkAnd};
ghost use Rattle.opus_packet.specs.declared.shape.Shape.{Shape};
ghost use Rattle.opus_packet.specs.Value.{PacketValue};
ghost use Rattle.opus_packet.specs.PacketGrammar.{max_packet, Spells};
ghost use Rattle.opus_packet.specs.PacketFault.{packet_fault};
ghost use Rattle.opus_packet.specs.HasTail.{HasTail};

use crate::fault::Fault;
use crate::packet::Packet;
use crate::places::locate;

/// Reads the whole of `bytes` as one undelimited packet. A fault has the broken rule, R1 to R7 or `PadLimit`,
/// and the length of the longest front that some packet begins with; it is never `Cut`. Padding bytes are kept up
/// to 65,535 of them. It takes no memory and copies nothing; inlined, the packet never leaves the registers.
#[inline(always)]
pub fn decode(bytes: &[u8]) -> Result<Packet<'_>, Fault>
    // What is read is spelled so, each byte of it; and what is spelled so is read.
    ensures found { IfOk result (λ p. Spells p.value p.shape bytes.now) }
    ensures size { IfOk result (λ p. p.size ≡ length bytes.now) }
    ensures most { IfOk result (λ p. p.size ≤ max_packet) }
    ensures only { (v : PacketValue) (s : Shape) → Spells v s bytes.now
        → IsOkAnd result (λ p. (p.value ≡ v) × (p.shape ≡ s)) }
    ensures tail { IfOk result (λ p. HasTail p bytes.now) }
    ensures fault { IfErr result (λ f. f ≡ packet_fault bytes.now) }
{
    match locate(bytes) {
        Ok(places) => Ok(places.over(bytes)),
        Err(fault) => Err(fault),
    }
}
