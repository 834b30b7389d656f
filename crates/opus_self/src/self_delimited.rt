//! Reading one self-delimited packet (RFC 6716, Appendix B).
ghost use Rattle.std.specs.Prelude.{◌≡◌, ℕ, ◌≤◌, length, take, IfOk, IfErr};
ghost use Rattle.std.specs.Result.{IsOkAnd};
ghost use Rattle.opus_packet.specs.declared.shape.Shape.{Shape};
ghost use Rattle.opus_packet.specs.Value.{PacketValue};
ghost use Rattle.opus_packet.specs.SelfGrammar.{BeginsWithSelf};
ghost use Rattle.opus_packet.specs.SelfPrefix.{self_delimited_fault};
ghost use Rattle.opus_self.specs.SelfFits.{max_self_packet};
ghost use Rattle.opus_self.specs.HasSelfTail.{HasSelfTail};

use crate::places::locate_self;
use opus_packet::{Fault, Packet};

/// A packet that the bytes begin with, and where it ends.
#[derive(Drop)]
pub struct SelfRead<'a> {
    /// The packet. Its frames borrow from the bytes that were read.
    pub packet: Packet<'a>,
    /// Bytes of the packet: what follows begins there.
    pub used: usize,
}

/// Reads one self-delimited packet from the front of `bytes`, and looks at nothing behind it. A fault has the
/// broken rule, R5, `PadLimit` or `Cut`, and the length of the longest front that some packet begins with. Padding
/// bytes are kept up to 65,535 of them. It takes no memory and copies nothing.
#[inline(always)]
pub fn decode_self(bytes: &[u8]) -> Result<SelfRead<'_>, Fault>
    // The bytes begin with what is read; and what they begin with is read.
    ensures found { IfOk result
        (λ r. BeginsWithSelf r.packet.value r.packet.shape r.used bytes.now) }
    ensures size { IfOk result (λ r. r.packet.size ≡ r.used) }
    ensures most { IfOk result (λ r. r.used ≤ max_self_packet) }
    ensures only { (v : PacketValue) (s : Shape) (used : ℕ) → BeginsWithSelf v s used bytes.now
        → IsOkAnd result (λ r. (r.packet.value ≡ v) × (r.packet.shape ≡ s) × (r.used ≡ used)) }
    ensures tail { IfOk result (λ r. HasSelfTail r.packet (take r.used bytes.now)) }
    ensures fault { IfErr result (λ f. f ≡ self_delimited_fault bytes.now) }
{
    match locate_self(bytes) {
        Ok(places) => {
            let used = places.size();
            let packet = places.over(&bytes[..used]);
            Ok(SelfRead { packet, used })
        }
        Err(fault) => Err(fault),
    }
}
