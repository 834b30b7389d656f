//! The packet of a record, over the bytes that are lent of it.
ghost use Rattle.std.specs.Prelude.{◌≡◌, ℕ, List, IfSome};
ghost use Rattle.std.specs.Option.{option_map};
ghost use Rattle.pack_records.specs.Holds.{Reads};
ghost use Rattle.pack_records.specs.Lent.{lent_value};

use opus_feed::Framing;
use opus_packet::{Packet, decode};
use opus_self::decode_self;

/// The packet that all of the bytes spell in this framing (RFC 6716, 3.2 and Appendix B), which is that of a record
/// whose bytes they are. It borrows from them, and copies nothing.
#[inline(always)]
pub fn lent_packet(framing: Framing, bytes: &[u8]) -> Option<Packet<'_>>
    ensures value { option_map (λ p. p.value) result ≡ lent_value framing bytes.now }
    ensures reads { IfSome result (λ p. (tail : List ℕ) × Reads framing p.value p.shape tail bytes.now) }
{
    match framing {
        Framing::Whole => decode(bytes).ok(),
        Framing::SelfDelimited => match decode_self(bytes) {
            Ok(read) if read.used == bytes.len() => Some(read.packet),
            _ => None,
        },
    }
}
