//! A law on streams: the contract of a function that does nothing.
ghost use Rattle.std.specs.Prelude.{◌≡◌, ℕ, List};
ghost use Rattle.opus_packet.specs.Value.{PacketValue};
ghost use Rattle.opus_self.specs.BecomesSelf.{BeginsWithNone};
ghost use Rattle.example_recorder.specs.Stream.{IsStream};

use opus_self::laws::{a_list_has_one_reading, a_packet_is_no_front_of_another};

/// The same bytes spell one list of packets, where no packet stands first in the rest: what is recorded doesn't depend on
/// the pieces in which the bytes came.
pub fn a_stream_has_one_list_of_packets()
    ensures { (vs ws : List PacketValue) (rest others bytes : List ℕ) → IsStream vs rest bytes
        → IsStream ws others bytes → BeginsWithNone rest → BeginsWithNone others → vs ≡ ws }
{
    a_list_has_one_reading();
    a_packet_is_no_front_of_another();
}
