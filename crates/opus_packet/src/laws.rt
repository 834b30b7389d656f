//! Laws on packets: each is the contract of a function that does nothing.
ghost use Rattle.std.specs.Prelude.{◌≡◌, ℕ, ◌↔◌, List, [], ◌++◌, map, length};
ghost use Rattle.opus_packet.specs.declared.shape.Shape.{Shape};
ghost use Rattle.opus_packet.specs.Value.{PacketValue, IsPacketValue};
ghost use Rattle.opus_packet.specs.PacketGrammar.{IsPacket, IsSomePacket};
ghost use Rattle.opus_packet.specs.PacketPrefix.{AreBytes, IsPacketPrefix, BecomesPacket};
ghost use Rattle.opus_packet.specs.declared.fault.Rule.TheVariants.{R2, R5};
ghost use Rattle.opus_packet.specs.Header.{Header};
ghost use Rattle.opus_packet.specs.HeaderRead.{whole, header_read};
ghost use Rattle.opus_packet.specs.LongestPrefix.{IsLongestPrefix};
ghost use Rattle.opus_packet.specs.LongestFront.{IsLongestFront};
ghost use Rattle.opus_packet.specs.PacketHeader.{BeginsWithPacketHeader};
ghost use Rattle.opus_packet.specs.Refusals.{HasBadCount, IsPastLongest};
ghost use Rattle.opus_packet.specs.PacketFault.{packet_fault};
ghost use Rattle.opus_packet.specs.Canonical.{canonical_shape, canonical};

/// The same bytes never spell two packets: value, shape and padding bytes are theirs alone.
pub fn a_list_has_one_reading()
    ensures value { (v w : PacketValue) (s u : Shape) (tail rest bytes : List ℕ)
        → IsPacket v s tail bytes → IsPacket w u rest bytes → v ≡ w }
    ensures shape { (v w : PacketValue) (s u : Shape) (tail rest bytes : List ℕ)
        → IsPacket v s tail bytes → IsPacket w u rest bytes → s ≡ u }
    ensures padding { (v w : PacketValue) (s u : Shape) (tail rest bytes : List ℕ)
        → IsPacket v s tail bytes → IsPacket w u rest bytes → tail ≡ rest }
{}

/// A whole header is read exactly where the bytes begin with its one spelling, and some packet has this header.
pub fn a_header_is_read_where_it_stands()
    ensures exactly { (bytes : List ℕ) (h : Header) → AreBytes bytes
        → (header_read bytes ≡ whole h) ↔ BeginsWithPacketHeader bytes h }
{}

/// Every packet prefix has bytes that make a packet of it.
pub fn a_prefix_can_become_a_packet()
    ensures becomes { (bytes : List ℕ)
        → AreBytes bytes → IsPacketPrefix bytes → BecomesPacket bytes }
{}

/// Every front of a packet is a packet prefix: no other bytes become a packet.
pub fn what_becomes_a_packet_is_a_prefix()
    ensures front { (bytes more : List ℕ)
        → AreBytes (bytes ++ more) → IsSomePacket (bytes ++ more) → IsPacketPrefix bytes }
{}

/// The place of a fault is the length in bytes of the longest front that can become a packet.
pub fn a_fault_stands_at_the_longest_prefix()
    ensures place { (bytes : List ℕ)
        → AreBytes bytes → IsLongestPrefix bytes (packet_fault bytes).place }
    ensures all { (bytes : List ℕ)
        → AreBytes bytes → IsPacketPrefix bytes → (packet_fault bytes).place ≡ length bytes }
{}

/// The place of a fault is the length in bytes of the longest front that becomes a packet with some bytes behind it.
pub fn a_fault_stands_at_the_longest_front()
    ensures place { (bytes : List ℕ)
        → AreBytes bytes → IsLongestFront bytes (packet_fault bytes).place }
    ensures all { (bytes : List ℕ)
        → AreBytes bytes → BecomesPacket bytes → (packet_fault bytes).place ≡ length bytes }
{}

/// R5 is named exactly for a count of no frames or of more than last 120 ms, and R2 exactly where the bytes are longer
/// than every packet with their header.
pub fn a_rule_is_named_for_its_own_fault()
    ensures count { (bytes : List ℕ) → ((packet_fault bytes).rule ≡ R5) ↔ HasBadCount bytes }
    ensures long { (bytes : List ℕ) → AreBytes bytes
        → ((packet_fault bytes).rule ≡ R2) ↔ IsPastLongest bytes }
{}

/// The canonical form of a value is a packet without padding, and two values have two forms.
pub fn a_canonical_form_spells_one_value()
    ensures spelled { (v : PacketValue) → IsPacketValue v
        → IsPacket v (canonical_shape (map length v.frames)) [] (canonical v) }
    ensures unique { (v w : PacketValue)
        → IsPacketValue v → IsPacketValue w → canonical v ≡ canonical w → v ≡ w }
{}
