//! Laws on self-delimited packets: each is the contract of a function that does nothing.
ghost use Rattle.std.specs.Prelude.{◌≡◌, ℕ, ◌↔◌, List, [], ◌++◌, length};
ghost use Rattle.opus_packet.specs.declared.shape.Shape.{Shape};
ghost use Rattle.opus_packet.specs.Value.{PacketValue};
ghost use Rattle.opus_packet.specs.PacketPrefix.{AreBytes};
ghost use Rattle.opus_packet.specs.declared.fault.Rule.TheVariants.{R5};
ghost use Rattle.opus_packet.specs.Refusals.{HasBadCount};
ghost use Rattle.opus_packet.specs.SelfGrammar.{IsSelfDelimited, IsSomeSelfDelimited, BeginsWithSelf};
ghost use Rattle.opus_packet.specs.SelfPrefix.{IsSelfDelimitedPrefix, self_delimited_fault};
ghost use Rattle.opus_self.specs.BecomesSelf.{BecomesSelf, BeginsWithNone};
ghost use Rattle.opus_self.specs.LongestSelfPrefix.{IsLongestSelfPrefix};
ghost use Rattle.opus_self.specs.LongestSelfFront.{IsLongestSelfFront};

/// The same bytes never spell two packets: value, shape and padding bytes are theirs alone.
pub fn a_list_has_one_reading()
    ensures value { (v w : PacketValue) (s u : Shape) (tail rest bytes : List ℕ)
        → IsSelfDelimited v s tail bytes → IsSelfDelimited w u rest bytes → v ≡ w }
    ensures shape { (v w : PacketValue) (s u : Shape) (tail rest bytes : List ℕ)
        → IsSelfDelimited v s tail bytes → IsSelfDelimited w u rest bytes → s ≡ u }
    ensures padding { (v w : PacketValue) (s u : Shape) (tail rest bytes : List ℕ)
        → IsSelfDelimited v s tail bytes → IsSelfDelimited w u rest bytes → tail ≡ rest }
{}

/// Some bytes complete every self-delimited prefix.
pub fn a_prefix_can_become_a_packet()
    ensures becomes { (bytes : List ℕ)
        → AreBytes bytes → IsSelfDelimitedPrefix bytes → BecomesSelf bytes }
{}

/// The front of a packet is a self-delimited prefix, and nothing else becomes a packet.
pub fn what_becomes_a_packet_is_a_prefix()
    ensures front { (bytes : List ℕ)
        → AreBytes bytes → BecomesSelf bytes → IsSelfDelimitedPrefix bytes }
{}

/// Where no packet stands first, the place of the fault is the length of the longest front that can become one.
pub fn a_fault_stands_at_the_longest_prefix()
    ensures place { (bytes : List ℕ) → AreBytes bytes → BeginsWithNone bytes
        → IsLongestSelfPrefix bytes (self_delimited_fault bytes).place }
    ensures all { (bytes : List ℕ) → IsSelfDelimitedPrefix bytes
        → (self_delimited_fault bytes).place ≡ length bytes }
{}

/// Where no packet stands first, the place of the fault is the length of the longest front that becomes one with some
/// bytes behind it.
pub fn a_fault_stands_at_the_longest_front()
    ensures place { (bytes : List ℕ) → AreBytes bytes → BeginsWithNone bytes
        → IsLongestSelfFront bytes (self_delimited_fault bytes).place }
    ensures all { (bytes : List ℕ) → AreBytes bytes → BecomesSelf bytes
        → (self_delimited_fault bytes).place ≡ length bytes }
{}

/// R5 is named exactly for a count of no frames or of more than last 120 ms.
pub fn a_rule_is_named_for_its_own_fault()
    ensures count { (bytes : List ℕ) → ((self_delimited_fault bytes).rule ≡ R5) ↔ HasBadCount bytes }
{}

/// No packet is a proper front of another: the bytes say where it ends.
pub fn a_packet_is_no_front_of_another()
    ensures ends { (bytes more : List ℕ)
        → IsSomeSelfDelimited bytes → IsSomeSelfDelimited (bytes ++ more) → more ≡ [] }
    ensures one { (v w : PacketValue) (s u : Shape) (m n : ℕ) (bytes : List ℕ)
        → BeginsWithSelf v s m bytes → BeginsWithSelf w u n bytes → m ≡ n }
{}
