//! Laws on multistream packets: each is the contract of a function that does nothing.
ghost use Rattle.std.specs.Prelude.{◌≡◌, ℕ, ◌≤◌, List, map, length};
ghost use Rattle.std.specs.List.{AllByRecursion};
ghost use Rattle.opus_packet.specs.Value.{PacketValue, IsPacketValue, duration_of};
ghost use Rattle.opus_packet.specs.PacketPrefix.{AreBytes};
ghost use Rattle.opus_packet.specs.Read.{PacketRead};
ghost use Rattle.opus_packet.specs.Held.{HeldRead};
ghost use Rattle.opus_feed.specs.declared.padding.Padding.{Padding};
ghost use Rattle.opus_feed.specs.declared.padding.Padding.TheVariants.{Keep};
ghost use Rattle.opus_multi.specs.declared.fault.MultiFault.{MultiFault};
ghost use Rattle.opus_multi.specs.declared.part.Part.{Part};
ghost use Rattle.opus_multi.specs.Durations.{HaveOneDuration};
ghost use Rattle.opus_multi.specs.Multistream.{IsMultistream};
ghost use Rattle.opus_multi.specs.MultistreamFault.{IsMultistreamFault};
ghost use Rattle.opus_multi.specs.MultistreamPrefix.{IsMultistreamPrefix, BecomesStreams};
ghost use Rattle.opus_multi.specs.Forms.{canonical_multistream, kept_multistream, IsKeptValue, bare};
ghost use Rattle.opus_multi.specs.Joins.{held_durations};
ghost use Rattle.opus_multi.specs.Readings.{AreRead};
ghost use Rattle.opus_multi.specs.StreamParts.{part_as, AreAllParts};

/// The same bytes are never packets of two lists of so many values, and their padding bytes are theirs alone.
pub fn a_list_has_one_list_of_values()
    ensures values { (vs ws : List PacketValue) (qs rs : List (List ℕ)) (bytes : List ℕ) → length vs ≡ length ws
        → IsMultistream vs qs bytes → IsMultistream ws rs bytes → vs ≡ ws }
    ensures padding { (vs ws : List PacketValue) (qs rs : List (List ℕ)) (bytes : List ℕ) → length vs ≡ length ws
        → IsMultistream vs qs bytes → IsMultistream ws rs bytes → qs ≡ rs }
{}

/// Bytes have one fault at most, and a multistream packet has none.
pub fn a_list_has_one_fault_or_none()
    ensures one { (count : ℕ) (bytes : List ℕ) (f g : MultiFault)
        → IsMultistreamFault count bytes f → IsMultistreamFault count bytes g → f ≡ g }
    ensures none { (count : ℕ) (bytes : List ℕ) (f : MultiFault) (vs : List PacketValue) (qs : List (List ℕ))
        → IsMultistreamFault count bytes f → length vs ≡ count → IsMultistream vs qs bytes → ⊥ }
{}

/// The canonical multistream form is a multistream packet of its values without padding, and two lists of so many values
/// have two forms.
pub fn a_canonical_multistream_form_spells_its_values()
    ensures spelled { (vs : List PacketValue) → 1 ≤ length vs → AllByRecursion IsPacketValue vs
        → HaveOneDuration (map duration_of vs)
        → IsMultistream vs (map (λ h. h.tail) (map bare vs)) (canonical_multistream vs) }
    ensures unique { (vs ws : List PacketValue) → AllByRecursion IsPacketValue vs → AllByRecursion IsPacketValue ws
        → length vs ≡ length ws → canonical_multistream vs ≡ canonical_multistream ws → vs ≡ ws }
{}

/// The kept multistream form is a multistream packet of its values and their padding bytes, and two lists of so many of
/// these have two forms.
pub fn a_kept_multistream_form_spells_its_values_and_padding()
    ensures spelled { (hs : List HeldRead) → 1 ≤ length hs → AllByRecursion IsKeptValue hs
        → HaveOneDuration (held_durations hs)
        → IsMultistream (map (λ h. h.value) hs) (map (λ h. h.tail) hs) (kept_multistream hs) }
    ensures unique { (hs gs : List HeldRead) → AllByRecursion IsKeptValue hs → AllByRecursion IsKeptValue gs
        → length hs ≡ length gs → kept_multistream hs ≡ kept_multistream gs → hs ≡ gs }
{}

/// A multistream prefix is exactly what some continuation completes.
pub fn a_prefix_is_what_can_become_streams()
    ensures becomes { (count : ℕ) (bytes : List ℕ)
        → AreBytes bytes → IsMultistreamPrefix count bytes → BecomesStreams count bytes }
    ensures only { (count : ℕ) (bytes : List ℕ)
        → AreBytes bytes → BecomesStreams count bytes → IsMultistreamPrefix count bytes }
{}

/// The parts that a feed gives of a multistream packet have its values, and so they write its canonical form; where no
/// padding bytes were dropped they have these too, and write its kept form.
pub fn the_parts_of_a_packet_are_its_values_and_padding()
    ensures values { (count : ℕ) (padding : Padding) (vs : List PacketValue) (qs : List (List ℕ)) (bytes : List ℕ)
        (parts : List Part) → AreAllParts count padding bytes parts → length vs ≡ count → IsMultistream vs qs bytes
        → map (λ p. p.held.value) parts ≡ vs }
    ensures padding { (count : ℕ) (padding : Padding) (vs : List PacketValue) (qs : List (List ℕ)) (bytes : List ℕ)
        (parts : List Part) → AreAllParts count padding bytes parts → AllByRecursion (λ p. p.dropped ≡ 0) parts
        → length vs ≡ count → IsMultistream vs qs bytes → map (λ p. p.held.tail) parts ≡ qs }
{}

/// A packet that came in pieces gives, with `Keep`, the parts that are copies of what `decode_multi` reads.
pub fn pieces_give_the_parts_that_decode_multi_reads()
    ensures { (count : ℕ) (bytes : List ℕ) (packets : List PacketRead) (parts : List Part)
        → AreRead count bytes packets → AreAllParts count Keep bytes parts → parts ≡ map part_as packets }
{}
