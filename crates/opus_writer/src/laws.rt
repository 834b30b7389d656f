//! Laws of the written forms: each is the contract of a function that does nothing.
ghost use Rattle.std.specs.Prelude.{◌≡◌, ℕ, ◌<◌, ◌≤◌, List, [], map, length};
ghost use Rattle.opus_flen.specs.PaddingLength.{padding_limit};
ghost use Rattle.opus_packet.specs.Value.{PacketValue, IsPacketValue};
ghost use Rattle.opus_packet.specs.Header.{padding_data, padding_length};
ghost use Rattle.opus_packet.specs.PacketGrammar.{IsPacket};
ghost use Rattle.opus_packet.specs.SelfGrammar.{IsSelfDelimited};
ghost use Rattle.opus_packet.specs.Tail.{max_tail};
ghost use Rattle.opus_packet.specs.Canonical.{canonical_shape, canonical, canonical_self_delimited, pad_total, keep_shape, kept_form, kept_self_delimited};
ghost use Rattle.opus_writer.specs.Padded.{padding_for, padded_to, IsZeroPadded};

/// The canonical form of a value is a packet of it without padding, and two values have two forms.
pub fn a_canonical_form_spells_one_value()
    ensures spelled { (v : PacketValue) → IsPacketValue v
        → IsPacket v (canonical_shape (map length v.frames)) [] (canonical v) }
    ensures unique { (v w : PacketValue)
        → IsPacketValue v → IsPacketValue w → canonical v ≡ canonical w → v ≡ w }
{}

/// The canonical self-delimited form of a value is a self-delimited packet of it without padding, and two
/// values have two forms.
pub fn a_canonical_self_delimited_form_spells_one_value()
    ensures spelled { (v : PacketValue) → IsPacketValue v
        → IsSelfDelimited v (canonical_shape (map length v.frames)) [] (canonical_self_delimited v) }
    ensures unique { (v w : PacketValue) → IsPacketValue v → IsPacketValue w
        → canonical_self_delimited v ≡ canonical_self_delimited w → v ≡ w }
{}

/// The kept form of a value and its padding bytes is a packet of both, and two such pairs have two forms. Without padding
/// bytes it is the canonical form.
pub fn a_kept_form_spells_its_value_and_padding()
    ensures spelled { (v : PacketValue) (tail : List ℕ) → IsPacketValue v → length tail ≤ max_tail
        → IsPacket v (keep_shape (map length v.frames) (length tail)) tail (kept_form v tail) }
    ensures unique { (v w : PacketValue) (tail rest : List ℕ) → IsPacketValue v → IsPacketValue w
        → length tail ≤ max_tail → length rest ≤ max_tail
        → kept_form v tail ≡ kept_form w rest → (v ≡ w) × (tail ≡ rest) }
    ensures plain { (v : PacketValue) → kept_form v [] ≡ canonical v }
{}

/// The kept self-delimited form of a value and its padding bytes is a self-delimited packet of both, and two such pairs
/// have two forms. Without padding bytes it is the canonical self-delimited form.
pub fn a_kept_self_delimited_form_spells_its_value_and_padding()
    ensures spelled { (v : PacketValue) (tail : List ℕ) → IsPacketValue v → length tail ≤ max_tail
        → IsSelfDelimited v (keep_shape (map length v.frames) (length tail)) tail
        (kept_self_delimited v tail) }
    ensures unique { (v w : PacketValue) (tail rest : List ℕ) → IsPacketValue v → IsPacketValue w
        → length tail ≤ max_tail → length rest ≤ max_tail
        → kept_self_delimited v tail ≡ kept_self_delimited w rest → (v ≡ w) × (tail ≡ rest) }
    ensures plain { (v : PacketValue)
        → kept_self_delimited v [] ≡ canonical_self_delimited v }
{}

/// The padding length of a kept form has the fewest bytes: no other padding total with so many padding bytes is smaller
/// or has a shorter length.
pub fn a_kept_padding_length_has_the_fewest_bytes()
    ensures data { (n : ℕ) → 1 ≤ n → padding_data (pad_total n) ≡ n }
    ensures least { (n total : ℕ) → 1 ≤ n → padding_data total ≡ n → pad_total n ≤ total }
    ensures fewest { (n total : ℕ) → 1 ≤ n → padding_data total ≡ n
        → length (padding_length (pad_total n)) ≤ length (padding_length total) }
{}

/// The padded form has the size that was asked for, from that of the canonical form to the one whose padding has
/// 2^24 - 1 bytes, and is a packet of its value with zeros for padding bytes.
pub fn a_padded_form_has_its_size()
    ensures size { (v : PacketValue) (size : ℕ)
        → length (canonical v) ≤ size → length (padded_to v size) ≡ size }
    ensures spelled { (v : PacketValue) (size : ℕ) → IsPacketValue v
        → padding_for v size < padding_limit → IsZeroPadded v (padded_to v size) }
{}
