//! Laws on joining and parting: each is the contract of a function that does nothing.
ghost use Rattle.std.specs.Prelude.{◌≡◌, ℕ, ◌+◌, ◌<◌, ◌≤◌, ◌↔◌, List, ◌++◌, length, sum, flat_map, Option, Some};
ghost use Rattle.opus_packet.specs.Value.{PacketValue, IsPacketValue, duration_of, max_duration};
ghost use Rattle.opus_repack.specs.Joined.{IsSameKind, joined};
ghost use Rattle.opus_repack.specs.Parts.{slice_of, parts_from};
ghost use Rattle.opus_repack.specs.Collected.{frames_in, with_frames};

/// Values of one kind can be one packet exactly where they last at most 120 ms together, which is the joined value's
/// duration.
pub fn joined_values_last_as_long_as_both()
    ensures duration { (v w : PacketValue)
        → IsSameKind v w → duration_of (joined v w) ≡ duration_of v + duration_of w }
    ensures exactly { (v w : PacketValue) → IsPacketValue v → IsPacketValue w → IsSameKind v w
        → IsPacketValue (joined v w) ↔ (duration_of v + duration_of w ≤ max_duration) }
{}

/// Each part of a packet's frames that isn't empty can be a packet.
pub fn a_part_is_a_packet()
    ensures value { (v : PacketValue) (from to : ℕ) → IsPacketValue v
        → from < to → to ≤ length v.frames → IsPacketValue (slice_of v from to) }
{}

/// What was joined comes apart again at the border.
pub fn joined_values_come_apart()
    ensures front { (v w : PacketValue) → slice_of (joined v w) 0 (length v.frames) ≡ v }
    ensures back { (v w : PacketValue) → IsSameKind v w
        → slice_of (joined v w) (length v.frames) (length v.frames + length w.frames) ≡ w }
{}

/// Parts that follow each other make the longer part, and all of them the value.
pub fn parts_join_again()
    ensures longer { (v : PacketValue) (from mid to : ℕ) → from ≤ mid → mid ≤ to
        → joined (slice_of v from mid) (slice_of v mid to) ≡ slice_of v from to }
    ensures whole { (v : PacketValue) → slice_of v 0 (length v.frames) ≡ v }
{}

/// Joining and parting keep all frames, in their order.
pub fn all_frames_are_kept()
    ensures joined { (held : Option PacketValue) (w : PacketValue)
        → frames_in (Some (with_frames held w)) ≡ frames_in held ++ w.frames }
    ensures parts { (v : PacketValue) (counts : List ℕ) → sum counts ≡ length v.frames
        → flat_map (λ p. p.frames) (parts_from v 0 counts) ≡ v.frames }
{}
