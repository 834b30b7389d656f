//! Laws of what is sent and of what arrives: each is the contract of a function that does nothing.
ghost use Rattle.std.specs.Prelude.{◌≡◌, ℕ, ◌+◌, ◌%◌, ◌<◌, ◌≤◌, ℤ, pos, ◌+ℤ◌, List, [], ◌++◌, ◌∷◌, map, Option};
ghost use Rattle.std.specs.List.{concat};
ghost use Rattle.opus_packet.specs.Value.{PacketValue};
ghost use Rattle.rtp_packet.specs.declared.packet.RtpFields.{RtpFields};
ghost use Rattle.rtp_ends.specs.Sent.{packets_of, packets_sent};
ghost use Rattle.rtp_ends.specs.SentLaws.{AreAppended};
ghost use Rattle.rtp_ends.specs.declared.event.Event.{Event};
ghost use Rattle.rtp_ends.specs.Numbers.{Heard, Placed, IsPlaceAfter, place_after, placed, greatest_of, extended_numbers};
ghost use Rattle.rtp_ends.specs.Order.{ordered, Ascend};
ghost use Rattle.rtp_ends.specs.Report.{arrival_report, certain_events};
ghost use Rattle.rtp_ends.specs.ReportLaws.{StaysNear, first_at, IsCertainFront};

/// One record more adds its packet behind those of the records before it. So what all calls of a sender appended, one after
/// the other, is the packets sent, joined.
pub fn what_was_appended_is_the_packets_sent()
    ensures more { (first : RtpFields) (records : List (Option PacketValue)) (r : Option PacketValue)
        → packets_sent first (records ++ r ∷ []) ≡ packets_sent first records ++ packets_of first records r }
    ensures joined { (first : RtpFields) (records : List (Option PacketValue)) (texts : List (List ℕ))
        → AreAppended first [] records texts → concat texts ≡ concat (packets_sent first records) }
{}

/// A sequence number means the one place that the rule allows.
pub fn a_sequence_number_means_one_place()
    ensures is { (greatest seq : ℕ) → 65536 ≤ greatest → seq < 65536
        → IsPlaceAfter greatest seq (place_after greatest seq) }
    ensures only { (greatest seq p q : ℕ)
        → IsPlaceAfter greatest seq p → IsPlaceAfter greatest seq q → p ≡ q }
{}

/// Where packets were numbered from `start` on, and each arrives less than 32,768 from the greatest before it, each number
/// is found again, plus one constant.
pub fn near_numbers_are_found_again()
    ensures each { (start k : ℕ) (ks : List ℕ) (heard : List Heard)
        → map (λ h. h.seq) heard ≡ map (λ n. (start + n) % 65536) (k ∷ ks) → StaysNear k ks
        → (constant : ℤ) × (extended_numbers heard ≡ map (λ n. pos n +ℤ constant) (k ∷ ks)) }
{}

/// Arrivals in order ascend, and each place has its first arrival.
pub fn the_first_arrival_of_each_number_is_in_order()
    ensures ascends { (arrivals : List Placed) → Ascend (ordered arrivals) }
    ensures first { (arrivals : List Placed) (place : ℕ)
        → first_at place (ordered arrivals) ≡ first_at place arrivals }
{}

/// The certain events are those of the report up to its last packet that is at least 32,768 below the greatest one. They
/// begin the report of any longer list of arrivals.
pub fn what_is_certain_stays()
    ensures front { (heard more : List Heard)
        → (rest : List Event) × (arrival_report (heard ++ more) ≡ certain_events heard ++ rest) }
    ensures settled { (heard : List Heard) → IsCertainFront (greatest_of (placed heard))
        (ordered (placed heard)) (certain_events heard) }
{}
