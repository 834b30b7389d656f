//! Laws on the records of multistream packets: each is the contract of a function that does nothing.
ghost use Rattle.std.specs.Prelude.{◌≡◌, ◌≤◌, ℕ, List, length, map, Option, None};
ghost use Rattle.job_loop.specs.Shown.{Shown};
ghost use Rattle.job_loop.specs.FirstFault.{InOrder};
ghost use Rattle.opus_packet.specs.PacketPrefix.{AreBytes};
ghost use Rattle.opus_packet.specs.Tail.{kept_bytes};
ghost use Rattle.opus_feed.specs.Tails.{tail_kept};
ghost use Rattle.opus_multi.specs.Multistream.{IsMultistream};
ghost use Rattle.pack_records.specs.declared.cut.Cut.{Cut};
ghost use Rattle.stream_records.specs.declared.item.StreamsItem.{StreamsItem};
ghost use Rattle.stream_records.specs.Demo.{DemoSettles, DemoEnds};
ghost use Rattle.stream_records.specs.Holds.{Choices, HoldsStreams};
ghost use Rattle.stream_records.specs.Raw.{RawEnds};

/// The bytes lent of a record that holds packets are a multistream packet of the same values, with the padding bytes that
/// are kept; and so many streams are told of as there are.
pub fn lent_bytes_spell_the_values_of_all_streams()
    ensures values { (c : Choices) (start range : ℕ) (bytes : List ℕ) (r : Shown StreamsItem)
        (holds : HoldsStreams c start range bytes r)
        → IsMultistream (map (λ s. s.value) holds.streams)
        (map (λ s. kept_bytes (tail_kept c.padding s.tail)) holds.streams) r.bytes }
    ensures count { (c : Choices) (start range : ℕ) (bytes : List ℕ) (r : Shown StreamsItem)
        → HoldsStreams c start range bytes r → length r.item.streams.items ≡ c.streams }
{}

/// The records of an input come in the order of the places at which they are decided, as `job_loop` asks of them where it
/// says that the first bad record has the first fault.
pub fn records_come_in_the_order_they_are_decided_in()
    ensures raw { (c : Choices) (h : List ℕ) (rs : List (Shown StreamsItem)) (cut : Option Cut)
        → RawEnds c h rs cut → InOrder (λ r. r.item.place) 0 rs }
    ensures demo { (c : Choices) (h : List ℕ) (rs : List (Shown StreamsItem))
        → DemoSettles c h rs → InOrder (λ r. r.item.place) 0 rs }
{}

/// Whatever its bytes are, an input falls into records, or is empty, where a packet has one stream at least. A store is
/// cut, or isn't; one packet never is.
pub fn each_input_has_records()
    ensures raw { (c : Choices) (x : List ℕ) → 1 ≤ c.streams → AreBytes x
        → (rs : List (Shown StreamsItem)) × RawEnds c x rs None }
    ensures demo { (c : Choices) (x : List ℕ) → 1 ≤ c.streams → AreBytes x
        → (rs : List (Shown StreamsItem)) × (cut : Option Cut) × DemoEnds c x rs cut }
{}
