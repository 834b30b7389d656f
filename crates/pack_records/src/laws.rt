//! Laws on the records of packets: each is the contract of a function that does nothing.
ghost use Rattle.std.specs.Prelude.{◌≡◌, ◌≤◌, ◌↔◌, ℕ, List, length, Option, Some, None};
ghost use Rattle.job_loop.specs.Shown.{Shown};
ghost use Rattle.job_loop.specs.FirstFault.{InOrder};
ghost use Rattle.opus_packet.specs.declared.shape.Shape.{Shape};
ghost use Rattle.opus_packet.specs.PacketPrefix.{AreBytes};
ghost use Rattle.opus_packet.specs.Tail.{max_tail};
ghost use Rattle.opus_packet.specs.Value.{PacketValue, IsPacketValue};
ghost use Rattle.opus_feed.specs.declared.framing.Framing.{Framing};
ghost use Rattle.opus_feed.specs.declared.padding.Padding.{Padding};
ghost use Rattle.pack_records.specs.declared.cut.Cut.{Cut};
ghost use Rattle.pack_records.specs.declared.item.Item.{Item};
ghost use Rattle.pack_records.specs.Demo.{DemoSettles, DemoEnds};
ghost use Rattle.pack_records.specs.Fits.{form_of};
ghost use Rattle.pack_records.specs.Framed.{SelfEnds};
ghost use Rattle.pack_records.specs.Holds.{Reads, HoldsPacket};
ghost use Rattle.pack_records.specs.Lent.{lent_value};
ghost use Rattle.pack_records.specs.Raw.{RawEnds};

/// The bytes lent with a record spell the value of its packet, and bytes spell a value exactly where some shape and some
/// padding bytes make them of it.
pub fn lent_bytes_spell_the_packets_value()
    ensures record { (padding : Padding) (framing : Framing) (start range : ℕ) (bytes : List ℕ) (r : Shown Item)
        (holds : HoldsPacket padding framing start range bytes r)
        → lent_value framing r.bytes ≡ Some holds.value }
    ensures form { (framing : Framing) (v : PacketValue) (tail : List ℕ) → IsPacketValue v → length tail ≤ max_tail
        → lent_value framing (form_of framing v tail) ≡ Some v }
    ensures exactly { (framing : Framing) (v : PacketValue) (bytes : List ℕ) → AreBytes bytes
        → (lent_value framing bytes ≡ Some v)
        ↔ ((s : Shape) × (tail : List ℕ) × Reads framing v s tail bytes) }
{}

/// The records of an input come in the order of the places at which they are decided, as `job_loop` asks of them where it
/// says that the first bad record has the first fault.
pub fn records_come_in_the_order_they_are_decided_in()
    ensures raw { (padding : Padding) (h : List ℕ) (rs : List (Shown Item)) (cut : Option Cut)
        → RawEnds padding h rs cut → InOrder (λ r. r.item.place) 0 rs }
    ensures demo { (padding : Padding) (h : List ℕ) (rs : List (Shown Item))
        → DemoSettles padding h rs → InOrder (λ r. r.item.place) 0 rs }
    ensures self_delimited { (padding : Padding) (h : List ℕ) (rs : List (Shown Item)) (cut : Option Cut)
        → SelfEnds padding h rs cut → InOrder (λ r. r.item.place) 0 rs }
{}

/// Whatever its bytes are, an input falls into records, or is empty. A store is cut, or isn't; the others never are.
pub fn each_input_has_records()
    ensures raw { (padding : Padding) (x : List ℕ) → AreBytes x → (rs : List (Shown Item)) × RawEnds padding x rs None }
    ensures demo { (padding : Padding) (x : List ℕ) → AreBytes x → (rs : List (Shown Item)) × (cut : Option Cut)
        × DemoEnds padding x rs cut }
    ensures self_delimited { (padding : Padding) (x : List ℕ) → AreBytes x → (rs : List (Shown Item))
        × SelfEnds padding x rs None }
{}
