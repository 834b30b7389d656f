//! Laws on the jobs that this crate does by itself: each is the contract of a function that does nothing.
ghost use Rattle.std.specs.Prelude.{◌≡◌, ℕ, List, [], Option, Some, None};
ghost use Rattle.job_loop.specs.Shown.{Shown};
ghost use Rattle.job_loop.specs.Meaning.{going, broke, outcome, end_of};
ghost use Rattle.job_loop.specs.declared.input_end.InputEnd.TheVariants.{Past};
ghost use Rattle.opus_head.specs.HeadValue.{HeadValue};
ghost use Rattle.opus_head.specs.HeadBytes.{IsOpusHead};
ghost use Rattle.opus_head.specs.HeadFault.{head_fault};
ghost use Rattle.opus_head.specs.declared.fault.HeadFault.{HeadFault};
ghost use Rattle.opus_packet.specs.declared.shape.Shape.{Shape};
ghost use Rattle.opus_packet.specs.Value.{PacketValue};
ghost use Rattle.opus_packet.specs.PacketGrammar.{Spells};
ghost use Rattle.opuspack.specs.Made.{made_bytes};
ghost use Rattle.opuspack.specs.MadePackets.{made_packet};
ghost use Rattle.opuspack.specs.declared.never.Never.{Never};
ghost use Rattle.opuspack.specs.declared.whole.WholeInput.{WholeInput};
ghost use Rattle.opuspack.specs.Whole.{WholeSettles, WholeEnds};
ghost use Rattle.opuspack.specs.HeadLines.{head_lines};
ghost use Rattle.opuspack.specs.Head.{head, head_refusal};

/// Head tells of all bytes of its input, however few of them it keeps: it writes the lines of the OpusHead that they are,
/// or names the first check that they fail and where. Past the limit it says nothing.
pub fn head_tells_of_the_whole_input()
    ensures told { (h : HeadValue) (x : List ℕ) (rs : List (Shown WholeInput)) (cut : Option Never)
        → WholeEnds x rs cut → IsOpusHead h x → outcome head rs (end_of cut) ≡ going (head_lines h) tt }
    ensures refused { (f : HeadFault) (x : List ℕ) (rs : List (Shown WholeInput)) (cut : Option Never)
        → WholeEnds x rs cut → head_fault x ≡ Some f
        → outcome head rs (end_of cut) ≡ broke [] (head_refusal x f) }
    ensures past { (front : List ℕ) (rs : List (Shown WholeInput)) → WholeSettles front rs
        → outcome head rs Past ≡ going [] tt }
{}

/// The bytes of a made record are an undelimited packet with its value (RFC 6716, 3.2), or none where it is lost. So a
/// made store has no fault.
pub fn made_records_are_packets()
    ensures packet { (seed number : ℕ) (v : PacketValue) → made_packet seed number ≡ Some v
        → (shape : Shape) × Spells v shape (made_bytes seed number) }
    ensures lost { (seed number : ℕ) → made_packet seed number ≡ None → made_bytes seed number ≡ [] }
{}
