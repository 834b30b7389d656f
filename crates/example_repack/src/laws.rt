//! A law on many packets: the contract of a function that does nothing.
ghost use Rattle.std.specs.Prelude.{ℕ, List, Option};
ghost use Rattle.opus_packet.specs.Value.{PacketValue};
ghost use Rattle.example_repack.specs.Runs.{Runs, KeepsAll};

/// Whatever packets are taken, what was written is packets, and no frame is lost.
pub fn all_frames_are_kept()
    ensures { (vs : List PacketValue) (group end : Option PacketValue) (before after : List ℕ)
        → Runs vs group before end after → KeepsAll vs group before end after }
{}
