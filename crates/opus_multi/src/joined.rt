//! Joining packets to a multistream packet.
ghost use Rattle.std.specs.Prelude.{◌≡◌, ℕ, [], ◌+◌, ◌<◌, ◌≤◌, ◌++◌, length, map, vec_len, vec_capacity, OnOk, OnErr, IfErr, IfSome, IfNone, Err, IsErrOf};
ghost use Rattle.opus_multi.specs.Durations.{HaveOneDuration, IsUnequalAt};
ghost use Rattle.opus_multi.specs.Forms.{canonical_multistream};
ghost use Rattle.opus_multi.specs.Joins.{held_durations, IsJoinFault};
ghost use Rattle.opus_multi.specs.declared.fault.JoinFault.TheVariants.{NoParts, Unequal};

use crate::durations::Durations;
use crate::fault::JoinFault;
use crate::list::write_canonical;
use opus_packet::Held;

/// Appends the canonical multistream form of these packets, one for each stream in order: all must last as long
/// (RFC 7845, section 3). Where it fails nothing is appended.
pub fn join(parts: &[Held], out: &mut Vec<u8>) -> Result<(), JoinFault>
    ensures ok { OnOk result (out.new.items
        ≡ out.old.items ++ canonical_multistream (map (λ h. h.value) parts.now)) }
    ensures some { OnOk result (1 ≤ length parts.now) }
    ensures equal { OnOk result (HaveOneDuration (held_durations parts.now)) }
    ensures err { OnErr result (out.new.items ≡ out.old.items) }
    // Each fault has its cause, and each cause its fault.
    ensures fault { IfErr result (λ f. IsJoinFault parts.now f) }
    ensures none { parts.now ≡ [] → result ≡ Err NoParts }
    ensures unequal { (k : ℕ) → IsUnequalAt (held_durations parts.now) k → result ≡ Err (Unequal k) }
    // Memory is wanted only where the list has no room for the form.
    ensures full { IsErrOf result JoinFault.NoMemory → vec_capacity out.old < vec_len out.old
        + length (canonical_multistream (map (λ h. h.value) parts.now)) }
{
    if parts.is_empty() {
        return Err(JoinFault::NoParts);
    }
    if let Some(k) = unequal_part(parts) {
        return Err(JoinFault::Unequal(k));
    }
    match write_canonical(parts, out) {
        Ok(()) => Ok(()),
        Err(_) => Err(JoinFault::NoMemory),
    }
}

// The least part whose duration differs from that of part 0.
fn unequal_part(parts: &[Held]) -> Option<usize>
    ensures some { IfSome result (λ k. IsUnequalAt (held_durations parts.now) k) }
    ensures none { IfNone result (HaveOneDuration (held_durations parts.now)) }
{
    let mut durations = Durations::new();
    for (k, part) in parts.iter().enumerate() {
        durations.add(k, part.view().duration());
    }
    durations.other
}
