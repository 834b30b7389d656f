//! The written forms appended to a list.
ghost use Rattle.std.specs.Prelude.{◌≡◌, ◌+◌, ◌++◌, ◌^◌, ◌<◌, ◌≤◌, length, map, vec_len, vec_capacity, OnOk, OnErr, IfSome, IfNone, flat_map};
ghost use Rattle.std.specs.List.{AllByRecursion};
ghost use Rattle.opus_packet.specs.Tail.{kept, IsKept};
ghost use Rattle.opus_packet.specs.Held.{HeldRead};
ghost use Rattle.opus_multi.specs.Forms.{forms, canonical_multistream, kept_multistream};
ghost use Rattle.opus_multi.specs.WrittenForms.{spelled_as};
ghost use Rattle.opus_multi.specs.Joins.{held_durations};
ghost use Rattle.opus_multi.specs.Durations.{HaveOneDuration};

use crate::form::Form;
use crate::part::Part;
use opus_io::NoMemory;
use opus_packet::{Held, Packet};

/// What owns a packet's value.
pub(crate) trait Owns {
    /// The value, and the padding bytes that are kept with it.
    ghost held: { Self → HeldRead };

    /// The value as a packet.
    fn packet(&self) -> Packet<'_>
        ensures value { result.value ≡ (held self.now).value }
        ensures tail { result.tail ≡ kept (held self.now).tail }
        ensures kept { IsKept result.tail };
}

impl Owns for Held {
    ghost held = { λ h. h };

    fn packet(&self) -> Packet<'_> {
        let packet = self.view();
        // Known of every tail: no more bytes are kept than may be.
        let _ = packet.tail();
        packet
    }
}

impl Owns for Part {
    ghost held = { λ p. p.held };

    fn packet(&self) -> Packet<'_> {
        self.held.packet()
    }
}

/// Appends the canonical multistream form of parts that all last as long: the canonical self-delimited forms of all but
/// the last, and the canonical form of the last. Where memory is refused nothing is appended.
pub fn write_multi(parts: &[Part], out: &mut Vec<u8>) -> Result<(), NoMemory>
    requires some { 1 ≤ length parts.now }
    requires equal { HaveOneDuration (held_durations (map (λ p. p.held) parts.now)) }
    ensures ok { OnOk result (out.new.items
        ≡ out.old.items ++ canonical_multistream (map (λ p. p.held.value) parts.now)) }
    ensures err { OnErr result (out.new.items ≡ out.old.items) }
    ensures full { OnErr result (vec_capacity out.old < vec_len out.old
        + length (canonical_multistream (map (λ p. p.held.value) parts.now))) }
{
    write_canonical(parts, out)
}

/// Appends the kept multistream form: the kept self-delimited forms of all but the last, and the kept form of the last.
/// It asks what `write_multi` asks, and that no padding bytes were dropped. Where memory is refused nothing is appended.
pub fn write_multi_kept(parts: &[Part], out: &mut Vec<u8>) -> Result<(), NoMemory>
    requires some { 1 ≤ length parts.now }
    requires equal { HaveOneDuration (held_durations (map (λ p. p.held) parts.now)) }
    requires kept { AllByRecursion (λ p. p.dropped ≡ 0) parts.now }
    ensures ok { OnOk result (out.new.items
        ≡ out.old.items ++ kept_multistream (map (λ p. p.held) parts.now)) }
    ensures err { OnErr result (out.new.items ≡ out.old.items) }
    ensures full { OnErr result (vec_capacity out.old < vec_len out.old
        + length (kept_multistream (map (λ p. p.held) parts.now))) }
{
    write_forms(parts, Form::KeptSelf, Form::Kept, out)
}

/// Appends the canonical multistream form of what these own.
pub(crate) fn write_canonical<T: Owns>(parts: &[T], out: &mut Vec<u8>) -> Result<(), NoMemory>
    ensures ok { OnOk result (out.new.items
        ≡ out.old.items ++ canonical_multistream (map (λ p. (T.held p).value) parts.now)) }
    ensures err { OnErr result (out.new.items ≡ out.old.items) }
    ensures full { OnErr result (vec_capacity out.old < vec_len out.old
        + length (canonical_multistream (map (λ p. (T.held p).value) parts.now))) }
{
    write_forms(parts, Form::CanonicalSelf, Form::Canonical, out)
}

// Appends one form of all but the last of what these own, and another of the last.
fn write_forms<T: Owns>(
    parts: &[T],
    self_form: Form,
    whole_form: Form,
    out: &mut Vec<u8>,
) -> Result<(), NoMemory>
    ensures ok { OnOk result (out.new.items ≡ out.old.items
        ++ forms (spelled_as self_form) (spelled_as whole_form) (map (λ p. T.held p) parts.now)) }
    ensures err { OnErr result (out.new.items ≡ out.old.items) }
    ensures full { OnErr result (vec_capacity out.old < vec_len out.old
        + length (forms (spelled_as self_form) (spelled_as whole_form) (map (λ p. T.held p) parts.now))) }
{
    let Some((last, front)) = parts.split_last() else {
        return Ok(());
    };
    let Some(size) = front_size(front, self_form) else {
        return Err(NoMemory);
    };
    let Some(size) = size.checked_add(whole_form.size(&last.packet()) as usize) else {
        return Err(NoMemory);
    };
    out.reserve(size)?;
    write_front(front, self_form, out);
    whole_form.write(&last.packet(), out)
}

// Bytes of this form of each.
fn front_size<T: Owns>(front: &[T], form: Form) -> Option<usize>
    ensures some { IfSome result (λ size. size ≡ length (flat_map (λ p. spelled_as form (T.held p)) front.now)) }
    ensures none { IfNone result (2 ^ 64 ≤ length (flat_map (λ p. spelled_as form (T.held p)) front.now)) }
{
    let mut size: usize = 0;
    for part in front {
        size = size.checked_add(form.size(&part.packet()) as usize)?;
    }
    Some(size)
}

// Appends this form of each, for which there is room.
fn write_front<T: Owns>(front: &[T], form: Form, out: &mut Vec<u8>)
    requires room { vec_len out.old
        + length (flat_map (λ p. spelled_as form (T.held p)) front.now) ≤ vec_capacity out.old }
    ensures items { out.new.items ≡ out.old.items ++ flat_map (λ p. spelled_as form (T.held p)) front.now }
    ensures capacity { vec_capacity out.old ≤ vec_capacity out.new }
{
    for part in front {
        form.write(&part.packet(), out).unwrap();
    }
}
