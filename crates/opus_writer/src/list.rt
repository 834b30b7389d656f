//! The written forms appended to a list: a header, the frames, and the padding bytes where they are kept.
ghost use Rattle.std.specs.Prelude.{◌≡◌, ◌+◌, ◌<◌, ◌≤◌, ◌++◌, length, vec_len, vec_capacity, OnOk, OnErr};
ghost use Rattle.opus_packet.specs.Value.{max_body};
ghost use Rattle.opus_packet.specs.Tail.{max_tail, IsKept};
ghost use Rattle.opus_packet.specs.Canonical.{canonical, canonical_self_delimited};
ghost use Rattle.opus_writer.specs.Forms.{kept_of, kept_self_of, canonical_in, kept_of_in};

use crate::header::{push_canon_in, push_keep_in};
use crate::size::tail_bytes;
use arrayvec::ArrayVec;
use opus_io::NoMemory;
use opus_packet::Packet;

/// Appends the canonical form: one frame has code 0, two have code 1 where their lengths are equal and code 2
/// where not, and more have code 3, with VBR where the lengths differ. It has no padding.
pub fn write_canon(packet: &Packet<'_>, out: &mut Vec<u8>) -> Result<(), NoMemory>
    ensures ok { OnOk result (out.new.items ≡ out.old.items ++ canonical packet.now.value) }
    ensures err { OnErr result (out.new.items ≡ out.old.items) }
    ensures full { OnErr result (vec_capacity out.old < vec_len out.old + length (canonical packet.now.value)) }
    ensures capacity { vec_capacity out.old ≤ vec_capacity out.new }
{
    append_canon(packet, false, out)
}

/// Appends the canonical self-delimited form (RFC 6716, Appendix B), which is spelled in the same cases.
pub fn write_canon_self(packet: &Packet<'_>, out: &mut Vec<u8>) -> Result<(), NoMemory>
    ensures ok { OnOk result (out.new.items ≡ out.old.items ++ canonical_self_delimited packet.now.value) }
    ensures err { OnErr result (out.new.items ≡ out.old.items) }
    ensures full { OnErr result
        (vec_capacity out.old < vec_len out.old + length (canonical_self_delimited packet.now.value)) }
    ensures capacity { vec_capacity out.old ≤ vec_capacity out.new }
{
    append_canon(packet, true, out)
}

/// Appends the kept form: the canonical form where there are no padding bytes, and else code 3 with the packet's
/// own padding bytes behind a padding length of the fewest bytes.
pub fn write_keep(packet: &Packet<'_>, out: &mut Vec<u8>) -> Result<(), NoMemory>
    requires { IsKept packet.now.tail }
    ensures ok { OnOk result (out.new.items ≡ out.old.items ++ kept_of packet.now) }
    ensures err { OnErr result (out.new.items ≡ out.old.items) }
    ensures full { OnErr result (vec_capacity out.old < vec_len out.old + length (kept_of packet.now)) }
    ensures capacity { vec_capacity out.old ≤ vec_capacity out.new }
{
    append_kept(packet, false, out)
}

/// Appends the kept self-delimited form, which is spelled in the same cases.
pub fn write_keep_self(packet: &Packet<'_>, out: &mut Vec<u8>) -> Result<(), NoMemory>
    requires { IsKept packet.now.tail }
    ensures ok { OnOk result (out.new.items ≡ out.old.items ++ kept_self_of packet.now) }
    ensures err { OnErr result (out.new.items ≡ out.old.items) }
    ensures full { OnErr result (vec_capacity out.old < vec_len out.old + length (kept_self_of packet.now)) }
    ensures capacity { vec_capacity out.old ≤ vec_capacity out.new }
{
    append_kept(packet, true, out)
}

// Appends the canonical form, self-delimited where `own` says so.
#[inline(always)]
fn append_canon(packet: &Packet<'_>, own: bool, out: &mut Vec<u8>) -> Result<(), NoMemory>
    ensures ok { OnOk result (out.new.items ≡ out.old.items ++ canonical_in own packet.now.value) }
    ensures err { OnErr result (out.new.items ≡ out.old.items) }
    ensures full { OnErr result (vec_capacity out.old < vec_len out.old + length (canonical_in own packet.now.value)) }
    ensures capacity { vec_capacity out.old ≤ vec_capacity out.new }
{
    let mut header: ArrayVec<u8, 98> = ArrayVec::new();
    push_canon_in(packet, own, &mut header);
    append(header.as_slice(), packet.body(), &[], out)
}

// Appends the kept form, self-delimited where `own` says so.
#[inline(always)]
fn append_kept(packet: &Packet<'_>, own: bool, out: &mut Vec<u8>) -> Result<(), NoMemory>
    requires { IsKept packet.now.tail }
    ensures ok { OnOk result (out.new.items ≡ out.old.items ++ kept_of_in own packet.now) }
    ensures err { OnErr result (out.new.items ≡ out.old.items) }
    ensures full { OnErr result (vec_capacity out.old < vec_len out.old + length (kept_of_in own packet.now)) }
    ensures capacity { vec_capacity out.old ≤ vec_capacity out.new }
{
    let tail = tail_bytes(packet);
    let mut header: ArrayVec<u8, 360> = ArrayVec::new();
    push_keep_in(packet, own, tail.len() as u32, &mut header);
    append(header.as_slice(), packet.body(), tail, out)
}

// Appends a header, the frames and the padding bytes.
fn append(header: &[u8], body: &[u8], tail: &[u8], out: &mut Vec<u8>) -> Result<(), NoMemory>
    requires header { length header.now ≤ 360 }
    requires body { length body.now ≤ max_body }
    requires tail { length tail.now ≤ max_tail }
    ensures ok { OnOk result (out.new.items ≡ out.old.items ++ (header.now ++ body.now ++ tail.now)) }
    ensures err { OnErr result (out.new.items ≡ out.old.items) }
    ensures full { OnErr result (vec_capacity out.old < vec_len out.old + length (header.now ++ body.now ++ tail.now)) }
    ensures capacity { vec_capacity out.old ≤ vec_capacity out.new }
{
    out.reserve(header.len() + body.len() + tail.len())?;
    push_all(header, out);
    push_all(body, out);
    push_all(tail, out);
    Ok(())
}

// Appends bytes for which there is room.
pub(crate) fn push_all(bytes: &[u8], out: &mut Vec<u8>)
    requires { vec_len out.old + length bytes.now ≤ vec_capacity out.old }
    ensures bytes { out.new.items ≡ out.old.items ++ bytes.now }
    ensures capacity { vec_capacity out.old ≤ vec_capacity out.new }
{
    out.extend_from_slice(bytes).unwrap();
}
