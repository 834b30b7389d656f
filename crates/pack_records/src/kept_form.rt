//! The kept form of a packet, written where there is room for it.
ghost use Rattle.std.specs.Prelude.{◌≡◌, ◌+◌, ◌++◌, ◌≤◌, ℕ, List, true, length, vec_capacity};
ghost use Rattle.opus_packet.specs.Tail.{kept_bytes, tail_of};
ghost use Rattle.pack_records.specs.Forms.{IsFormOf};
ghost use Rattle.pack_records.specs.Fits.{form_of};

use opus_feed::{Framing, Padding};
use opus_packet::{Packet, Tail};
use opus_writer::{
    canon_self_size, canon_size, keep_self_size, keep_size, write_canon, write_canon_self,
    write_keep, write_keep_self,
};

/// Room for every kept form, in bytes.
pub const MOST_KEPT: usize = 192_628;

/// Writes the kept form with the padding bytes that the packet has, in place of what was there.
#[cold]
#[inline(never)]
pub(crate) fn write_form(framing: Framing, packet: &Packet<'_>, out: &mut Vec<u8>)
    requires room { 192628 ≤ vec_capacity out.old }
    ensures form { out.new.items ≡ form_of framing packet.now.value (kept_bytes packet.now.tail) }
    ensures room { 192628 ≤ vec_capacity out.new }
{
    out.clear();
    append_form(framing, packet, out);
}

/// Appends the kept form with the padding bytes that the packet has.
pub fn append_form(framing: Framing, packet: &Packet<'_>, out: &mut Vec<u8>)
    requires room { length out.old.items + 192628 ≤ vec_capacity out.old }
    ensures form { out.new.items
        ≡ out.old.items ++ form_of framing packet.now.value (kept_bytes packet.now.tail) }
    ensures most { length out.new.items ≤ length out.old.items + 192628 }
    ensures capacity { vec_capacity out.old ≤ vec_capacity out.new }
{
    match (framing, packet.tail()) {
        (Framing::Whole, Tail::Bytes(_)) => {
            prove!(keep_size(packet) <= 192_628);
            write_keep(packet, out).unwrap();
        }
        (Framing::Whole, Tail::Dropped(_)) => {
            prove!(canon_size(packet) <= 192_628);
            write_canon(packet, out).unwrap();
        }
        (Framing::SelfDelimited, Tail::Bytes(_)) => {
            prove!(keep_self_size(packet) <= 192_628);
            write_keep_self(packet, out).unwrap();
        }
        (Framing::SelfDelimited, Tail::Dropped(_)) => {
            prove!(canon_self_size(packet) <= 192_628);
            write_canon_self(packet, out).unwrap();
        }
    }
}

/// Whether a packet is spelled in its kept form, with all the padding bytes that are kept and no others.
#[inline(always)]
pub(crate) fn is_form(padding: Padding, packet: &Packet<'_>) -> bool
    ensures { result ≡ true → (tail : List ℕ) → packet.now.tail ≡ tail_of tail
        → IsFormOf padding packet.now tail }
{
    match packet.tail() {
        Tail::Bytes(tail) => {
            (padding == Padding::Keep || tail.is_empty())
                && packet.shape() == packet.lens().keep_shape(tail.len() as u32)
        }
        Tail::Dropped(_) => false,
    }
}
