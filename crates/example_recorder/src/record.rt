//! The record of one packet.
ghost use Rattle.std.specs.Prelude.{◌≡◌, ◌+◌, ◌≤◌, ◌++◌, vec_len, vec_capacity};
ghost use Rattle.opus_packet.specs.Canonical.{canonical};
ghost use Rattle.rec_store.specs.DemoStore.{demo_record};

use opus_packet::Packet;
use opus_writer::{canon_size, write_canon};
use rec_store::demo_head;

/// Bytes that suffice for each record: eight of its head, and the longest canonical form.
pub const MOST_RECORD: usize = 61_303;

/// Appends the record of the packet's canonical form, with final range 0.
pub(crate) fn append_record(packet: &Packet<'_>, out: &mut Vec<u8>)
    requires { vec_len out.old + MOST_RECORD ≤ vec_capacity out.old }
    ensures { out.new.items ≡ out.old.items ++ demo_record 0 (canonical packet.now.value) }
{
    let head = demo_head(canon_size(packet), 0);
    out.extend_from_slice(&head).unwrap();
    write_canon(packet, out).unwrap();
}
