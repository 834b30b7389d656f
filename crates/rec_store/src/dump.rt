//! The capture in the rtpdump layout, written.
ghost use Rattle.std.specs.Prelude.{◌≡◌, ◌+◌, ◌<◌, ◌≤◌, ◌++◌, length, vec_len, vec_capacity, OnOk, OnErr};
ghost use Rattle.rec_store.specs.Dump.{dump_head_bytes, dump_record_head, dump_record_bytes, record_of_packet};

use crate::dump_line::MARK;
use byteorder::{BigEndian, ByteOrder};
use opus_io::NoMemory;

// What follows the mark in the first line: no address and port 0.
const NOWHERE: [u8; 10] = *b"0.0.0.0/0\n";

/// Appends what stands before the records of a capture: the first line, with address 0.0.0.0 and port 0, and 16 zero
/// bytes for when and where it was made. Where there is no memory, `out` is left as it was.
pub fn dump_head(out: &mut Vec<u8>) -> Result<(), NoMemory>
    ensures ok { OnOk result (out.new.items ≡ out.old.items ++ dump_head_bytes) }
    ensures err { OnErr result (out.new.items ≡ out.old.items) }
    ensures full { OnErr result
        (vec_capacity out.old < vec_len out.old + length dump_head_bytes) }
    ensures capacity { vec_capacity out.old ≤ vec_capacity out.new }
{
    out.reserve(MARK.len() + NOWHERE.len() + 16)?;
    out.extend_from_slice(&MARK).unwrap();
    out.extend_from_slice(&NOWHERE).unwrap();
    out.extend_from_slice(&[0; 16]).unwrap();
    Ok(())
}

/// Appends the record of a whole packet, which has 1 to 65,527 bytes. `offset` is in milliseconds since the capture
/// began, modulo 2^32. Where there is no memory, `out` is left as it was.
pub fn dump_record(offset: u32, packet: &[u8], out: &mut Vec<u8>) -> Result<(), NoMemory>
    requires some { 1 ≤ length packet.now }
    requires most { length packet.now ≤ 65527 }
    ensures ok { OnOk result (out.new.items
        ≡ out.old.items ++ dump_record_bytes (record_of_packet offset packet.now)) }
    ensures err { OnErr result (out.new.items ≡ out.old.items) }
    ensures full { OnErr result (vec_capacity out.old
        < vec_len out.old + length (dump_record_bytes (record_of_packet offset packet.now))) }
    ensures capacity { vec_capacity out.old ≤ vec_capacity out.new }
{
    let head = dump_record_head(packet.len() as u16, offset);
    out.reserve(head.len() + packet.len())?;
    out.extend_from_slice(&head).unwrap();
    out.extend_from_slice(packet).unwrap();
    Ok(())
}

/// The eight bytes that stand before a whole packet of `size` bytes, at most 65,527. `offset` is in milliseconds.
pub fn dump_record_head(size: u16, offset: u32) -> [u8; 8]
    requires { size ≤ 65527 }
    ensures { result ≡ dump_record_head size size offset }
{
    let mut head = [0; 8];
    BigEndian::write_u16(&mut head, 8 + size);
    BigEndian::write_u16(&mut head[2..], size);
    BigEndian::write_u32(&mut head[4..], offset);
    head
}
