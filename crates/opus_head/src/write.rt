//! Writing a head.
ghost use Rattle.std.specs.Prelude.{◌≡◌, ◌+◌, ◌<◌, ◌≤◌, ◌∷◌, [], ◌++◌, length, vec_len, vec_capacity, OnOk, OnErr};
ghost use Rattle.opus_head.specs.HeadValue.{IsHead};
ghost use Rattle.opus_head.specs.HeadBytes.{number_bytes, table_bytes, head_bytes};

use crate::checks::MAGIC;
use crate::{Head, Table};
use byteorder::{ByteOrder, LittleEndian};
use opus_io::NoMemory;

/// Appends the bytes that `read_head` reads as this head.
pub fn write_head(head: &Head, out: &mut Vec<u8>) -> Result<(), NoMemory>
    ensures head { IsHead head.now }
    ensures ok { OnOk result (out.new.items ≡ out.old.items ++ head_bytes head.now) }
    ensures err { OnErr result (out.new.items ≡ out.old.items) }
    ensures full { OnErr result
        (vec_capacity out.old < vec_len out.old + length (head_bytes head.now)) }
    ensures capacity { vec_capacity out.old ≤ vec_capacity out.new }
{
    let extra = head.extra.as_slice();
    out.reserve(19 + table_len(&head.table) + extra.len())?;
    out.extend_from_slice(&MAGIC).unwrap();
    out.push_reserved(head.version);
    out.push_reserved(head.channels);
    out.extend_from_slice(&numbers(head)).unwrap();
    out.push_reserved(head.family);
    append_table(&head.table, out);
    out.extend_from_slice(extra).unwrap();
    Ok(())
}

// Pre-skip, rate and gain.
fn numbers(head: &Head) -> [u8; 8]
    ensures { result ≡ number_bytes head.now }
{
    let mut bytes = [0; 8];
    LittleEndian::write_u16(&mut bytes, head.pre_skip);
    LittleEndian::write_u32(&mut bytes[2..], head.rate);
    LittleEndian::write_i16(&mut bytes[6..], head.gain);
    bytes
}

// Bytes of the table.
fn table_len(table: &Table) -> usize
    ensures { result ≡ length (table_bytes table.now) }
{
    match table {
        Table::None => 0,
        Table::Map { map, .. } => 2 + map.as_slice().len(),
        Table::Matrix { entries, .. } => 2 + entries.as_slice().len(),
    }
}

// Appends a table to a vector that has room for it.
fn append_table(table: &Table, out: &mut Vec<u8>)
    requires { vec_len out.old + length (table_bytes table.now) ≤ vec_capacity out.old }
    ensures items { out.new.items ≡ out.old.items ++ table_bytes table.now }
    ensures capacity { vec_capacity out.old ≤ vec_capacity out.new }
{
    let (streams, coupled, mapping) = match table {
        Table::None => return,
        Table::Map {
            streams,
            coupled,
            map,
        } => (*streams, *coupled, map),
        Table::Matrix {
            streams,
            coupled,
            entries,
        } => (*streams, *coupled, entries),
    };
    out.push_reserved(streams);
    out.push_reserved(coupled);
    out.extend_from_slice(mapping.as_slice()).unwrap();
}
