//! The records of an `opus_demo` store, written.
ghost use Rattle.std.specs.Prelude.{◌≡◌, ◌+◌, ◌^◌, ◌<◌, ◌≤◌, ◌++◌, length, vec_len, vec_capacity, OnOk, OnErr};
ghost use Rattle.rec_store.specs.DemoStore.{demo_head, demo_record};

use byteorder::{BigEndian, ByteOrder};
use opus_io::NoMemory;

/// The eight bytes that stand before a payload of `len` bytes.
pub fn demo_head(len: u32, range: u32) -> [u8; 8]
    ensures { result ≡ demo_head len range }
{
    let mut head = [0; 8];
    BigEndian::write_u32(&mut head, len);
    BigEndian::write_u32(&mut head[4..], range);
    head
}

/// Appends a record: the payload's length, the coder's final range and the payload.
/// A record with no payload is a lost packet.
pub fn demo_record(range: u32, payload: &[u8], out: &mut Vec<u8>) -> Result<(), NoMemory>
    requires { length payload.now < 2 ^ 32 }
    ensures ok { OnOk result (out.new.items ≡ out.old.items ++ demo_record range payload.now) }
    ensures err { OnErr result (out.new.items ≡ out.old.items) }
    ensures full { OnErr result
        (vec_capacity out.old < vec_len out.old + length (demo_record range payload.now)) }
    ensures capacity { vec_capacity out.old ≤ vec_capacity out.new }
{
    let head = demo_head(payload.len() as u32, range);
    out.reserve(head.len() + payload.len())?;
    out.extend_from_slice(&head).unwrap();
    out.extend_from_slice(payload).unwrap();
    Ok(())
}
