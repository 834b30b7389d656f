//! Writing a packet.
ghost use Rattle.std.specs.Prelude.{◌≡◌, ◌+◌, ◌^◌, ◌<◌, ◌≤◌, ◌++◌, [], length, vec_len, vec_capacity, OnOk, OnErr};
ghost use Rattle.rtp_packet.specs.RtpBytes.{front_bytes};
ghost use Rattle.rtp_packet.specs.RtpRead.{plain_packet, plain_bytes};

use crate::RtpFields;
use byteorder::{BigEndian, ByteOrder};
use opus_io::NoMemory;

/// Appends a packet with these fields and this payload, and with no CSRCs, extension or padding (RFC 3550, 5.1). Where
/// there is no memory, `out` is left as it was.
pub fn write_rtp(fields: RtpFields, payload: &[u8], out: &mut Vec<u8>) -> Result<(), NoMemory>
    requires { fields.payload_type < 2 ^ 7 }
    ensures ok { OnOk result (out.new.items ≡ out.old.items ++ plain_bytes fields payload.now) }
    ensures err { OnErr result (out.new.items ≡ out.old.items) }
    ensures full { OnErr result
        (vec_capacity out.old < vec_len out.old + length (plain_bytes fields payload.now)) }
    ensures capacity { vec_capacity out.old ≤ vec_capacity out.new }
{
    let front = front_of(fields);
    out.reserve(front.len() + payload.len())?;
    out.extend_from_slice(&front).unwrap();
    out.extend_from_slice(payload).unwrap();
    Ok(())
}

// What stands before the payload.
fn front_of(fields: RtpFields) -> [u8; 12]
    requires { fields.payload_type < 2 ^ 7 }
    ensures { result ≡ front_bytes (plain_packet fields []) }
{
    let marker = if fields.marker { 128 } else { 0 };
    let mut front = [0; 12];
    front[0] = 128;
    front[1] = marker + fields.payload_type;
    BigEndian::write_u16(&mut front[2..], fields.seq);
    BigEndian::write_u32(&mut front[4..], fields.stamp);
    BigEndian::write_u32(&mut front[8..], fields.ssrc);
    front
}
