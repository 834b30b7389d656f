//! The checks, in their order.
ghost use Rattle.std.specs.Prelude.{◌≡◌, ◌≢◌, ◌≤◌, ◌<◌, ◌+◌, None, Some, length, slice_index, IfOk, IfErr};
ghost use Rattle.opus_head.specs.HeadFault.{head_fault, magic_fault, front_fault, table_fault, mapping_fault, end_fault, family_in, streams_in, coupled_in, decoded_in, head_size};
ghost use Rattle.opus_head.specs.Checks.{outcome};

use crate::HeadFault;
use crate::counts::is_channel_count;

/// `OpusHead`.
pub(crate) const MAGIC: [u8; 8] = [79, 112, 117, 115, 72, 101, 97, 100];

/// Makes all checks.
pub(crate) fn check(bytes: &[u8]) -> Result<(), HeadFault>
    ensures { result ≡ outcome (head_fault bytes.now) }
{
    check_magic(bytes)?;
    check_front(bytes)?;
    check_table(bytes)?;
    check_end(bytes)
}

/// Bytes up to the end of the table, as the fields tell that stand before it.
pub(crate) fn head_size(bytes: &[u8]) -> usize
    ensures size { result ≡ head_size bytes.now }
    ensures least { 19 ≤ result }
{
    let channels = usize::from(byte_at(bytes, 9));
    let decoded = usize::from(byte_at(bytes, 19)) + usize::from(byte_at(bytes, 20));
    match byte_at(bytes, 18) {
        0 => 19,
        3 => 21 + 2 * (decoded * channels),
        _ => 21 + channels,
    }
}

/// The byte at a place, or 0 behind the end.
pub(crate) fn byte_at(bytes: &[u8], place: usize) -> u8
    ensures { result ≡ slice_index bytes.now place }
{
    match bytes.get(place) {
        Some(byte) => *byte,
        None => 0,
    }
}

// A field of one byte.
fn field(bytes: &[u8], place: usize) -> Result<u8, HeadFault>
    ensures within { IfOk result (λ byte. place < length bytes.now) }
    ensures byte { IfOk result (λ byte. byte ≡ slice_index bytes.now place) }
    ensures behind { IfErr result (λ fault. length bytes.now ≤ place) }
    ensures cut { IfErr result (λ fault. fault ≡ HeadFault.Cut (length bytes.now)) }
{
    match bytes.get(place) {
        Some(byte) => Ok(*byte),
        None => Err(HeadFault::Cut(bytes.len() as u64)),
    }
}

// Whether the bytes begin as a head.
fn check_magic(bytes: &[u8]) -> Result<(), HeadFault>
    ensures { result ≡ outcome (magic_fault bytes.now) }
{
    for (place, wanted) in MAGIC.iter().enumerate() {
        if field(bytes, place)? != *wanted {
            return Err(HeadFault::Magic(place as u8));
        }
    }
    Ok(())
}

// The version, and the channel count in the family.
fn check_front(bytes: &[u8]) -> Result<(), HeadFault>
    ensures { result ≡ outcome (front_fault bytes.now) }
{
    if field(bytes, 8)? > 15 {
        return Err(HeadFault::Version);
    }
    let channels = field(bytes, 9)?;
    if channels == 0 {
        return Err(HeadFault::Channels);
    }
    if !is_channel_count(field(bytes, 18)?, channels) {
        return Err(HeadFault::Channels);
    }
    Ok(())
}

// The counts of streams, and the mapping bytes.
fn check_table(bytes: &[u8]) -> Result<(), HeadFault>
    ensures { result ≡ outcome (table_fault bytes.now) }
{
    let family = byte_at(bytes, 18);
    if family == 0 {
        return Ok(());
    }
    let streams = field(bytes, 19)?;
    if streams == 0 {
        return Err(HeadFault::Streams);
    }
    let coupled = field(bytes, 20)?;
    if coupled > streams || coupled > 255 - streams {
        return Err(HeadFault::Coupled);
    }
    if family == 3 {
        return Ok(());
    }
    check_mapping(bytes, streams + coupled)
}

// The mapping bytes, where there are so many decoded channels.
fn check_mapping(bytes: &[u8], decoded: u8) -> Result<(), HeadFault>
    requires matrix { family_in bytes.now ≢ 3 }
    requires decoded { decoded ≡ decoded_in bytes.now }
    ensures { result ≡ outcome (mapping_fault bytes.now) }
{
    let end = 21 + usize::from(byte_at(bytes, 9));
    if bytes.len() < end {
        return Err(HeadFault::Cut(bytes.len() as u64));
    }
    for (channel, byte) in bytes[21..end].iter().enumerate() {
        if *byte >= decoded && *byte != 255 {
            return Err(HeadFault::MapByte(channel as u8));
        }
    }
    Ok(())
}

// That the table is whole, and that nothing follows it in version 1.
fn check_end(bytes: &[u8]) -> Result<(), HeadFault>
    ensures { result ≡ outcome (end_fault bytes.now) }
{
    let size = head_size(bytes);
    if bytes.len() < size {
        return Err(HeadFault::Cut(bytes.len() as u64));
    }
    if byte_at(bytes, 8) == 1 && size < bytes.len() {
        return Err(HeadFault::Extra);
    }
    Ok(())
}
