//! Reading a head.
ghost use Rattle.std.specs.Prelude.{◌≡◌, ◌⊎◌, ◌+◌, ◌≤◌, None, Some, drop, length, IfOk, IfErr};
ghost use Rattle.std.specs.Int.{w16, cast_signed};
ghost use Rattle.byteorder.specs.Endian.{little_number};
ghost use Rattle.opus_head.specs.HeadValue.{HeadValue};
ghost use Rattle.opus_head.specs.HeadBytes.{IsOpusHead};
ghost use Rattle.opus_head.specs.HeadFault.{head_fault, head_size};
ghost use Rattle.opus_head.specs.HeadRead.{table_in, head_in};

use crate::checks::{byte_at, check, head_size};
use crate::{Head, HeadFault, Table};
use byteorder::{ByteOrder, LittleEndian};
use opus_io::{Bytes, NoMemory};
use std::alloc::Global;

/// Reads a head, which is all of `bytes`. What follows its table is kept, and refused in version 1.
pub fn read_head(alloc: Global, bytes: &[u8]) -> Result<Head, HeadFault>
    // What is read is spelled so, each byte of it; and what is spelled so is read.
    ensures found { IfOk result (λ h. IsOpusHead h bytes.now) }
    ensures only { (h : HeadValue) → IsOpusHead h bytes.now
        → (result ≡ Ok h) ⊎ (result ≡ Err HeadFault.NoMemory) }
    ensures fault { IfErr result (λ fault. (fault ≡ HeadFault.NoMemory)
        ⊎ (head_fault bytes.now ≡ Some fault)) }
    // Want of memory comes only where there is no other fault.
    ensures last { result ≡ Err HeadFault.NoMemory → head_fault bytes.now ≡ None }
{
    check(bytes)?;
    Ok(copy_head(alloc, bytes)?)
}

// Copies a head in which no check fails.
fn copy_head(alloc: Global, bytes: &[u8]) -> Result<Head, NoMemory>
    requires { head_fault bytes.now ≡ None }
    ensures { IfOk result (λ h. h ≡ head_in bytes.now) }
{
    let size = head_size(bytes);
    let table = copy_table(alloc, bytes, size)?;
    let extra = Bytes::copy(alloc, &bytes[size..])?;
    Ok(head_of(bytes, table, extra))
}

// Copies the table of a head of which so many bytes go up to the table's end.
fn copy_table(alloc: Global, bytes: &[u8], size: usize) -> Result<Table, NoMemory>
    requires size { size ≡ head_size bytes.now }
    requires whole { size ≤ length bytes.now }
    ensures { IfOk result (λ table. table ≡ table_in bytes.now) }
{
    let family = byte_at(bytes, 18);
    if family == 0 {
        return Ok(Table::None);
    }
    let streams = byte_at(bytes, 19);
    let coupled = byte_at(bytes, 20);
    let mapping = Bytes::copy(alloc, &bytes[21..size])?;
    Ok(if family == 3 {
        Table::Matrix {
            streams,
            coupled,
            entries: mapping,
        }
    } else {
        Table::Map {
            streams,
            coupled,
            map: mapping,
        }
    })
}

// The head of bytes in which no check fails, with its table and what follows it.
fn head_of(bytes: &[u8], table: Table, extra: Bytes) -> Head
    requires fault { head_fault bytes.now ≡ None }
    requires table { table ≡ table_in bytes.now }
    requires extra { extra ≡ drop (head_size bytes.now) bytes.now }
    ensures { result ≡ head_in bytes.now }
{
    Head {
        version: byte_at(bytes, 8),
        channels: byte_at(bytes, 9),
        pre_skip: number_16(bytes, 10),
        rate: number_32(bytes, 12),
        gain: signed_16(bytes, 16),
        family: byte_at(bytes, 18),
        table,
        extra,
    }
}

// The number of two bytes at a place.
fn number_16(bytes: &[u8], place: usize) -> u16
    requires { place + 2 ≤ length bytes.now }
    ensures { result ≡ little_number 2 (drop place bytes.now) }
{
    LittleEndian::read_u16(&bytes[place..])
}

// The number of four bytes at a place.
fn number_32(bytes: &[u8], place: usize) -> u32
    requires { place + 4 ≤ length bytes.now }
    ensures { result ≡ little_number 4 (drop place bytes.now) }
{
    LittleEndian::read_u32(&bytes[place..])
}

// The signed number of two bytes at a place.
fn signed_16(bytes: &[u8], place: usize) -> i16
    requires { place + 2 ≤ length bytes.now }
    ensures { result ≡ cast_signed w16 (little_number 2 (drop place bytes.now)) }
{
    LittleEndian::read_i16(&bytes[place..])
}
