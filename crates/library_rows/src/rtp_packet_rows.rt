//! Packets cut at each length, faults in their order, and writing with reading back.
use crate::table::bytes_of;
use rtp_packet::{Rtp, RtpFields, read_rtp, write_rtp};
use std::alloc::{AllocError, Global};
use std::test::Fail;

// A packet with one CSRC, an extension of one word, three bytes of payload and two of padding.
const FULL: &str = "B16F03EA 00000780 1234ABCD 00000007 BEDE0001 10FF0000 FC0405 0002";

// What FULL says: SSRC 1234ABCD, and an extension BEDE of 10 FF 00 00.
const READ: &str =
    "Ok(Rtp { marker: false, payload_type: 111, seq: 1002, stamp: 1920, ssrc: 305441741, \
csrc: [0, 0, 0, 7], extension: Some((48862, [16, 255, 0, 0])), payload: [252, 4, 5], padding: 2 })";

// What is read of bytes, in words.
fn answer(alloc: Global, bytes: &[u8]) -> Result<String, Fail> {
    let read = read_rtp(bytes);
    Ok(format!(in alloc; "{read:?}")?)
}

// What is said of FULL where it is cut after so many bytes.
fn fault_at(size: usize) -> &'static str {
    match size {
        0..=11 => "Err(Short)",
        12..=15 => "Err(Csrc)",
        16..=23 => "Err(Extension)",
        _ => "Err(Padding)",
    }
}

// Without padding the payload's last bytes may be cut off: how many are left.
fn has_payload_at(size: usize, plain: &[u8]) -> bool {
    match read_rtp(plain) {
        Ok(read) => 24 <= size && read.payload.len() == size.saturating_sub(24),
        Err(_) => size < 24,
    }
}

fn is_cut(alloc: Global, size: usize) -> Result<bool, Fail> {
    let mut bytes = bytes_of(alloc, FULL)?;
    bytes.truncate(size);
    let full = answer(alloc, &bytes)?.as_str() == fault_at(size);
    if let Some(first) = bytes.first_mut() {
        *first = 0x91;
    }
    let plain = size >= 24 || answer(alloc, &bytes)?.as_str() == fault_at(size);
    Ok(bytes.len() == size && full && plain && has_payload_at(size, &bytes))
}

// The first byte, what stands behind twelve bytes, and the payload with the count of padding bytes, or the fault.
const ROWS: &str = "\
40 |  = Err(Version)
00 |  = Err(Version)
C0 |  = Err(Version)
7F |  = Err(Version)
81 |  = Err(Csrc)
B1 |  = Err(Csrc)
90 |  = Err(Extension)
B0 |  = Err(Extension)
A0 |  = Err(Padding)
A0 | F8 00 = Err(Padding)
A0 | F8 01 = Ok(([248], 1))
A0 | F8 02 = Ok(([], 2))
A0 | F8 03 = Err(Padding)
A0 | 01 = Ok(([], 1))
80 |  = Ok(([], 0))
80 | F8 01 = Ok(([248, 1], 0))
";

// A packet of this first byte, eleven zeros and what stands behind them.
fn packet(alloc: Global, first: u8, rest: &[u8]) -> Result<Vec<u8>, AllocError> {
    let mut bytes = Vec::new(alloc);
    bytes.push(first)?;
    bytes.extend_from_slice(&[0; 11])?;
    bytes.extend_from_slice(rest)?;
    Ok(bytes)
}

fn is_said(alloc: Global, row: &str) -> Result<bool, Fail> {
    let (text, want) = row.split_once(" = ").ok_or("a row has two parts")?;
    let (first, rest) = text
        .split_once(" | ")
        .ok_or("what stands behind is missing")?;
    let first = *bytes_of(alloc, first)?
        .first()
        .ok_or("a first byte is missing")?;
    let bytes = packet(alloc, first, &bytes_of(alloc, rest)?)?;
    let said = read_rtp(&bytes).map(|read| (read.payload, read.padding));
    Ok(format!(in alloc; "{said:?}")?.as_str() == want)
}

#[test]
fn faults_stand_in_their_order(rt: HostRuntime) -> Result<(), Fail> {
    for size in 0..29 {
        assert!(rt; is_cut(rt.alloc(), size)?, "{size}");
    }
    for row in ROWS.lines() {
        assert!(rt; is_said(rt.alloc(), row)?, "{row}");
    }
    let short = [0x80, 0, 0, 0, 0, 0, 0, 0, 0, 0, 0];
    assert_eq!(rt; answer(rt.alloc(), &short)?.as_str(), "Err(Short)");
    Ok(())
}

// Fifteen CSRCs, cut by one byte.
fn most_csrcs_are_read(alloc: Global) -> Result<bool, Fail> {
    let bytes = packet(alloc, 0x8F, &[7; 60])?;
    let read = match read_rtp(&bytes) {
        Ok(read) => read.csrc == [7; 60].as_slice(),
        Err(_) => false,
    };
    Ok(read && is_cut_by_one(alloc, &bytes, "Err(Csrc)")?)
}

// An extension of 65,535 words, cut by one byte.
fn longest_extension_is_read(alloc: Global) -> Result<bool, Fail> {
    let mut bytes = packet(alloc, 0x90, &[1, 2, 0xFF, 0xFF])?;
    let words = vec![in alloc; 9; 262_140]?;
    bytes.extend_from_slice(&words)?;
    Ok(has_extension(&bytes, &words) && is_cut_by_one(alloc, &bytes, "Err(Extension)")?)
}

fn has_extension(bytes: &[u8], words: &[u8]) -> bool {
    match read_rtp(bytes) {
        Ok(read) => matches!(read.extension, Some((0x0102, found)) if found == words),
        Err(_) => false,
    }
}

fn is_cut_by_one(alloc: Global, bytes: &[u8], fault: &str) -> Result<bool, Fail> {
    let (_, front) = bytes.split_last().ok_or("no bytes")?;
    Ok(answer(alloc, front)?.as_str() == fault)
}

// Marker, payload type and the byte that has both.
const WRITTEN: &str = "\
false 0 = 00
false 111 = 6F
false 127 = 7F
true 0 = 80
true 127 = FF
";

// The packet that is written of a row's marker and payload type.
fn written(row: &str) -> Result<Rtp<'static>, Fail> {
    let (marker, payload_type) = row.split_once(' ').ok_or("a payload type is missing")?;
    Ok(Rtp {
        marker: marker.parse()?,
        payload_type: payload_type.parse()?,
        seq: 0xFFFE,
        stamp: 0xFFFF_FED8,
        ssrc: 0x0102_0304,
        csrc: &[],
        extension: None,
        payload: &[0xF8, 0xAA],
        padding: 0,
    })
}

// The bytes of it, with the byte that has both. The byte 5 stands before the packet.
fn expected(alloc: Global, both: &str) -> Result<Vec<u8>, Fail> {
    let hex = format!(in alloc; "05 80 {both} FFFE FFFFFED8 01020304 F8AA")?;
    bytes_of(alloc, hex.as_str())
}

fn fields(read: &Rtp<'_>) -> RtpFields {
    RtpFields {
        marker: read.marker,
        payload_type: read.payload_type,
        seq: read.seq,
        stamp: read.stamp,
        ssrc: read.ssrc,
    }
}

fn is_written(alloc: Global, row: &str) -> Result<bool, Fail> {
    let (text, both) = row.split_once(" = ").ok_or("a row has two parts")?;
    let packet = written(text)?;
    let fields = fields(&packet);
    let mut out = Vec::from_slice(alloc, &[5])?;
    let answer = fields.payload_type < 128 && write_rtp(fields, packet.payload, &mut out).is_ok();
    let same = out.as_slice() == expected(alloc, both)?.as_slice();
    Ok(answer && same && is_read(alloc, &out, &packet)?)
}

fn is_read(alloc: Global, bytes: &[u8], packet: &Rtp<'_>) -> Result<bool, Fail> {
    let (_, rest) = bytes.split_first().ok_or("no bytes")?;
    let want = format!(in alloc; "Ok({packet:?})")?;
    Ok(answer(alloc, rest)?.as_str() == want.as_str())
}

#[test]
fn packets_are_read_and_written(rt: HostRuntime) -> Result<(), Fail> {
    let full = answer(rt.alloc(), &bytes_of(rt.alloc(), FULL)?)?;
    assert_eq!(rt; full.as_str(), READ);
    assert!(rt; most_csrcs_are_read(rt.alloc())? && longest_extension_is_read(rt.alloc())?);
    for row in WRITTEN.lines() {
        assert!(rt; is_written(rt.alloc(), row)?, "{row}");
    }
    Ok(())
}
