//! Self-delimited packets with their answers.
use crate::table::bytes_of;
use opus_packet::{Packet, Rule, Tail};
use opus_self::decode_self;
use std::alloc::{AllocError, Global};
use std::test::Fail;

// Bytes whose frames are AA BB; bytes of the packet and its padding bytes, or the rule and the place.
const ROWS: &str = "\
F8 02 AA BB = used 4, padding []
F8 02 AA BB F8 00 = used 4, padding []
F9 01 AA BB CC = used 4, padding []
FA 02 00 AA BB CC = used 5, padding []
FB 02 01 AA BB = used 5, padding []
FB 41 00 02 AA BB = used 6, padding []
FB 41 01 02 AA BB 00 = used 7, padding [0]
FB 41 02 02 AA BB 07 09 05 = used 8, padding [7, 9]
FB C2 01 01 01 AA BB 03 04 = used 8, padding [3]
 = Cut at 0
F8 = Cut at 1
F8 FC = Cut at 2
F8 02 AA = Cut at 3
FA 01 = Cut at 2
FB = Cut at 1
FB 41 = Cut at 2
FB 41 01 02 AA BB = Cut at 6
FB 00 = R5 at 1
FB 07 00 00 = R5 at 1
83 31 = R5 at 1
";

// What is said of bytes.
fn said(alloc: Global, bytes: &[u8]) -> Result<String, Fail> {
    match decode_self(bytes) {
        Ok(read) => read_of(alloc, &read.packet, read.used),
        Err(fault) => {
            let (rule, place) = (fault.rule, fault.place);
            Ok(format!(in alloc; "{rule:?} at {place}")?)
        }
    }
}

// What is said of a packet, if the frames are AA BB and it has the size that was used.
fn read_of(alloc: Global, packet: &Packet<'_>, used: usize) -> Result<String, Fail> {
    if packet.body() != [0xAA, 0xBB].as_slice() || packet.size() as usize != used {
        return Ok(String::from_str(alloc, "other frames or size")?);
    }
    match packet.tail() {
        Tail::Bytes(tail) => Ok(format!(in alloc; "used {used}, padding {tail:?}")?),
        Tail::Dropped(count) => Ok(format!(in alloc; "used {used}, dropped {count}")?),
    }
}

fn is_said(alloc: Global, row: &str) -> Result<bool, Fail> {
    let (hex, want) = row.split_once(" = ").ok_or("a row has two parts")?;
    let bytes = bytes_of(alloc, hex)?;
    Ok(said(alloc, &bytes)?.as_str() == want)
}

// The bytes 255 of a padding length, its last byte, and the padding bytes that it tells: 254 for each 255.
const PADDINGS: &[(usize, u8, usize)] = &[
    (0, 254, 254),
    (1, 0, 254),
    (1, 254, 508),
    (2, 0, 508),
    (258, 3, 65535),
    (258, 4, 65536),
];

// A code 3 packet's first two bytes, and so many bytes 255 of a padding length.
fn front(alloc: Global, full: usize) -> Result<Vec<u8>, AllocError> {
    let mut bytes = Vec::from_slice(alloc, b"\xfb\x41")?;
    for _ in 0..full {
        bytes.push(255)?;
    }
    Ok(bytes)
}

fn is_kept(alloc: Global, row: &(usize, u8, usize)) -> Result<bool, Fail> {
    let mut tail = Vec::new(alloc);
    for i in 0..row.2 {
        tail.push((i % 251) as u8)?;
    }
    let mut bytes = front(alloc, row.0)?;
    bytes.extend_from_slice(&[row.1, 1, 0xAA])?;
    bytes.extend_from_slice(&tail)?;
    let size = bytes.len();
    bytes.push(0xF8)?;
    has_tail(&bytes, size, &tail)
}

fn has_tail(bytes: &[u8], size: usize, tail: &[u8]) -> Result<bool, Fail> {
    let read = decode_self(bytes)?;
    let kept = match read.packet.tail() {
        Tail::Bytes(kept) => kept == tail && tail.len() <= 65535,
        Tail::Dropped(dropped) => (dropped, tail.len()) == (65536, 65536),
    };
    Ok(kept && read.used == size && read.packet.body() == [0xAA].as_slice())
}

// The 65,793rd byte 255 of a padding length.
fn is_past_the_limit(alloc: Global) -> Result<bool, AllocError> {
    match decode_self(&front(alloc, 65793)?) {
        Ok(_) => Ok(false),
        Err(fault) => Ok((fault.rule, fault.place) == (Rule::PadLimit, 65794)),
    }
}

#[test]
fn one_packet_is_read_from_the_front(rt: HostRuntime) -> Result<(), Fail> {
    for row in ROWS.lines() {
        assert!(rt; is_said(rt.alloc(), row)?, "{row}");
    }
    for row in PADDINGS {
        assert!(rt; is_kept(rt.alloc(), row)?, "{row:?}");
    }
    assert!(rt; is_past_the_limit(rt.alloc())?);
    Ok(())
}
