//! Packets with their answers.
use crate::table::bytes_of;
use opus_packet::{Held, Packet, Rule, Tail, decode};
use std::alloc::{AllocError, Global};
use std::test::Fail;

// Bytes, the last ones so often if a count stands before them, and what `decode` says of them all.
const ROWS: &str = "\
# Codes 0 to 2.
 = R1 at 0
08 = frames 1 code 0 vbr false pad 0
F8 + 1275 * 00 = frames 1 code 0 vbr false pad 0
F8 + 1276 * 00 = R2 at 1276
F9 = frames 2 code 1 vbr false pad 0
F9 AA = R3 at 2
F9 + 2550 * 00 = frames 2 code 1 vbr false pad 0
F9 + 2551 * 00 = R2 at 2551
FA = R4 at 1
FA FC = R4 at 2
FA 05 AA = R4 at 3
FA 00 = frames 2 code 2 vbr false pad 0
FA FB + 251 * 00 = frames 2 code 2 vbr false pad 0
FA FC 00 + 252 * 00 = frames 2 code 2 vbr false pad 0
FA FF FF + 1274 * 00 = R4 at 1277
FA FF FF + 2550 * 00 = frames 2 code 2 vbr false pad 0
FA FF FF + 2551 * 00 = R2 at 2553
# Code 3.
FB = R6 at 1
FB 01 + 1276 * 00 = R2 at 1277
FB 02 AA = R6 at 3
FB 42 = R6 at 2
FB 41 05 00 = R6 at 4
FB 82 = R7 at 2
FB 82 FC = R7 at 3
FB 82 03 AA = R7 at 4
FB 82 FF FF + 2551 * 00 = R2 at 2554
83 B0 + 46 * 00 = R7 at 48
83 B0 + 47 * 00 = frames 48 code 3 vbr true pad 0
FB C2 02 01 AA BB + 2 * 00 = frames 2 code 3 vbr true pad 3
FB C2 FF = R7 at 3
FB 41 00 = frames 1 code 3 vbr false pad 1
FB 41 FD AA + 253 * 00 = frames 1 code 3 vbr false pad 254
FB 41 FE AA + 254 * 00 = frames 1 code 3 vbr false pad 255
FB 41 FF 00 AA + 254 * 00 = frames 1 code 3 vbr false pad 256
FB 41 + 65792 * FF = R6 at 65794
FB 41 + 65793 * FF = PadLimit at 65794
";

fn said(alloc: Global, bytes: &[u8]) -> Result<String, Fail> {
    match decode(bytes) {
        Ok(packet) => {
            let frames = packet.frames().count();
            let shape = packet.shape();
            let (code, vbr, pad) = (shape.code, shape.vbr, shape.pad);
            Ok(format!(in alloc; "frames {frames} code {code} vbr {vbr} pad {pad}")?)
        }
        Err(fault) => {
            let (rule, place) = (fault.rule, fault.place);
            Ok(format!(in alloc; "{rule:?} at {place}")?)
        }
    }
}

// The bytes of a text such as `FB 41 + 3 * FF`.
fn filled(alloc: Global, text: &str) -> Result<Vec<u8>, Fail> {
    let Some((front, rest)) = text.split_once(" + ") else {
        return bytes_of(alloc, text);
    };
    let (count, piece) = rest.split_once(" * ").ok_or("a rest has a count")?;
    let mut bytes = bytes_of(alloc, front)?;
    let piece = bytes_of(alloc, piece)?;
    for _ in 0..count.parse::<usize>()? {
        bytes.extend_from_slice(&piece)?;
    }
    Ok(bytes)
}

fn is_said(alloc: Global, row: &str) -> Result<bool, Fail> {
    let (text, want) = row.split_once(" = ").ok_or("a row has two parts")?;
    let bytes = filled(alloc, text)?;
    Ok(said(alloc, &bytes)?.as_str() == want)
}

#[test]
fn packets_have_their_answers(rt: HostRuntime) -> Result<(), Fail> {
    for row in ROWS.lines() {
        if !row.starts_with('#') {
            assert!(rt; is_said(rt.alloc(), row)?, "{row}");
        }
    }
    Ok(())
}

// The first byte, a frame's samples at 48 kHz, and how many such frames last 120 ms.
const LONGEST: &[(u8, u32, u8)] = &[
    (0x83, 120, 48),
    (0x8B, 240, 24),
    (0x93, 480, 12),
    (0xFB, 960, 6),
    (0x13, 1920, 3),
    (0x1B, 2880, 2),
];

fn lasts(row: &(u8, u32, u8), count: u8) -> bool {
    match decode(&[row.0, count]) {
        Ok(packet) => {
            (1..=row.2).contains(&count)
                && packet.count() == usize::from(count)
                && packet.duration() == u32::from(count).saturating_mul(row.1)
                && packet.size() == 2
        }
        Err(fault) => !(1..=row.2).contains(&count) && (fault.rule, fault.place) == (Rule::R5, 1),
    }
}

#[test]
fn no_packet_outlasts_120_milliseconds(rt: HostRuntime) {
    for row in LONGEST {
        for count in 0..64u8 {
            assert!(rt; lasts(row, count), "{row:?} with {count} frames");
        }
    }
}

// The bytes 255 of a padding length, its last byte, and the padding bytes that it tells: 254 for each 255.
const PADDINGS: &[(usize, u8, usize)] = &[
    (0, 0, 0),
    (0, 1, 1),
    (0, 253, 253),
    (0, 254, 254),
    (1, 0, 254),
    (1, 1, 255),
    (1, 254, 508),
    (2, 0, 508),
    (258, 3, 65535),
    (257, 254, 65532),
    (258, 4, 65536),
];

fn is_kept(alloc: Global, row: &(usize, u8, usize)) -> Result<bool, Fail> {
    let mut tail = Vec::new(alloc);
    for i in 0..row.2 {
        tail.push((i % 251) as u8)?;
    }
    let mut bytes = Vec::from_slice(alloc, b"\xfb\x41")?;
    for _ in 0..row.0 {
        bytes.push(255)?;
    }
    bytes.extend_from_slice(&[row.1, 0xAA])?;
    bytes.extend_from_slice(&tail)?;
    let packet = decode(&bytes)?;
    let kept = match packet.tail() {
        Tail::Bytes(kept) => kept == tail.as_slice() && row.2 <= 65535,
        Tail::Dropped(dropped) => (dropped, row.2) == (65536, 65536),
    };
    Ok(kept && packet.body() == [0xAA].as_slice())
}

#[test]
fn padding_bytes_are_kept_up_to_65535(rt: HostRuntime) -> Result<(), Fail> {
    for row in PADDINGS {
        assert!(rt; is_kept(rt.alloc(), row)?, "{row:?}");
    }
    Ok(())
}

// A packet of 48 frames: frame i has 26 * i bytes, i and those behind it. Lengths from the tenth on take two bytes.
fn of_48_frames(alloc: Global) -> Result<Vec<u8>, AllocError> {
    let mut bytes = Vec::from_slice(alloc, b"\x83\xb0")?;
    for i in 0..47u16 {
        let len = 26 * i;
        if len < 252 {
            bytes.push(len as u8)?;
        } else {
            bytes.extend_from_slice(&[252 + (len % 4) as u8, (len / 4 - 63) as u8])?;
        }
    }
    for i in 0..48u16 {
        for j in 0..26 * i {
            bytes.push(((i + j) % 256) as u8)?;
        }
    }
    Ok(bytes)
}

fn is_frame(frame: &[u8], number: usize) -> bool {
    frame.len() == number.saturating_mul(26)
        && (number == 0 || frame.first().copied().map(usize::from) == Some(number))
}

#[test]
fn each_of_48_frames_is_found(rt: HostRuntime) -> Result<(), Fail> {
    let bytes = of_48_frames(rt.alloc())?;
    let packet = decode(&bytes)?;
    assert!(rt; packet.count() == 48 && packet.frames().count() == 48);
    for (number, frame) in packet.frames().enumerate() {
        assert!(rt;
            is_frame(frame, number) && packet.frame(number) == frame,
            "{number}"
        );
    }
    Ok(())
}

// A packet; code, VBR, padding total and size of a copy of its value, and of one with its padding bytes; these, and
// the bytes in which the lengths of its frames but the last lie spelled.
const COPIES: &str = "\
F8 61 | 0 false 0 2 | 0 false 0 2 | [] | None
F9 61 62 | 1 false 0 3 | 1 false 0 3 | [] | None
FA 01 61 62 | 1 false 0 3 | 1 false 0 3 | [] | Some([1])
FB 02 61 62 | 1 false 0 3 | 1 false 0 3 | [] | None
FB 41 00 61 | 0 false 0 2 | 0 false 0 2 | [] | None
FB 81 61 | 0 false 0 2 | 0 false 0 2 | [] | Some([])
FB C2 02 01 61 62 11 22 | 1 false 0 3 | 3 false 3 7 | [17, 34] | Some([1])
FB C2 01 00 61 62 09 | 2 false 0 4 | 3 true 2 7 | [9] | Some([0])
FB C3 01 01 00 61 62 09 | 3 true 0 6 | 3 true 2 8 | [9] | Some([1, 0])
";

fn spelling(alloc: Global, packet: &Packet<'_>) -> Result<String, Fail> {
    let shape = packet.shape();
    let (code, vbr, pad, size) = (shape.code, shape.vbr, shape.pad, packet.size());
    Ok(format!(in alloc; "{code} {vbr} {pad} {size}")?)
}

fn tail_is(alloc: Global, packet: &Packet<'_>, want: &str) -> Result<bool, Fail> {
    match packet.tail() {
        Tail::Bytes(bytes) => Ok(format!(in alloc; "{bytes:?}")?.as_str() == want),
        Tail::Dropped(_) => Ok(false),
    }
}

fn is_copy(
    alloc: Global,
    copy: &Packet<'_>,
    packet: &Packet<'_>,
    spelled: &str,
) -> Result<bool, Fail> {
    let same = copy.body() == packet.body() && copy.count() == packet.count();
    let spelled = spelling(alloc, copy)?.as_str() == spelled;
    Ok(same && spelled && copy.lens().spelled().is_none())
}

fn is_plain_copied(alloc: Global, packet: &Packet<'_>, spelled: &str) -> Result<bool, Fail> {
    let held = Held::copy(alloc, packet)?;
    let copy = held.view();
    Ok(is_copy(alloc, &copy, packet, spelled)? && tail_is(alloc, &copy, "[]")?)
}

fn is_kept_copied(
    alloc: Global,
    packet: &Packet<'_>,
    spelled: &str,
    tail: &str,
) -> Result<bool, Fail> {
    match packet.tail() {
        Tail::Bytes(_) => {
            let kept = Held::copy_kept(alloc, packet)?;
            let copy = kept.view();
            Ok(is_copy(alloc, &copy, packet, spelled)? && tail_is(alloc, &copy, tail)?)
        }
        Tail::Dropped(_) => Ok(false),
    }
}

fn has_lens(alloc: Global, packet: &Packet<'_>, want: &str) -> Result<bool, Fail> {
    let lens = packet.lens().spelled();
    Ok(format!(in alloc; "{lens:?}")?.as_str() == want)
}

fn is_copied(alloc: Global, row: &str) -> Result<bool, Fail> {
    let mut columns = row.split(" | ");
    let bytes = bytes_of(alloc, columns.next().ok_or("bytes are missing")?)?;
    let plain = columns.next().ok_or("the copy is missing")?;
    let kept = columns.next().ok_or("the kept copy is missing")?;
    let tail = columns.next().ok_or("padding bytes are missing")?;
    let lens = columns.next().ok_or("lengths are missing")?;
    let packet = decode(&bytes)?;
    Ok(
        is_plain_copied(alloc, &packet, plain)?
            && is_kept_copied(alloc, &packet, kept, tail)?
            && tail_is(alloc, &packet, tail)?
            && has_lens(alloc, &packet, lens)?,
    )
}

#[test]
fn copies_are_the_packets(rt: HostRuntime) -> Result<(), Fail> {
    for row in COPIES.lines() {
        assert!(rt; is_copied(rt.alloc(), row)?, "{row}");
    }
    Ok(())
}

// A first byte, and whether it is of the kind of F8 (configuration 31, mono).
const KINDS: &[(u8, bool)] = &[(0xF8, true), (0xF9, true), (0xFC, false), (0xF0, false)];

fn is_same_kind(row: &(u8, bool)) -> bool {
    match (decode(&[row.0]), decode(&[0xF8])) {
        (Ok(packet), Ok(one)) => packet.same_kind(&one) == row.1,
        _ => false,
    }
}

#[test]
fn a_kind_is_a_configuration_and_its_channels(rt: HostRuntime) {
    assert!(rt; KINDS.iter().all(is_same_kind));
}
