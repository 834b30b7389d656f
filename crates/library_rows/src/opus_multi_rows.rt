//! Multistream packets with their answers.
use crate::table::bytes_of;
use opus_multi::{MultiFault, Part, decode_multi, join, write_multi, write_multi_kept};
use opus_packet::{Fault, Held, Rule, Tail, decode};
use std::alloc::Global;
use std::test::Fail;

/// What is said of bytes: that all streams read, or the first that doesn't, with its fault, or the first that lasts
/// other than stream 0.
#[derive(Clone, Copy, Debug)]
pub(crate) enum Answer {
    Reads,
    Broken(u8, Rule, u64),
    Unequal(u8),
}

/// The same as a result, with the number of streams.
pub(crate) fn result_of(streams: u8, answer: Answer) -> Result<usize, MultiFault> {
    match answer {
        Answer::Reads => Ok(usize::from(streams)),
        Answer::Broken(stream, rule, place) => {
            Err(MultiFault::Stream(stream, Fault { rule, place }))
        }
        Answer::Unequal(stream) => Err(MultiFault::Unequal(stream)),
    }
}

/// Bytes, the number of streams, and what is said.
pub(crate) type Row = (&'static [u8], u8, Answer);

pub(crate) const ROWS: &[Row] = &[
    (&[0xF8, 1, 0xAA, 0xF8, 0xBB], 2, Answer::Reads),
    (&[0xF8, 0xBB], 1, Answer::Reads),
    (
        &[0xFB, 0x41, 1, 1, 0xAA, 0, 0xFB, 1, 0xBB],
        2,
        Answer::Reads,
    ),
    (&[0xF8, 0, 0xF8, 0, 0xF8, 0xBB], 3, Answer::Reads),
    (&[0xF8, 1, 0xAA, 0xF8], 2, Answer::Reads),
    (&[], 2, Answer::Broken(0, Rule::Cut, 0)),
    (&[0xF8], 2, Answer::Broken(0, Rule::Cut, 1)),
    (&[0xF8, 1], 2, Answer::Broken(0, Rule::Cut, 2)),
    (&[0xF8, 1, 0xAA], 2, Answer::Broken(1, Rule::R1, 0)),
    (&[], 1, Answer::Broken(0, Rule::R1, 0)),
    (
        &[0xF8, 1, 0xAA, 0xF9, 0xBB],
        2,
        Answer::Broken(1, Rule::R3, 2),
    ),
    (&[0xF8, 1, 0xAA, 0xFB, 0], 2, Answer::Broken(1, Rule::R5, 1)),
    (
        &[0xF8, 1, 0xAA, 0xF8, 1],
        3,
        Answer::Broken(1, Rule::Cut, 2),
    ),
    (
        &[0xF8, 0, 0xF0, 0, 0xF9, 0xBB],
        3,
        Answer::Broken(2, Rule::R3, 2),
    ),
    (&[0xF8, 0, 0xF0, 0, 0xFB], 3, Answer::Broken(2, Rule::R6, 1)),
    (
        &[0xF8, 0, 0xF0, 0, 0xFB, 7],
        3,
        Answer::Broken(2, Rule::R5, 1),
    ),
    (&[0xF8, 1, 0xAA, 0xF0, 0xBB], 2, Answer::Unequal(1)),
    (&[0xF8, 0, 0xF0, 0, 0xF8, 0xBB], 3, Answer::Unequal(1)),
    (&[0xF8, 0, 0xF8, 0, 0xF0, 0xBB], 3, Answer::Unequal(2)),
    (&[0xF8, 0, 0xF0, 0, 0xE0, 0xBB], 3, Answer::Unequal(1)),
];

// What is said of so many streams: how many there are, or the fault.
fn said(alloc: Global, bytes: &[u8], streams: u8) -> Result<String, Fail> {
    if streams == 0 {
        return Ok(String::from_str(alloc, "no streams")?);
    }
    match decode_multi(alloc, bytes, streams) {
        Ok(multi) => Ok(format!(in alloc; "Ok({})", multi.count())?),
        Err(fault) => Ok(format!(in alloc; "Err({fault:?})")?),
    }
}

fn is_said(alloc: Global, row: &Row) -> Result<bool, Fail> {
    let want = result_of(row.1, row.2);
    let want = format!(in alloc; "{want:?}")?;
    Ok(said(alloc, row.0, row.1)?.as_str() == want.as_str())
}

#[test]
fn all_streams_are_read_or_the_first_fault_is_told(rt: HostRuntime) -> Result<(), Fail> {
    for row in ROWS {
        assert!(rt; is_said(rt.alloc(), row)?, "{row:?}");
    }
    Ok(())
}

// Of 254 empty self-delimited packets and one undelimited packet of one byte: how many bytes there are, places whose
// first byte says 10 ms, and what is said.
const MANY: &str = "\
509 = Ok(255)
509 508 = Err(Unequal(254))
509 508 254 = Err(Unequal(127))
508 508 254 = Err(Stream(254, Fault { rule: R1, place: 0 }))
";

// The bytes of a text such as `509 508 254`.
fn of_255_streams(alloc: Global, text: &str) -> Result<Vec<u8>, Fail> {
    let mut numbers = text.split(' ');
    let size = numbers.next().ok_or("a size is missing")?.parse::<usize>()?;
    let mut bytes = Vec::new(alloc);
    for _ in 0..254 {
        bytes.extend_from_slice(&[0xF8, 0])?;
    }
    bytes.push(0xF8)?;
    for number in numbers {
        let toc = bytes.get_mut(number.parse::<usize>()?);
        *toc.ok_or("no such place")? = 0xF0;
    }
    bytes.truncate(size);
    Ok(bytes)
}

fn is_said_of_255(alloc: Global, row: &str) -> Result<bool, Fail> {
    let (text, want) = row.split_once(" = ").ok_or("a row has two parts")?;
    let bytes = of_255_streams(alloc, text)?;
    Ok(said(alloc, &bytes, 255)?.as_str() == want)
}

#[test]
fn each_of_255_streams_is_read(rt: HostRuntime) -> Result<(), Fail> {
    for row in MANY.lines() {
        assert!(rt; is_said_of_255(rt.alloc(), row)?, "{row}");
    }
    Ok(())
}

// Bytes of two streams, a stream's number, its size, its frames in one, and its padding bytes.
const STREAMS: &str = "\
FB 41 01 01 AA 00 FB 01 BB | 0 = 6, frames [170], padding [0]
FB 41 01 01 AA 00 FB 01 BB | 1 = 3, frames [187], padding []
F8 01 AA F8 | 0 = 3, frames [170], padding []
F8 01 AA F8 | 1 = 1, frames [], padding []
";

fn stream_of(alloc: Global, bytes: &[u8], number: usize) -> Result<String, Fail> {
    let multi = decode_multi(alloc, bytes, 2)?;
    if multi.count() <= number {
        return Ok(String::from_str(alloc, "no such stream")?);
    }
    let packet = multi.stream(number);
    let (size, body) = (packet.size(), packet.body());
    match packet.tail() {
        Tail::Bytes(tail) => { Ok(format!(in alloc; "{size}, frames {body:?}, padding {tail:?}")?) }
        Tail::Dropped(count) => Ok(format!(in alloc; "{size}, dropped {count}")?),
    }
}

fn is_stream(alloc: Global, row: &str) -> Result<bool, Fail> {
    let (text, want) = row.split_once(" = ").ok_or("a row has two parts")?;
    let (hex, number) = text.split_once(" | ").ok_or("a stream is missing")?;
    let bytes = bytes_of(alloc, hex)?;
    Ok(stream_of(alloc, &bytes, number.parse()?)?.as_str() == want)
}

#[test]
fn each_stream_is_its_packet(rt: HostRuntime) -> Result<(), Fail> {
    for row in STREAMS.lines() {
        assert!(rt; is_stream(rt.alloc(), row)?, "{row}");
    }
    Ok(())
}

// Packets, each with a comma behind it; what is said; and their multistream packet behind a byte that stands there, or
// that byte alone.
const JOINS: &str = "\
F8 AA, = Ok(()) | 07 F8 AA
 = Err(NoParts) | 07
F8 AA, F8 BB, = Ok(()) | 07 F8 01 AA F8 BB
F8, F0, = Err(Unequal(1)) | 07
F8, FB 01, F0, F8, = Err(Unequal(2)) | 07
F8, F8, F1, = Ok(()) | 07 F8 00 F8 00 F1
";

fn parts_of(alloc: Global, text: &str) -> Result<Vec<Held>, Fail> {
    let mut parts = Vec::new(alloc);
    for hex in text.split_terminator(',') {
        let bytes = bytes_of(alloc, hex.trim())?;
        parts.push(Held::copy(alloc, &decode(&bytes)?)?)?;
    }
    Ok(parts)
}

fn is_joined(alloc: Global, row: &str) -> Result<bool, Fail> {
    let (text, answer) = row.split_once(" = ").ok_or("a row has two parts")?;
    let (want, hex) = answer.split_once(" | ").ok_or("bytes are missing")?;
    let parts = parts_of(alloc, text)?;
    let mut out = Vec::from_slice(alloc, &[7])?;
    let said = join(&parts, &mut out);
    let bytes = bytes_of(alloc, hex)?;
    Ok(format!(in alloc; "{said:?}")?.as_str() == want && out.as_slice() == bytes.as_slice())
}

// The canonical and the kept form of the first stream of these bytes alone.
fn rewritten(alloc: Global, bytes: &[u8]) -> Result<(Vec<u8>, Vec<u8>), Fail> {
    let mut canonical = Vec::new(alloc);
    let mut kept = Vec::new(alloc);
    if let Ok(multi) = decode_multi(alloc, bytes, 1) {
        let part = Part::copy(alloc, multi.stream(0))?;
        let whole = part.dropped == 0;
        let parts = [part];
        write_multi(&parts, &mut canonical)?;
        if whole {
            write_multi_kept(&parts, &mut kept)?;
        }
    }
    Ok((canonical, kept))
}

fn writes_what_was_read(alloc: Global) -> Result<bool, Fail> {
    let (canonical, kept) = rewritten(alloc, &[0xFB, 0x42, 2, 0xCC, 0xDD, 7, 9])?;
    Ok(
        canonical.as_slice() == [0xF9, 0xCC, 0xDD].as_slice()
            && kept.as_slice() == [0xFB, 0x42, 2, 0xCC, 0xDD, 7, 9].as_slice(),
    )
}

#[test]
fn packets_are_joined_and_written_again(rt: HostRuntime) -> Result<(), Fail> {
    for row in JOINS.lines() {
        assert!(rt; is_joined(rt.alloc(), row)?, "{row}");
    }
    assert!(rt; writes_what_was_read(rt.alloc())?);
    Ok(())
}
