//! Captures read in pieces of any size, cut, gone wrong, past a limit and after a failed read.
use crate::table::bytes_of;
use opus_io::{MemorySource, Reader, Source};
use rec_store::{DumpReader, StoreStop};
use std::alloc::Global;
use std::test::Fail;

const STEPS: &[usize] = &[1, 3, 4096];

// A capture of address 10.0.0.5 and port 5004 with three records, which begin at places 43, 67 and 83 and end at 107:
// an RTP packet and two bytes behind it, RTCP, and a cut packet.
const CAPTURE: &[u8] = b"#!rtpplay1.0 10.0.0.5/5004\n\0\0\0\x07\0\0\0\x09\x0A\0\0\x05\x13\x8C\0\0\
\0\x18\0\x0E\0\0\0\0\x80\x6F\x03\xE8\0\0\0\0\x12\x34\xAB\xCD\xFC\x01\x02\x03\
\0\x10\0\0\0\0\0\x05\x80\xC9\0\x01\x12\x34\xAB\xCD\
\0\x18\0\x11\xFF\xFF\xFF\xFF\x80\x6F\x03\xEB\0\0\x0B\x40\x12\x34\xAB\xCD\xFC\x01\x02\x03";

// What `start` answers: the address is 0x0A000005.
const HEAD: &str = "Ok(DumpHead { seconds: 7, micros: 9, address: 167772165, port: 5004 })";

// What `next` answers, and the packet's bytes: three records and the end.
const RECORDS: &str = "\
Ok(Some(DumpItem { offset: 0, kind: Rtp })) | 806F03E8 00000000 1234ABCD FC01
Ok(Some(DumpItem { offset: 5, kind: Rtcp })) | 80C90001 1234ABCD
Ok(Some(DumpItem { offset: 4294967295, kind: Cut })) | 806F03EB 00000B40 1234ABCD FC010203
Ok(None) |
";

// The next answer in words, and whether one may be asked for.
fn next_of(
    alloc: Global,
    capture: &mut DumpReader,
    input: &mut Reader,
    source: &mut MemorySource,
    packet: &mut Vec<u8>,
) -> Result<String, Fail> {
    if !(capture.started() && capture.live()) {
        return Ok(String::from_str(alloc, "not live")?);
    }
    let answer = capture.next(input, source, packet);
    Ok(format!(in alloc; "{answer:?}")?)
}

fn is_told(alloc: Global, row: &str, answer: &str, packet: &[u8]) -> Result<bool, Fail> {
    let (want, hex) = row.split_once(" |").ok_or("a row has two parts")?;
    Ok(answer == want && packet == bytes_of(alloc, hex.trim())?.as_slice())
}

fn gives_all(
    alloc: Global,
    capture: &mut DumpReader,
    input: &mut Reader,
    source: &mut MemorySource,
) -> Result<bool, Fail> {
    let mut packet = Vec::from_slice(alloc, &[1, 2, 3])?;
    for row in RECORDS.lines() {
        let answer = next_of(alloc, capture, input, source, &mut packet)?;
        if !is_told(alloc, row, answer.as_str(), &packet)? {
            return Ok(false);
        }
    }
    Ok(capture.live())
}

fn is_capture_read(alloc: Global, step: usize) -> Result<bool, Fail> {
    let mut input = Reader::new(alloc, 107)?;
    let mut source = MemorySource::new(alloc, CAPTURE, step.max(1), &[])?;
    let mut capture = DumpReader::new();
    let head = capture.start(&mut input, &mut source);
    let told = format!(in alloc; "{head:?}")?;
    let all = gives_all(alloc, &mut capture, &mut input, &mut source)?;
    Ok(told.as_str() == HEAD && all && input.passed() == 107)
}

#[test]
fn a_capture_is_read(rt: HostRuntime) -> Result<(), Fail> {
    for step in STEPS {
        assert!(rt; is_capture_read(rt.alloc(), *step)?, "{step}");
    }
    Ok(())
}

// An opening of 30 bytes without an address, and a length of 7 behind it.
const SHORT: &[u8] = b"#!rtpplay1.0 \n\0\0\0\0\0\0\0\0\0\0\0\0\0\0\0\0\0\x07zz";

const WRONG: &[u8] = b"#!Atpplay1.0 \n";

// A capture, how many of its bytes are there, and the sevens of a further record, 0 for no such record; the reader's
// limit, the steps of the source and the read that fails, if one does; why reading stops before the end, how many
// records are read and how many bytes passed.
const ROWS: &str = "\
CAPTURE 107 0 | 200 | 1 3 4096 | - => None, 3, 107
CAPTURE 0 0 | 200 | 1 3 4096 | - => Some(Fault(StoreCut(0))), 0, 0
CAPTURE 26 0 | 200 | 1 3 4096 | - => Some(Fault(StoreCut(26))), 0, 26
CAPTURE 42 0 | 200 | 1 3 4096 | - => Some(Fault(StoreCut(42))), 0, 42
CAPTURE 43 0 | 200 | 1 3 4096 | - => None, 0, 43
CAPTURE 44 0 | 200 | 1 3 4096 | - => Some(Fault(StoreCut(44))), 0, 44
CAPTURE 50 0 | 200 | 1 3 4096 | - => Some(Fault(StoreCut(50))), 0, 50
CAPTURE 66 0 | 200 | 1 3 4096 | - => Some(Fault(StoreCut(66))), 0, 66
CAPTURE 75 0 | 200 | 1 3 4096 | - => Some(Fault(StoreCut(75))), 1, 75
CAPTURE 107 0 | 106 | 1 3 4096 | - => Some(Limit), 2, 106
CAPTURE 107 0 | 42 | 1 3 4096 | - => Some(Limit), 0, 42
CAPTURE 107 0 | 20 | 1 3 4096 | - => Some(Limit), 0, 20
WRONG 14 0 | 200 | 1 3 4096 | - => Some(Fault(DumpLine(2))), 0, 3
WRONG 14 0 | 3 | 1 3 4096 | - => Some(Fault(DumpLine(2))), 0, 3
WRONG 14 0 | 2 | 1 3 4096 | - => Some(Limit), 0, 2
SHORT 34 0 | 200 | 1 3 4096 | - => Some(Fault(DumpLength(30))), 0, 32
SHORT 34 0 | 32 | 1 3 4096 | - => Some(Fault(DumpLength(30))), 0, 32
# With one byte a read, a read is made only where the bytes before it decide nothing: not behind a record that is
# whole, a fault, or the end.
CAPTURE 107 0 | 200 | 1 | 1 => Some(Read), 0, 0
CAPTURE 107 0 | 200 | 1 | 43 => Some(Read), 0, 42
CAPTURE 107 0 | 200 | 1 | 44 => Some(Read), 0, 43
CAPTURE 107 0 | 200 | 1 | 67 => Some(Read), 0, 66
CAPTURE 107 0 | 200 | 1 | 68 => Some(Read), 1, 67
CAPTURE 107 0 | 200 | 1 | 108 => Some(Read), 3, 107
CAPTURE 107 0 | 200 | 1 | 109 => None, 3, 107
WRONG 14 0 | 200 | 1 | 3 => Some(Read), 0, 2
WRONG 14 0 | 200 | 1 | 4 => Some(Fault(DumpLine(2))), 0, 3
SHORT 34 0 | 200 | 1 | 32 => Some(Read), 0, 31
SHORT 34 0 | 200 | 1 | 33 => Some(Fault(DumpLength(30))), 0, 32
CAPTURE 20 0 | 200 | 1 | 21 => Some(Read), 0, 20
CAPTURE 20 0 | 200 | 1 | 22 => Some(Fault(StoreCut(20))), 0, 20
CAPTURE 30 0 | 200 | 1 | 32 => Some(Fault(StoreCut(30))), 0, 30
CAPTURE 44 0 | 200 | 1 | 46 => Some(Fault(StoreCut(44))), 0, 44
CAPTURE 60 0 | 200 | 1 | 62 => Some(Fault(StoreCut(60))), 0, 60
# A capture whose only record has 65,535 bytes.
CAPTURE 43 65527 | 70000 | 4096 | - => None, 1, 65578
";

// Reads a capture to its end or up to a stop: why it stopped, how many records were read and how many bytes passed.
fn read_all<S: Source>(
    alloc: Global,
    input: &mut Reader,
    source: &mut S,
) -> (Option<StoreStop>, usize, u64) {
    let mut capture = DumpReader::new();
    let mut packet = Vec::new(alloc);
    if let Err(stop) = capture.start(input, source) {
        return (Some(stop), 0, input.passed());
    }
    for count in 0..100usize {
        if !(capture.started() && capture.live()) {
            break;
        }
        match capture.next(input, source, &mut packet) {
            Ok(Some(_)) => {}
            Ok(None) => return (None, count, input.passed()),
            Err(stop) => return (Some(stop), count, input.passed()),
        }
    }
    (None, 100, 0)
}

// Where a capture is read from.
#[derive(Drop)]
struct Case<'a> {
    bytes: Vec<u8>,
    limit: u64,
    steps: &'a str,
    fails: Vec<u64>,
}

fn case_of<'a>(alloc: Global, text: &'a str) -> Result<Case<'a>, Fail> {
    let mut columns = text.split(" | ");
    let capture = columns.next().ok_or("a capture is missing")?;
    let limit = columns.next().ok_or("a limit is missing")?;
    let steps = columns.next().ok_or("steps are missing")?;
    let fails = columns.next().ok_or("failing reads are missing")?;
    Ok(Case {
        bytes: capture_of(alloc, capture)?,
        limit: limit.parse()?,
        steps,
        fails: fails_of(alloc, fails)?,
    })
}

fn capture_of(alloc: Global, text: &str) -> Result<Vec<u8>, Fail> {
    let mut words = text.split(' ');
    let whole = named(words.next().ok_or("a name is missing")?)?;
    let size = words.next().ok_or("a size is missing")?.parse::<usize>()?;
    let sevens = words
        .next()
        .ok_or("a count of sevens is missing")?
        .parse::<usize>()?;
    let mut bytes = Vec::from_slice(alloc, whole.get(..size).ok_or("too large a size")?)?;
    if sevens > 0 {
        bytes.extend_from_slice(b"\xFF\xFF\xFF\xF7\0\0\0\0")?;
    }
    for _ in 0..sevens {
        bytes.push(7)?;
    }
    Ok(bytes)
}

fn named(name: &str) -> Result<&'static [u8], Fail> {
    match name {
        "CAPTURE" => Ok(CAPTURE),
        "SHORT" => Ok(SHORT),
        "WRONG" => Ok(WRONG),
        _ => Err(Fail::from("no such capture")),
    }
}

fn fails_of(alloc: Global, text: &str) -> Result<Vec<u64>, Fail> {
    let mut fails = Vec::new(alloc);
    if text != "-" {
        fails.push(text.parse()?)?;
    }
    Ok(fails)
}

// Why reading stops, how many records are read and how many bytes passed, in words.
fn told(alloc: Global, case: &Case<'_>, step: usize) -> Result<String, Fail> {
    let mut input = Reader::new(alloc, case.limit.clamp(1, 1 << 40))?;
    let mut source = MemorySource::new(alloc, &case.bytes, step.max(1), &case.fails)?;
    let (stop, records, passed) = read_all(alloc, &mut input, &mut source);
    Ok(format!(in alloc; "{stop:?}, {records}, {passed}")?)
}

fn is_read_by_all(alloc: Global, row: &str) -> Result<bool, Fail> {
    let (text, want) = row.split_once(" => ").ok_or("a row has two parts")?;
    let case = case_of(alloc, text)?;
    for step in case.steps.split(' ') {
        if told(alloc, &case, step.parse()?)?.as_str() != want {
            return Ok(false);
        }
    }
    Ok(true)
}

#[test]
fn records_are_read_up_to_their_end(rt: HostRuntime) -> Result<(), Fail> {
    for row in ROWS.lines() {
        if !row.starts_with('#') {
            assert!(rt; is_read_by_all(rt.alloc(), row)?, "{row}");
        }
    }
    Ok(())
}
