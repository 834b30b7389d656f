//! Captures in pieces of 1, 3 and 4,096 bytes: each record with its packet, where it goes wrong, and its cut.

mod runs;

use crate::table::bytes_of;
use dump_records::{DumpForm, Found, Item};
use job_loop::Form;
use rec_store::DumpItem;
use std::alloc::Global;
use std::test::Fail;

// The sizes of the pieces in which a capture is fed.
const STEPS: [usize; 3] = [1, 3, 4096];

// No input here has more bytes.
const MOST: u64 = 1 << 20;

// A capture of address 10.0.0.5 and port 5004: its first line, the rest of its opening, and seven records, a line each,
// which begin at places 43, 67, 83, 118, 140, 160 and 184 and end at 206.
const CAPTURE: &str = "\
2321727470706C6179312E30 2031302E302E302E352F353030340A \
00000000 00000000 0A000005 138C 0000 \
0018 0010 00000000 806F03E8 00000000 1234ABCD FC010203 \
0010 0000 00000005 80C90001 1234ABCD \
0023 001B 00000028 916F03EA 00000780 1234ABCD 00000007 BEDE0001 10FF0000 FC0405 \
0016 000E 00000029 806F03E9 000003C0 1234ABCD FC06 \
0014 0010 0000003C 806F03EB 00000B40 1234ABCD \
0018 0010 00000050 A06F03EC 00000F00 1234ABCD FC080002 \
0016 000E 00000051 806F03EC 00000F00 1234ABCD FC09";

// An opening of 30 bytes without an address.
const OPENING: &str = "\
2321727470706C6179312E30 200A 00000000 00000000 00000000 0000 0000";

// The bytes of one of these two, or of a text in quotes.
fn front_of(alloc: Global, column: &str) -> Result<Vec<u8>, Fail> {
    match column {
        "CAPTURE" => bytes_of(alloc, CAPTURE),
        "OPENING" => bytes_of(alloc, OPENING),
        _ => {
            let opened = column.strip_prefix('\'').ok_or("a text has quotes")?;
            let text = opened.strip_suffix('\'').ok_or("a text has quotes")?;
            Ok(Vec::from_slice(alloc, text.as_bytes())?)
        }
    }
}

// Writes a record: the place where it ends, its kind and offset or what is wrong, and the bytes lent with it.
fn tell(told: &mut String, item: &Item, bytes: &[u8]) -> Result<(), Fail> {
    let place = item.place;
    match item.found {
        Found::Record(DumpItem { offset, kind }) => write!(told, "{place} {kind:?}({offset})")?,
        Found::Bad(fault) => write!(told, "{place} {fault:?}")?,
    }
    for byte in bytes {
        write!(told, " {byte:02X}")?;
    }
    told.push_str("; ")?;
    Ok(())
}

// Feeds a piece behind `at` bytes, and writes the record that it decides, which ends there. How many bytes the form took.
fn feed(form: &mut DumpForm, at: u64, piece: &[u8], told: &mut String) -> Result<usize, Fail> {
    if piece.is_empty() || piece.len() > 4096 || at > MOST {
        return Err("no piece is so long or so far behind".into());
    }
    let fed = form.feed(at, piece)?;
    if fed.whole {
        let lent = form.record(&piece[..fed.count]);
        if lent.item().place != at.saturating_add(fed.count as u64) {
            return Err("a record ends where it is decided".into());
        }
        tell(told, lent.item(), lent.bytes())?;
    }
    Ok(fed.count)
}

// Feeds the input in pieces of `step` bytes, and writes the records that they decide.
fn feed_all(form: &mut DumpForm, input: &[u8], step: usize, told: &mut String) -> Result<(), Fail> {
    let mut rest = input;
    let mut at: u64 = 0;
    for _ in 0..input.len() {
        if !rest.is_empty() {
            let count = feed(form, at, rest.get(..step).unwrap_or(rest), told)?;
            at = at.saturating_add(count as u64);
            rest = rest.get(count..).unwrap_or(&[]);
        }
    }
    if rest.is_empty() {
        Ok(())
    } else {
        Err("a form takes all of its input".into())
    }
}

// Writes how an input of `count` bytes is cut, if it is. Its end decides no record.
fn tell_end(form: &mut DumpForm, count: usize, told: &mut String) -> Result<(), Fail> {
    let close = form.end((count as u64).min(MOST));
    if close.whole {
        told.push_str("one more; ")?;
    }
    match close.cut {
        Some(fault) => write!(told, "{fault:?}")?,
        None => told.push_str("whole")?,
    }
    Ok(())
}

// What a form that was fed nothing says in pieces of `step` bytes.
fn says(alloc: Global, input: &[u8], step: usize, want: &str) -> Result<bool, Fail> {
    let mut form = DumpForm::new(alloc)?;
    let mut told = String::new(alloc);
    feed_all(&mut form, input, step, &mut told)?;
    tell_end(&mut form, input.len(), &mut told)?;
    Ok(told.as_str() == want)
}

// It says this in pieces of each size.
fn all_say(alloc: Global, input: &[u8], want: &str) -> Result<bool, Fail> {
    let mut all = true;
    for step in STEPS {
        all = all && says(alloc, input, step, want)?;
    }
    Ok(all)
}

// The records of the capture.
const RECORDS: &str = "\
67 Rtp(0) 80 6F 03 E8 00 00 00 00 12 34 AB CD FC 01 02 03
83 Rtcp(5) 80 C9 00 01 12 34 AB CD
118 Rtp(40) 91 6F 03 EA 00 00 07 80 12 34 AB CD 00 00 00 07 BE DE 00 01 10 FF 00 00 FC 04 05
140 Rtp(41) 80 6F 03 E9 00 00 03 C0 12 34 AB CD FC 06
160 Cut(60) 80 6F 03 EB 00 00 0B 40 12 34 AB CD
184 Rtp(80) A0 6F 03 EC 00 00 0F 00 12 34 AB CD FC 08 00 02
206 Rtp(81) 80 6F 03 EC 00 00 0F 00 12 34 AB CD FC 09
";

// Where the opening and each record end.
const ENDS: [usize; 8] = [43, 67, 83, 118, 140, 160, 184, 206];

// What is wanted of so many bytes of the capture: the records that end there or before, and a cut unless one ends there.
fn told_of_front(alloc: Global, count: usize) -> Result<String, Fail> {
    let whole = ENDS.iter().filter(|end| **end <= count).count();
    let mut told = String::new(alloc);
    for record in RECORDS.lines().take(whole.saturating_sub(1)) {
        write!(told, "{record}; ")?;
    }
    if ENDS.contains(&count) {
        told.push_str("whole")?;
    } else {
        write!(told, "StoreCut({count})")?;
    }
    Ok(told)
}

fn front_is_said(alloc: Global, count: usize) -> Result<bool, Fail> {
    let capture = bytes_of(alloc, CAPTURE)?;
    let front = capture.get(..count).ok_or("a front is no longer")?;
    all_say(alloc, front, told_of_front(alloc, count)?.as_str())
}

#[test]
fn each_front_of_a_capture_is_whole_or_cut(rt: HostRuntime) -> Result<(), Fail> {
    for count in 0..207usize {
        assert!(rt; front_is_said(rt.alloc(), count)?, "{count} bytes");
    }
    Ok(())
}

// The front of an input, how many times x stands behind it, and its last bytes; then its records and how it is cut.
const INPUTS: &str = "\
CAPTURE | 0 |  | \
67 Rtp(0) 80 6F 03 E8 00 00 00 00 12 34 AB CD FC 01 02 03; \
83 Rtcp(5) 80 C9 00 01 12 34 AB CD; \
118 Rtp(40) 91 6F 03 EA 00 00 07 80 12 34 AB CD 00 00 00 07 BE DE 00 01 10 FF 00 00 FC 04 05; \
140 Rtp(41) 80 6F 03 E9 00 00 03 C0 12 34 AB CD FC 06; \
160 Cut(60) 80 6F 03 EB 00 00 0B 40 12 34 AB CD; \
184 Rtp(80) A0 6F 03 EC 00 00 0F 00 12 34 AB CD FC 08 00 02; \
206 Rtp(81) 80 6F 03 EC 00 00 0F 00 12 34 AB CD FC 09; whole
# Records of each kind.
OPENING | 0 |  | whole
OPENING | 0 | 0008 0000 00000001 | 38 Rtcp(1); whole
OPENING | 0 | 0008 0005 00000002 | 38 Cut(2); whole
OPENING | 0 | 000B 0002 00000003 616263 | 41 Rtp(3) 61 62; whole
OPENING | 0 | 000B 0003 FFFFFFFF 616263 | 41 Rtp(4294967295) 61 62 63; whole
OPENING | 0 | 000B 0004 00000004 616263 | 41 Cut(4) 61 62 63; whole
OPENING | 0 | 000B 0000 00000005 616263 | 41 Rtcp(5) 61 62 63; whole
OPENING | 0 | 0007 | 32 DumpLength(30); whole
OPENING | 0 | 0000 | 32 DumpLength(30); whole
OPENING | 0 | 0007 0008 00000000 0008 000000000000 | 32 DumpLength(30); whole
OPENING | 0 | 0008 0000 00000001 0007 7A | 38 Rtcp(1); 40 DumpLength(38); whole
# First lines that go wrong at a byte.
'?' | 0 |  | 1 DumpLine(0); whole
'#!Atpplay1.0 /' | 0 | 0A | 3 DumpLine(2); whole
'#!rtpplay1.1 /' | 0 | 0A | 12 DumpLine(11); whole
'#!rtpplay1.0' | 0 | 0A | 13 DumpLine(12); whole
'#!rtpplay1.0_/' | 0 | 0A | 13 DumpLine(12); whole
# First lines of 256 bytes, the longest, and one of a byte more.
'#!rtpplay1.0 ' | 242 | 0A | StoreCut(256)
'#!rtpplay1.0 ' | 242 | 0A 00000000 00000000 00000000 0000 0000 | whole
'#!rtpplay1.0 ' | 243 | 0A | 256 DumpLine(255); whole
";

fn input_of(alloc: Global, columns: &str) -> Result<Vec<u8>, Fail> {
    let (front, rest) = columns.split_once(" | ").ok_or("an input has a front")?;
    let (fillers, last) = rest.split_once(" | ").ok_or("an input has last bytes")?;
    let mut input = front_of(alloc, front)?;
    for _ in 0..fillers.parse::<usize>()? {
        input.push(b'x')?;
    }
    input.extend_from_slice(&bytes_of(alloc, last)?)?;
    Ok(input)
}

fn is_said(alloc: Global, row: &str) -> Result<bool, Fail> {
    let (columns, want) = row.rsplit_once(" | ").ok_or("a row says what is wanted")?;
    all_say(alloc, &input_of(alloc, columns)?, want)
}

#[test]
fn records_and_faults_are_told(rt: HostRuntime) -> Result<(), Fail> {
    for row in INPUTS.lines() {
        if !row.starts_with('#') {
            assert!(rt; is_said(rt.alloc(), row)?, "{row}");
        }
    }
    Ok(())
}
