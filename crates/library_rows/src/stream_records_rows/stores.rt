//! Stores of multistream packets.

use super::{DROP, STEPS, input_of, says};
use crate::table::bytes_of;
use std::alloc::Global;
use std::test::Fail;
use stream_records::DemoStreams;

// A packet, a lost one, one that is bad behind its second byte, and another packet.
const FOUR: &str = "\
00000005 00000009 F801AA F8BB \
00000000 00000007 \
00000004 00000000 FB00AABB \
00000005 00000002 F801AA F8CC";

const FOUR_RECORDS: &str = "\
8 13 9 Packets (0, 0, 3, 0) (0, 0, 2, 0) F8 01 AA F8 BB
21 21 7 Lost
29 31 0 Broken { stream: 0, start: 29, fault: Fault { rule: R5, place: 1 } }
41 46 2 Packets (0, 0, 3, 0) (0, 0, 2, 0) F8 01 AA F8 CC
";

// Stores of those four, of padding bytes that are kept, of streams that last unequally, and of a stream too few.
const ROWS: &str = "\
2 drop | \
00000005 00000009 F801AA F8BB \
00000000 00000007 \
00000004 00000000 FB00AABB \
00000005 00000002 F801AA F8CC | \
8 13 9 Packets (0, 0, 3, 0) (0, 0, 2, 0) F8 01 AA F8 BB; \
21 21 7 Lost; \
29 31 0 Broken { stream: 0, start: 29, fault: Fault { rule: R5, place: 1 } }; \
41 46 2 Packets (0, 0, 3, 0) (0, 0, 2, 0) F8 01 AA F8 CC; whole
2 keep | 00000009 00000001 FB410101AA00 FB01BB | \
8 17 1 Packets (3, 2, 6, 0) (3, 0, 3, 0) FB 41 01 01 AA 00 F8 BB; whole
2 drop | 00000005 00000000 F801AA F0BB 00000000 00000003 | \
8 13 0 Unequal { stream: 1, start: 11 }; \
21 21 3 Lost; whole
2 drop | 00000003 00000000 F801AA 00000005 00000002 F801AA F8CC | \
8 11 0 Broken { stream: 1, start: 11, fault: Fault { rule: R1, place: 0 } }; \
19 24 2 Packets (0, 0, 3, 0) (0, 0, 2, 0) F8 01 AA F8 CC; whole
";

fn is_said(alloc: Global, row: &str, step: usize) -> Result<bool, Fail> {
    let (columns, want) = row.rsplit_once(" | ").ok_or("a row says what is wanted")?;
    let input = input_of(alloc, columns)?;
    let mut form = DemoStreams::new(alloc, input.streams.max(1), input.padding)?;
    says(alloc, &mut form, &input.bytes, step, want)
}

#[test]
fn records_are_shown_with_their_streams(rt: HostRuntime) -> Result<(), Fail> {
    for row in ROWS.lines() {
        for step in STEPS {
            assert!(rt; is_said(rt.alloc(), row, step)?, "{row} by {step}");
        }
    }
    Ok(())
}

// How many of the four records are decided by so many bytes.
fn decided(count: usize) -> usize {
    [13, 21, 31, 46]
        .iter()
        .filter(|place| **place <= count)
        .count()
}

// What is wanted of so many bytes of the four: the records that are told, and the cut where the end isn't a record's.
fn told_of_front(alloc: Global, count: usize) -> Result<String, Fail> {
    let mut told = String::new(alloc);
    for record in FOUR_RECORDS.lines().take(decided(count)) {
        write!(told, "{record}; ")?;
    }
    if [0, 13, 21, 33, 46].contains(&count) {
        told.push_str("whole")?;
    } else {
        write!(told, "cut at {count}")?;
    }
    Ok(told)
}

fn is_cut(alloc: Global, count: usize, step: usize) -> Result<bool, Fail> {
    let four = bytes_of(alloc, FOUR)?;
    let front = four.get(..count).ok_or("a front is no longer")?;
    let want = told_of_front(alloc, count)?;
    let mut form = DemoStreams::new(alloc, 2, DROP)?;
    says(alloc, &mut form, front, step, want.as_str())
}

#[test]
fn a_store_is_cut_at_every_length(rt: HostRuntime) -> Result<(), Fail> {
    for count in 0..47usize {
        for step in STEPS {
            assert!(rt; is_cut(rt.alloc(), count, step)?, "{count} by {step}");
        }
    }
    Ok(())
}
