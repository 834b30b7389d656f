//! One multistream packet.

use super::{DROP, STEPS, input_of, says};
use crate::table::bytes_of;
use job_loop::Form;
use opus_multi::{MultiFault, decode_multi};
use pack_records::Cut;
use std::alloc::Global;
use std::test::Fail;
use stream_records::{RawStreams, StreamsFound, StreamsItem};

// Inputs that are one record, whatever the size of the pieces: the streams that read, and the first that doesn't. In the
// first two rows two streams last 20 ms, the first with a padding byte; in the fourth the second stream lasts 10 ms.
const ROWS: &str = "\
2 drop | FB410101AA00 FB01BB | 0 9 0 Packets (3, 2, 6, 1) (3, 0, 3, 0) F8 01 AA F8 BB; whole
2 keep | FB410101AA00 FB01BB | 0 9 0 Packets (3, 2, 6, 0) (3, 0, 3, 0) FB 41 01 01 AA 00 F8 BB; whole
1 drop | F8BB | 0 2 0 Packets (0, 0, 2, 0) F8 BB; whole
2 drop | F801AA F0BB | 0 5 0 Unequal { stream: 1, start: 3 }; whole
3 drop | F800 F000 E0BB | 0 6 0 Unequal { stream: 1, start: 2 }; whole
2 drop | F801AA | 0 3 0 Broken { stream: 1, start: 3, fault: Fault { rule: R1, place: 0 } }; whole
2 drop |  | 0 0 0 Broken { stream: 0, start: 0, fault: Fault { rule: Cut, place: 0 } }; whole
2 drop | F801AA F9BB | 0 5 0 Broken { stream: 1, start: 3, fault: Fault { rule: R3, place: 2 } }; whole
2 keep | F801AA FB00CCCC | 0 5 0 Broken { stream: 1, start: 3, fault: Fault { rule: R5, place: 1 } }; whole
3 drop | F800 F000 FB0701 | 0 6 0 Broken { stream: 2, start: 4, fault: Fault { rule: R5, place: 1 } }; whole
2 drop | FB00F8BB | 0 2 0 Broken { stream: 0, start: 0, fault: Fault { rule: R5, place: 1 } }; whole
3 drop | F801AA F801 | 0 5 0 Broken { stream: 1, start: 3, fault: Fault { rule: Cut, place: 2 } }; whole
";

fn is_said(alloc: Global, row: &str, step: usize) -> Result<bool, Fail> {
    let (columns, want) = row.rsplit_once(" | ").ok_or("a row says what is wanted")?;
    let input = input_of(alloc, columns)?;
    let mut form = RawStreams::new(alloc, input.streams.max(1), input.padding)?;
    says(alloc, &mut form, &input.bytes, step, want)
}

#[test]
fn the_whole_input_is_one_record(rt: HostRuntime) -> Result<(), Fail> {
    for row in ROWS.lines() {
        for step in STEPS {
            assert!(rt; is_said(rt.alloc(), row, step)?, "{row} by {step}");
        }
    }
    Ok(())
}

// Inputs of two streams, each of whose fronts is found as it is read where it lies.
const INPUTS: &str = "\
FB410101AA00 FB01BB
F801AA F8BB
F801AA F0BB
F801AA FB00
";

fn fault_of(found: StreamsFound) -> Option<MultiFault> {
    match found {
        StreamsFound::Broken { stream, fault, .. } => Some(MultiFault::Stream(stream, fault)),
        StreamsFound::Unequal { stream, .. } => Some(MultiFault::Unequal(stream)),
        _ => None,
    }
}

// What the form finds of a small input in one piece.
fn front_found<F: Form<Record = StreamsItem, Cut = Cut>>(
    form: &mut F,
    front: &[u8],
) -> Option<StreamsFound> {
    if !front.is_empty() && front.len() < 100 {
        let fed = form.feed(0, front).ok()?;
        if fed.whole {
            return Some(form.record(&front[..fed.count]).item().found);
        }
    }
    let close = form.end(front.len().min(100) as u64);
    if close.whole {
        Some(form.record(&[]).item().found)
    } else {
        None
    }
}

fn is_found(alloc: Global, front: &[u8]) -> Result<bool, Fail> {
    let mut form = RawStreams::new(alloc, 2, DROP)?;
    let found = front_found(&mut form, front).ok_or("a front is one record")?;
    let told = format!(in alloc; "{:?}", fault_of(found))?;
    let want = format!(in alloc; "{:?}", decode_multi(alloc, front, 2).err())?;
    Ok(told.as_str() == want.as_str())
}

// The input's fronts of each length are found as they are read.
fn are_found(alloc: Global, row: &str) -> Result<bool, Fail> {
    let input = bytes_of(alloc, row)?;
    let mut all = true;
    for count in 0..=input.len() {
        all = all && is_found(alloc, input.get(..count).unwrap_or(&[]))?;
    }
    Ok(all)
}

#[test]
fn each_front_is_found_as_it_is_read_where_it_lies(rt: HostRuntime) -> Result<(), Fail> {
    for row in INPUTS.lines() {
        assert!(rt; are_found(rt.alloc(), row)?, "{row}");
    }
    Ok(())
}
