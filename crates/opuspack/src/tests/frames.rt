//! Packets of up to 120 ms, merged and split.
use super::is_met;
use super::table::{bytes_of, columns, is_row};
use std::alloc::Global;
use std::test::Fail;

// Words, the records of a store, and what becomes of them: so many records that begin so, with so many frames of a byte
// behind it each. As many frames as last 120 ms, with one more record behind them too; and 48 frames of 2.5 ms, which
// last as long, in pieces of any size.
const ROWS: &str = r"
merge | 48 * 00000002 00000000 80 + 1 | 1 * 00000032 00000000 8330 + 48
merge --group 48 | 49 * 00000002 00000000 80 + 1 | 1 * 00000032 00000000 8330 + 48, 1 * 00000002 00000000 80 + 1
merge | 24 * 00000002 00000000 88 + 1 | 1 * 0000001a 00000000 8b18 + 24
merge --group 24 | 25 * 00000002 00000000 88 + 1 | 1 * 0000001a 00000000 8b18 + 24, 1 * 00000002 00000000 88 + 1
merge | 12 * 00000002 00000000 90 + 1 | 1 * 0000000e 00000000 930c + 12
merge --group 12 | 13 * 00000002 00000000 90 + 1 | 1 * 0000000e 00000000 930c + 12, 1 * 00000002 00000000 90 + 1
merge | 6 * 00000002 00000000 f8 + 1 | 1 * 00000008 00000000 fb06 + 6
merge --group 6 | 7 * 00000002 00000000 f8 + 1 | 1 * 00000008 00000000 fb06 + 6, 1 * 00000002 00000000 f8 + 1
merge | 3 * 00000002 00000000 10 + 1 | 1 * 00000005 00000000 1303 + 3
merge --group 3 | 4 * 00000002 00000000 10 + 1 | 1 * 00000005 00000000 1303 + 3, 1 * 00000002 00000000 10 + 1
merge | 2 * 00000002 00000000 18 + 1 | 1 * 00000003 00000000 19 + 2
merge --group 2 | 3 * 00000002 00000000 18 + 1 | 1 * 00000003 00000000 19 + 2, 1 * 00000002 00000000 18 + 1
split --frames 1 | 1 * 00000032 00000007 e330 + 48 | 47 * 00000002 00000000 e0 + 1, 1 * 00000002 00000007 e0 + 1
split --frames 5 | 1 * 00000032 00000007 e330 + 48 | 9 * 00000007 00000000 e305 + 5, 1 * 00000005 00000007 e303 + 3
split --frames 47 | 1 * 00000032 00000007 e330 + 48 | 1 * 00000031 00000000 e32f + 47, 1 * 00000002 00000007 e0 + 1
split --frames 48 | 1 * 00000032 00000007 e330 + 48 | 1 * 00000032 00000007 e330 + 48
";

// A store of such records, whose frames are the bytes 0, 1, 2, ..
fn store_of(alloc: Global, records: &str) -> Result<Vec<u8>, Fail> {
    let mut store = Vec::new(alloc);
    let mut frame = 0;
    for alike in records.split(',') {
        let (times, record) = alike.split_once('*').ok_or("how many records")?;
        let (front, count) = record.split_once('+').ok_or("how many frames")?;
        let front = bytes_of(alloc, front)?;
        let count = number(count)?;
        for _ in 0..number(times)? {
            store.extend_from_slice(&front)?;
            push_frames(&mut store, frame, count)?;
            frame = frame.saturating_add(count);
        }
    }
    Ok(store)
}

fn number(text: &str) -> Result<u8, Fail> {
    Ok(text.trim().parse().map_err(|_| "no number")?)
}

// So many frames, which count on from the first.
fn push_frames(store: &mut Vec<u8>, first: u8, count: u8) -> Result<(), Fail> {
    for place in 0..count {
        store.push(first.saturating_add(place))?;
    }
    Ok(())
}

fn is_regrouped(alloc: Global, line: &str) -> Result<bool, Fail> {
    let columns = columns(alloc, line)?;
    let [words, input, output] = columns.as_slice() else {
        return Err(Fail::from("a row has three columns"));
    };
    let input = store_of(alloc, input)?;
    let output = store_of(alloc, output)?;
    is_met(alloc, &(*words, input.as_slice(), output.as_slice(), ""))
}

#[test]
fn regroups_packets_up_to_120_milliseconds(rt: HostRuntime) -> Result<(), Fail> {
    for row in ROWS.lines().filter(|line| is_row(line)) {
        assert!(rt; is_regrouped(rt.alloc(), row)?, "{row}");
    }
    Ok(())
}
