//! Stores read in pieces of any size, cut, past a limit and after a failed read; records and captures written.
use opus_io::{MemorySource, NoMemory, Reader, Source};
use rec_store::{
    DemoReader, StoreFault, StoreStop, demo_head, demo_record, dump_head, dump_record,
};
use std::alloc::{AllocError, Global};
use std::test::Fail;

// Takes heads and payloads up to the end of the store, and tells why it stopped before.
fn take_store<S: Source>(
    input: &mut Reader,
    source: &mut S,
    taken: &mut Vec<u8>,
) -> Result<Option<StoreStop>, AllocError> {
    let mut store = DemoReader::new();
    for _ in 0..1000 {
        if !store.live() {
            return Ok(None);
        }
        if store.left() == 0 {
            match store.next(input, source) {
                Ok(Some(head)) => taken.extend_from_slice(&demo_head(head.len, head.range))?,
                Ok(None) => return Ok(None),
                Err(stop) => return Ok(Some(stop)),
            }
            continue;
        }
        match DemoReader::piece(input, &store, source) {
            Ok(shown) => {
                let count = shown.len();
                taken.extend_from_slice(shown)?;
                store.pass(input, count);
            }
            Err(stop) => return Ok(Some(stop)),
        }
    }
    Ok(None)
}

const CUT: &[u8] = &[0, 0, 0, 3, 0, 0, 0, 0, 0xF8, 0xAA];

const TWO: &[u8] = &[0, 0, 0, 2, 0, 0, 0, 1, 0xF8, 0xAA, 0, 0, 0, 0, 0, 0, 0, 7];

const READ: Option<StoreStop> = Some(StoreStop::Read);

const LIMIT: Option<StoreStop> = Some(StoreStop::Limit);

const AT_7: Option<StoreStop> = Some(StoreStop::Fault(StoreFault::StoreCut(7)));

const AT_8: Option<StoreStop> = Some(StoreStop::Fault(StoreFault::StoreCut(8)));

const AT_10: Option<StoreStop> = Some(StoreStop::Fault(StoreFault::StoreCut(10)));

const AT_17: Option<StoreStop> = Some(StoreStop::Fault(StoreFault::StoreCut(17)));

// A store, how many of its bytes are there, the reader's limit, the steps of the source, the read that fails; why
// reading stops before the end, and how many bytes of records are taken.
type Row = (
    &'static [u8],
    usize,
    u64,
    &'static [usize],
    &'static [u64],
    Option<StoreStop>,
    usize,
);

const ROWS: &[Row] = &[
    (CUT, 10, 100, &[1, 4096], &[], AT_10, 10),
    (CUT, 8, 100, &[1, 4096], &[], AT_8, 8),
    (CUT, 7, 100, &[1, 4096], &[], AT_7, 0),
    (CUT, 0, 100, &[1, 4096], &[], None, 0),
    (TWO, 18, 18, &[1, 4096], &[], None, 18),
    (TWO, 18, 17, &[1, 4096], &[], LIMIT, 10),
    (TWO, 18, 9, &[1, 4096], &[], LIMIT, 9),
    (TWO, 17, 17, &[1, 4096], &[], AT_17, 10),
    // With one byte a read, a read is made only where the bytes before it decide nothing: not behind a whole record, or
    // the end.
    (CUT, 7, 100, &[1], &[8], READ, 0),
    (CUT, 7, 100, &[1], &[9], AT_7, 0),
    (CUT, 10, 100, &[1], &[11], READ, 10),
    (CUT, 10, 100, &[1], &[12], AT_10, 10),
    (TWO, 18, 100, &[1], &[11], READ, 10),
    (TWO, 18, 100, &[1], &[19], READ, 18),
    (TWO, 18, 100, &[1], &[20], None, 18),
];

fn is_read(alloc: Global, row: &Row, step: usize) -> Result<bool, Fail> {
    let bytes = row.0.get(..row.1).unwrap_or(&[]);
    let mut input = Reader::new(alloc, row.2.clamp(1, 100))?;
    let mut source = MemorySource::new(alloc, bytes, step.max(1), row.4)?;
    let mut taken = Vec::new(alloc);
    let end = take_store(&mut input, &mut source, &mut taken)?;
    Ok(end == row.5 && taken.len() == row.6 && bytes.starts_with(&taken))
}

fn is_read_by_all(alloc: Global, row: &Row) -> Result<bool, Fail> {
    let mut all = true;
    for step in row.3 {
        all = all && is_read(alloc, row, *step)?;
    }
    Ok(all)
}

#[test]
fn records_are_read_up_to_their_end(rt: HostRuntime) -> Result<(), Fail> {
    for row in ROWS {
        assert!(rt; is_read_by_all(rt.alloc(), row)?, "{row:?}");
    }
    Ok(())
}

// The first read takes three bytes of the head, and the second fails.
fn is_ended(alloc: Global) -> Result<bool, Fail> {
    let mut input = Reader::new(alloc, 100)?;
    let mut source = MemorySource::new(alloc, TWO, 3, &[2])?;
    let mut store = DemoReader::new();
    let stop = store.next(&mut input, &mut source);
    Ok(stop == Err(StoreStop::Read) && (input.passed(), store.live()) == (3, false))
}

#[test]
fn a_failed_read_ends_the_store(rt: HostRuntime) -> Result<(), Fail> {
    assert!(rt; is_ended(rt.alloc())?);
    Ok(())
}

// What is written: a record of a store with its range, the front of a capture, or a record of a capture with its
// offset, whose packet is the bytes and so many sevens.
#[derive(Clone, Copy, Debug)]
enum Written {
    Demo(u32, &'static [u8]),
    Head,
    Dump(u32, &'static [u8], usize),
}

// What is written, and the bytes and the sevens that are appended for it. The first records of a capture come 40
// milliseconds after each other; the last are the smallest packet, and the largest with the greatest offset.
const APPENDED: &[(Written, &[u8], usize)] = &[
    (
        Written::Demo(1, b"\xF8\xAA"),
        b"\0\0\0\x02\0\0\0\x01\xF8\xAA",
        0,
    ),
    (Written::Demo(7, b""), b"\0\0\0\0\0\0\0\x07", 0),
    (
        Written::Head,
        b"#!rtpplay1.0 0.0.0.0/0\n\0\0\0\0\0\0\0\0\0\0\0\0\0\0\0\0",
        0,
    ),
    (
        Written::Dump(0, b"\x80\x6F\xFF\xFF\xFF\xFF\xFE\xD8\0\0\0\x01\xF8\xAA", 0),
        b"\0\x16\0\x0E\0\0\0\0\x80\x6F\xFF\xFF\xFF\xFF\xFE\xD8\0\0\0\x01\xF8\xAA",
        0,
    ),
    (
        Written::Dump(40, b"\x80\x6F\0\x01\0\0\x06\x58\0\0\0\x01\xF8\xBB", 0),
        b"\0\x16\0\x0E\0\0\0\x28\x80\x6F\0\x01\0\0\x06\x58\0\0\0\x01\xF8\xBB",
        0,
    ),
    (Written::Dump(0, b"\x07", 0), b"\0\x09\0\x01\0\0\0\0\x07", 0),
    (
        Written::Dump(u32::MAX, b"", 65_527),
        b"\xFF\xFF\xFF\xF7\xFF\xFF\xFF\xFF",
        65_527,
    ),
];

// The bytes, and so many sevens.
fn with_sevens(alloc: Global, bytes: &[u8], sevens: usize) -> Result<Vec<u8>, AllocError> {
    let mut all = Vec::from_slice(alloc, bytes)?;
    for _ in 0..sevens {
        all.push(7)?;
    }
    Ok(all)
}

fn write(
    alloc: Global,
    written: Written,
    out: &mut Vec<u8>,
) -> Result<Result<(), NoMemory>, AllocError> {
    match written {
        Written::Demo(range, payload) if payload.len() < 100 => Ok(demo_record(
            range, payload, out,
        )),
        Written::Demo(_, _) => Ok(Err(NoMemory)),
        Written::Head => Ok(dump_head(out)),
        Written::Dump(offset, bytes, sevens) => {
            let packet = with_sevens(alloc, bytes, sevens)?;
            if packet.is_empty() || packet.len() > 65_527 {
                return Ok(Err(NoMemory));
            }
            Ok(dump_record(offset, &packet, out))
        }
    }
}

// Just these bytes are appended to those that are there.
fn is_appended(
    alloc: Global,
    row: &(Written, &[u8], usize),
    out: &mut Vec<u8>,
) -> Result<bool, Fail> {
    let mut expected = Vec::from_slice(alloc, out)?;
    expected.extend_from_slice(&with_sevens(alloc, row.1, row.2)?)?;
    let written = write(alloc, row.0, out)?;
    Ok(written == Ok(()) && *out == expected)
}

#[test]
fn records_are_appended(rt: HostRuntime) -> Result<(), Fail> {
    let mut out = Vec::from_slice(rt.alloc(), &[5])?;
    for row in APPENDED {
        assert!(rt; is_appended(rt.alloc(), row, &mut out)?, "{row:?}");
    }
    Ok(())
}
