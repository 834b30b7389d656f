//! recv and replay over small captures: the same rows for both jobs, and each read failing in turn.
ghost use Rattle.net_jobs.specs.NetEnds.{IsNetJob};

use crate::pack_jobs_rows::{
    LIMIT, Long, Parts, Refused, Run, Way, ending, ends_so, is_long, joined,
};
use job_ends::Task;
use net_jobs::{Telling, net_job};
use opus_io::{MemorySink, MemorySource};
use opus_words::{Ending, Job, JobKind};
use std::alloc::Global;
use std::test::Fail;

// recv or replay, with a payload type and a source if they are asked for.
#[derive(Clone, Copy, Debug)]
struct Receiving(Telling, Option<u8>, Option<u32>);

fn job(work: &Receiving) -> Job
    ensures { IsNetJob result }
{
    Job {
        kind: match work.0 {
            Telling::Store => JobKind::Recv,
            Telling::Lines => JobKind::Replay,
        },
        form: None,
        streams: None,
        stream: None,
        group: None,
        frames: None,
        size: None,
        pt: work.1.map(|pt| pt % 128),
        seq: None,
        stamp: None,
        ssrc: work.2,
        seed: None,
        count: None,
        padding: None,
    }
}

impl Run for Receiving {
    fn run(
        &self,
        alloc: Global,
        limit: u64,
        source: &mut MemorySource,
        sink: &mut MemorySink,
    ) -> Ending {
        let limit = limit.clamp(1, LIMIT);
        let job = job(self);
        let task = Task {
            alloc,
            job: &job,
            limit,
        };
        net_job(task, source, sink)
    }
}

// A capture comes in pieces, and what is written goes at once.
const IN_PIECES: Way<'static> = (LIMIT, &[(1, 4096), (3, 4096), (4096, 4096)], &[], &[]);

// A capture is a line and a head of 43 bytes, and then records.
const OPENING: &[u8] = b"#!rtpplay1.0 10.0.0.5/5004\n\0\0\0\0\0\0\0\0\x0A\0\0\x05\x13\x8C\0\0";

// Another first line: its third byte differs.
const OTHER_OPENING: &[u8] =
    b"#!Atpplay1.0 10.0.0.5/5004\n\0\0\0\0\0\0\0\0\x0A\0\0\x05\x13\x8C\0\0";

const FIRST: &[u8] =
    b"\0\x18\0\x10\0\0\0\0\x80\x6F\x03\xE8\0\0\0\0\x12\x34\xAB\xCD\xFC\x01\x02\x03";

// Packets 1000 to 1004 of payload type 111 and source 1234ABCD: the second is RTCP, the fifth was cut, and the last is
// a repeat.
const STREAM: &[&[u8]] = &[
    FIRST,
    b"\0\x10\0\0\0\0\0\x05\x80\xC9\0\x01\x12\x34\xAB\xCD",
    b"\0\x23\0\x1B\0\0\0\x28\x91\x6F\x03\xEA\0\0\x07\x80\x12\x34\xAB\xCD\0\0\0\x07\xBE\xDE\0\x01\
    \x10\xFF\0\0\xFC\x04\x05",
    b"\0\x16\0\x0E\0\0\0\x29\x80\x6F\x03\xE9\0\0\x03\xC0\x12\x34\xAB\xCD\xFC\x06",
    b"\0\x14\0\x10\0\0\0\x3C\x80\x6F\x03\xEB\0\0\x0B\x40\x12\x34\xAB\xCD",
    b"\0\x18\0\x10\0\0\0\x50\xA0\x6F\x03\xEC\0\0\x0F\0\x12\x34\xAB\xCD\xFC\x08\0\x02",
    b"\0\x16\0\x0E\0\0\0\x51\x80\x6F\x03\xEC\0\0\x0F\0\x12\x34\xAB\xCD\xFC\x09",
];

const STREAM_LINES: &[u8] = b"packet 1000 stamp 0 bytes 4\n\
    packet 1001 stamp 960 bytes 2\n\
    packet 1002 stamp 1920 bytes 3\n\
    gap 1003 count 1\n\
    packet 1004 stamp 3840 bytes 2\n\
    records 7 rtcp 1 cut 1 bad 0 other 0 repeats 1 packets 4 missing 1\n";

const STREAM_STORE: &[u8] =
    b"\0\0\0\x04\0\0\0\0\xFC\x01\x02\x03\0\0\0\x02\0\0\0\0\xFC\x06\0\0\0\x03\0\0\0\0\xFC\x04\x05\
    \0\0\0\0\0\0\0\0\0\0\0\x02\0\0\0\0\xFC\x08";

const ALL_OTHER: &[u8] = b"records 7 rtcp 1 cut 1 bad 0 other 5 repeats 0 packets 0 missing 0\n";

const NO_RECORDS: &[u8] = b"records 0 rtcp 0 cut 0 bad 0 other 0 repeats 0 packets 0 missing 0\n";

// Sequence numbers 5, 4 and 65,535.
const BELOW: &[&[u8]] = &[
    b"\0\x16\0\x0E\0\0\0\0\x80\x60\0\x05\0\0\0\0\0\0\0\x07\xFC\x05",
    b"\0\x16\0\x0E\0\0\0\0\x80\x60\0\x04\0\0\0\x01\0\0\0\x07\xFC\x04",
    b"\0\x16\0\x0E\0\0\0\0\x80\x60\xFF\xFF\xFF\xFF\xFF\xFF\0\0\0\x07\xFC\x03",
];

// Each record alone may not be taken: no payload of another stream, version 1, a payload that is no packet, another
// payload type, another source with such a payload, no bytes with RTCP, and none of a packet of four.
const SORTS: &[&[u8]] = &[
    b"\0\x14\0\x0C\0\0\0\0\x80\x61\0\x01\0\0\0\0\0\0\0\x08",
    b"\0\x16\0\x0E\0\0\0\0\x80\x60\0\x01\0\0\0\x02\0\0\0\x07\xFC\x05",
    b"\0\x16\0\x0E\0\0\0\0\x40\x60\0\x02\0\0\0\0\0\0\0\x07\xFC\x05",
    b"\0\x16\0\x0E\0\0\0\0\x80\x60\0\x02\0\0\0\0\0\0\0\x07\xFB\x07",
    b"\0\x16\0\x0E\0\0\0\0\x80\x61\0\x02\0\0\0\0\0\0\0\x07\xFC\x05",
    b"\0\x16\0\x0E\0\0\0\0\x80\x60\0\x02\0\0\0\0\0\0\0\x08\xFB\x07",
    b"\0\x08\0\0\0\0\0\0",
    b"\0\x08\0\x04\0\0\0\0",
];

// A length below 8 behind a record.
const SHORT: &[&[u8]] = &[FIRST, b"\0\x07\0\0\0\0\0\0"];

// The line and the head, the records, how many bytes of the capture there are, payload type and source, the refusal, if
// there is one, and what replay and recv write.
type Row = (
    &'static [u8],
    &'static [&'static [u8]],
    usize,
    Option<u8>,
    Option<u32>,
    Option<Refused>,
    &'static [u8],
    &'static [u8],
);

const SOURCE: u32 = 0x1234ABCD;

const ROWS: &[Row] = &[
    (
        OPENING,
        STREAM,
        206,
        None,
        None,
        None,
        STREAM_LINES,
        STREAM_STORE,
    ),
    (
        OPENING,
        STREAM,
        206,
        Some(111),
        None,
        None,
        STREAM_LINES,
        STREAM_STORE,
    ),
    (
        OPENING,
        STREAM,
        206,
        None,
        Some(SOURCE),
        None,
        STREAM_LINES,
        STREAM_STORE,
    ),
    (
        OPENING,
        STREAM,
        206,
        Some(111),
        Some(SOURCE),
        None,
        STREAM_LINES,
        STREAM_STORE,
    ),
    (OPENING, STREAM, 206, Some(96), None, None, ALL_OTHER, b""),
    (
        OPENING,
        STREAM,
        206,
        Some(111),
        Some(1),
        None,
        ALL_OTHER,
        b"",
    ),
    (
        OPENING,
        STREAM,
        26,
        None,
        None,
        Some((0, 26, "store cut")),
        NO_RECORDS,
        b"",
    ),
    (
        OPENING,
        STREAM,
        205,
        None,
        None,
        Some((6, 205, "store cut")),
        b"packet 1000 stamp 0 bytes 4\n\
        packet 1001 stamp 960 bytes 2\n\
        packet 1002 stamp 1920 bytes 3\n\
        gap 1003 count 1\n\
        packet 1004 stamp 3840 bytes 2\n\
        records 6 rtcp 1 cut 1 bad 0 other 0 repeats 0 packets 4 missing 1\n",
        STREAM_STORE,
    ),
    (
        OPENING,
        SHORT,
        100,
        None,
        None,
        Some((1, 67, "dump length")),
        b"packet 1000 stamp 0 bytes 4\nrecords 1 rtcp 0 cut 0 bad 0 other 0 repeats 0 packets 1 missing 0\n",
        b"\0\0\0\x04\0\0\0\0\xFC\x01\x02\x03",
    ),
    (
        OPENING,
        SORTS,
        1000,
        None,
        None,
        None,
        b"packet 1 stamp 2 bytes 2\nrecords 8 rtcp 1 cut 1 bad 3 other 2 repeats 0 packets 1 missing 0\n",
        b"\0\0\0\x02\0\0\0\0\xFC\x05",
    ),
    (
        OPENING,
        BELOW,
        1000,
        None,
        None,
        None,
        b"packet -1 stamp 4294967295 bytes 2\n\
        gap 0 count 4\n\
        packet 4 stamp 1 bytes 2\n\
        packet 5 stamp 0 bytes 2\n\
        records 3 rtcp 0 cut 0 bad 0 other 0 repeats 0 packets 3 missing 4\n",
        b"\0\0\0\x02\0\0\0\0\xFC\x03\0\0\0\0\0\0\0\0\0\0\0\0\0\0\0\0\0\0\0\0\0\0\0\0\0\0\0\0\0\0\
        \0\0\0\0\0\x02\0\0\0\0\xFC\x04\0\0\0\x02\0\0\0\0\xFC\x05",
    ),
    (
        OTHER_OPENING,
        STREAM,
        206,
        None,
        None,
        Some((0, 2, "dump line")),
        NO_RECORDS,
        b"",
    ),
];

// A capture with these records, of which the end is left away.
fn capture(alloc: Global, opening: &[u8], records: &[&[u8]], size: usize) -> Result<Vec<u8>, Fail> {
    let mut bytes = Vec::from_slice(alloc, opening)?;
    for record in records {
        bytes.extend_from_slice(record)?;
    }
    bytes.truncate(size);
    Ok(bytes)
}

fn is_told(alloc: Global, row: &Row) -> Result<bool, Fail> {
    let (opening, records, size, pt, ssrc, refused, lines, store) = *row;
    let input = capture(alloc, opening, records, size)?;
    let end = ending(refused);
    let replay = Receiving(Telling::Lines, pt, ssrc);
    let recv = Receiving(Telling::Store, pt, ssrc);
    Ok(
        ends_so(alloc, &replay, &input, &IN_PIECES, (&end, lines))?
            && ends_so(alloc, &recv, &input, &IN_PIECES, (&end, store))?,
    )
}

#[test]
fn tells_what_arrived(rt: HostRuntime) -> Result<(), Fail> {
    for row in ROWS {
        assert!(rt; is_told(rt.alloc(), row)?, "{row:?}");
    }
    Ok(())
}

// Sequence numbers 0 and 32,768: the first is certain with the second.
const FAR: Parts = &[
    (OPENING, 1),
    (
        b"\0\x16\0\x0E\0\0\0\0\x80\x60\0\0\0\0\0\x09\0\0\0\x07\xFC\x05",
        1,
    ),
    (
        b"\0\x16\0\x0E\0\0\0\0\x80\x60\x80\0\0\0\0\x08\0\0\0\x07\xFC\x06",
        1,
    ),
];

// Recv writes 262,156 bytes for them: a gap is that many lost records, of which all 262,136 bytes are zeros.
const FAR_STORED: Long<Receiving> = (
    Receiving(Telling::Store, None, None),
    FAR,
    None,
    &[
        (b"\0\0\0\x02\0\0\0\0\xFC\x05", 1),
        (b"\0", 262_136),
        (b"\0\0\0\x02\0\0\0\0\xFC\x06", 1),
    ],
);

// FAR has 87 bytes, and one more record stands behind it. Where this many bytes are taken, and then a read fails or the
// limit is reached, the event that FAR makes certain stands, and nothing else.
fn is_certain(alloc: Global, taken: u64) -> Result<bool, Fail> {
    let mut input = joined(alloc, FAR)?;
    input.extend_from_slice(FIRST)?;
    let replay = Receiving(Telling::Lines, None, None);
    let text: &[u8] = if taken < 87 {
        b""
    } else {
        b"packet 0 stamp 9 bytes 2\n"
    };
    let fails = [taken.saturating_add(1)];
    let (unread, limited): (Way<'_>, Way<'_>) = (
        (LIMIT, &[(1, 4096)], &fails, &[]),
        (taken, &[(1, 4096)], &[], &[]),
    );
    Ok(
        ends_so(alloc, &replay, &input, &unread, (&Ending::ReadFault, text))?
            && ends_so(
                alloc,
                &replay,
                &input,
                &limited,
                (&Ending::InputLimit, text),
            )?,
    )
}

#[test]
fn what_is_certain_stands(rt: HostRuntime) -> Result<(), Fail> {
    assert!(rt; is_long(rt.alloc(), &FAR_STORED, &IN_PIECES)?);
    for taken in 0..111 {
        assert!(rt; is_certain(rt.alloc(), taken)?, "{taken}");
    }
    Ok(())
}
