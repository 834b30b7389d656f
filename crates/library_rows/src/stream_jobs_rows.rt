//! The jobs over inputs of several streams in both forms, a row a line.
ghost use Rattle.stream_jobs.specs.StreamEnds.{IsStreamForm, IsStreamJob, IsStreamKind, form_by};

use crate::pack_jobs_rows::{AT_ONCE, LIMIT, Long, Parts, Row, Run, is_long, is_row};
use Work::{Apart, Check, CheckDemo, Extract, Keep, Norm, NormDemo, Show, ShowDemo};
use job_ends::Task;
use opus_feed::Padding;
use opus_io::{MemorySink, MemorySource};
use opus_words::{Ending, Form, Job, JobKind};
use std::alloc::Global;
use std::test::Fail;
use stream_jobs::stream_job;

// What is done with an input: in form raw, or else in form demo.
#[derive(Clone, Copy, Debug)]
enum Work {
    Norm,
    NormDemo,
    // Norm in form raw with its padding bytes kept.
    Keep,
    Check,
    CheckDemo,
    Show,
    ShowDemo,
    Apart,
    // This stream.
    Extract(u8),
}

// It is done over so many streams.
type Streams = (Work, u8);

const ROWS: &[Row<Streams>] = &[
    (
        (Show, 2),
        b"\xfb\x41\x01\x01\xaa\0\xfb\x01\xbb",
        None,
        b"0.0: config 31 celt fb 960 samples mono, code 3, 1 frames, pad 2, 6 bytes\n\
        0.0.0: 1 bytes\n\
        0.1: config 31 celt fb 960 samples mono, code 3, 1 frames, pad 0, 3 bytes\n\
        0.1.0: 1 bytes\n",
    ),
    (
        (ShowDemo, 2),
        b"\0\0\0\0\0\0\0\x07\0\0\0\x05\0\0\0\0\xf8\x01\xaa\xf0\xbb",
        Some((1, 19, "unequal stream 1")),
        b"0: lost\n",
    ),
    (
        (Norm, 2),
        b"\xfb\x41\x01\x01\xaa\0\xfb\x01\xbb",
        None,
        b"\xf8\x01\xaa\xf8\xbb",
    ),
    (
        (Norm, 2),
        b"\xf8\x01\xaa\xf0\xbb",
        Some((0, 3, "unequal stream 1")),
        b"",
    ),
    (
        (Norm, 2),
        b"\xf8\x01\xaa",
        Some((0, 3, "stream 1 R1 at 0")),
        b"",
    ),
    (
        (Keep, 2),
        b"\xfb\x41\x01\x01\xaa\0\xfb\x01\xbb",
        None,
        b"\xfb\x41\x01\x01\xaa\0\xf8\xbb",
    ),
    (
        (NormDemo, 2),
        b"\0\0\0\x05\0\0\0\x09\xf8\x01\xaa\xf8\xbb\0\0\0\0\0\0\0\x07",
        None,
        b"\0\0\0\x05\0\0\0\x09\xf8\x01\xaa\xf8\xbb\0\0\0\0\0\0\0\x07",
    ),
    (
        (NormDemo, 2),
        b"\0\0\0\0\0\0\0\x07\0\0\0\x05",
        Some((1, 12, "store cut")),
        b"\0\0\0\0\0\0\0\x07",
    ),
    (
        (NormDemo, 2),
        b"\0\0\0\x05\0\0\0\0\xf8\x01\xaa\xfb\0",
        Some((0, 12, "stream 1 R5 at 1")),
        b"",
    ),
    ((Check, 2), b"\xf8\x01\xaa\xf8\xbb", None, b"0 ok\n"),
    (
        (Check, 2),
        b"\xf8\x01\xaa",
        Some((0, 3, "stream 1 R1 at 0")),
        b"0 stream 1 R1 at 0\n",
    ),
    (
        (Check, 2),
        b"\xf8\x01\xaa\xf0\xbb",
        Some((0, 3, "unequal stream 1")),
        b"0 unequal stream 1\n",
    ),
    (
        (CheckDemo, 2),
        b"\0\0\0\0\0\0\0\x07\0\0\0\x05\0\0\0\0\xf8\x01\xaa\xf0\xbb\0\0\0\x03\0\0\0\0\xf8\x01\xaa\0\0",
        Some((1, 19, "unequal stream 1")),
        b"0 lost\n1 unequal stream 1\n2 stream 1 R1 at 0\n",
    ),
    (
        (CheckDemo, 2),
        b"\0\0\0\0\0\0\0\x07\0\0",
        Some((1, 10, "store cut")),
        b"0 lost\n",
    ),
    (
        (Apart, 2),
        b"\0\0\0\x05\0\0\0\x09\xf8\x01\xaa\xf8\xbb",
        None,
        b"\0\0\0\x02\0\0\0\0\xf8\xaa\0\0\0\x02\0\0\0\0\xf8\xbb",
    ),
    (
        (Apart, 2),
        b"\0\0\0\0\0\0\0\x07",
        None,
        b"\0\0\0\0\0\0\0\0\0\0\0\0\0\0\0\0",
    ),
    (
        (Apart, 2),
        b"\0\0\0\x05\0\0\0\0\xf8\x01\xaa\xf0\xbb",
        Some((0, 11, "unequal stream 1")),
        b"",
    ),
    (
        (Apart, 1),
        b"\0\0\0\x03\0\0\0\x09\xfb\x01\xaa",
        None,
        b"\0\0\0\x02\0\0\0\0\xf8\xaa",
    ),
    (
        (Apart, 1),
        b"\0\0\0\x02\0\0\0\0\xfb\x07",
        Some((0, 9, "R5 at 1")),
        b"",
    ),
    (
        (Extract(1), 2),
        b"\0\0\0\x05\0\0\0\x09\xf8\x01\xaa\xf8\xbb",
        None,
        b"\0\0\0\x02\0\0\0\0\xf8\xbb",
    ),
    (
        (Extract(0), 2),
        b"\0\0\0\x05\0\0\0\x09\xf8\x01\xaa\xf8\xbb\0\0\0\0\0\0\0\x07",
        None,
        b"\0\0\0\x02\0\0\0\0\xf8\xaa\0\0\0\0\0\0\0\0",
    ),
    (
        (Extract(1), 3),
        b"\0\0\0\x08\0\0\0\0\xf8\x01\xaa\xf8\x01\xbb\xf8\xcc",
        None,
        b"\0\0\0\x02\0\0\0\0\xf8\xbb",
    ),
    (
        (Extract(0), 1),
        b"\0\0\0\x02\0\0\0\x09\xf8\xaa",
        None,
        b"\0\0\0\x02\0\0\0\0\xf8\xaa",
    ),
    (
        (Extract(0), 2),
        b"\0\0\0\x03\0\0\0\0\xf8\x01\xaa",
        Some((0, 11, "stream 1 R1 at 0")),
        b"",
    ),
    (
        (Extract(0), 2),
        b"\0\0\0\x03\0\0",
        Some((0, 6, "store cut")),
        b"",
    ),
];

// Stream 0 has 65,536 bytes of padding, which are dropped, and not kept.
const PADDED: Parts = &[
    (b"\xfb\x41", 1),
    (b"\xff", 258),
    (b"\x04\x01\xaa", 1),
    (b"\0", 65_536),
    (b"\xf8\xbb", 1),
];

const LONG: &[Long<Streams>] = &[
    (
        (Keep, 2),
        PADDED,
        Some((0, 65_801, "stream 0 padding long")),
        &[],
    ),
    ((Norm, 2), PADDED, None, &[(b"\xf8\x01\xaa\xf8\xbb", 1)]),
];

fn shape(work: Work) -> (JobKind, Option<Form>)
    ensures kind { IsStreamKind result.0 }
    ensures form { IsStreamForm (form_by result.0 result.1) }
{
    match work {
        Norm => (JobKind::Norm, Some(Form::Raw)),
        NormDemo => (JobKind::Norm, Some(Form::Demo)),
        Keep => (JobKind::Norm, Some(Form::Raw)),
        Check => (JobKind::Check, Some(Form::Raw)),
        CheckDemo => (JobKind::Check, Some(Form::Demo)),
        Show => (JobKind::Show, Some(Form::Raw)),
        ShowDemo => (JobKind::Show, Some(Form::Demo)),
        Apart => (JobKind::Apart, None),
        Extract(_) => (JobKind::Extract, None),
    }
}

fn job(work: Work, streams: u8) -> Job
    ensures { IsStreamJob result }
{
    let (kind, form) = shape(work);
    Job {
        kind,
        form,
        streams: Some(streams),
        stream: match work {
            Extract(stream) => Some(stream),
            _ => None,
        },
        group: None,
        frames: None,
        size: None,
        pt: None,
        seq: None,
        stamp: None,
        ssrc: None,
        seed: None,
        count: None,
        padding: match work {
            Keep => Some(Padding::Keep),
            _ => None,
        },
    }
}

impl Run for Streams {
    fn run(
        &self,
        alloc: Global,
        limit: u64,
        source: &mut MemorySource,
        sink: &mut MemorySink,
    ) -> Ending {
        let limit = limit.clamp(1, LIMIT);
        let job = job(self.0, self.1);
        let task = Task {
            alloc,
            job: &job,
            limit,
        };
        stream_job(task, source, sink)
    }
}

#[test]
fn each_row_ends_so(rt: HostRuntime) -> Result<(), Fail> {
    for row in ROWS {
        assert!(rt; is_row(rt.alloc(), row)?, "{row:?}");
    }
    Ok(())
}

#[test]
fn long_padding_is_refused_where_it_is_kept(rt: HostRuntime) -> Result<(), Fail> {
    for row in LONG {
        assert!(rt; is_long(rt.alloc(), row, &AT_ONCE)?, "{row:?}");
    }
    Ok(())
}
