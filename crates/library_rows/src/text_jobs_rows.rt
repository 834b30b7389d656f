//! Lines in pieces of 1, 3 and 4,096 bytes: what is written, what is refused, and where a run stops.
use crate::pack_jobs_rows::{
    AT_ONCE, LIMIT, Long, Parts, Row, Run, STEPS, Way, ends_so, is_long, is_row,
};
use opus_io::{MemorySink, MemorySource};
use opus_words::Ending;
use std::alloc::Global;
use std::test::Fail;
use text_jobs::text_job;

// The job that prints lines.
#[derive(Clone, Copy, Debug)]
struct Sdp;

impl Run for Sdp {
    fn run(
        &self,
        alloc: Global,
        limit: u64,
        source: &mut MemorySource,
        sink: &mut MemorySink,
    ) -> Ending {
        text_job(alloc, limit.clamp(1, LIMIT), source, sink)
    }
}

// Lines as GStreamer's WebRTC writes them, and their printed form.
const SAMPLE: &[u8] = b"a=rtpmap:96 OPUS/48000/2\r\n\
a=fmtp:96 sprop-stereo=1;sprop-maxcapturerate=48000\r\n\
a=rtpmap:111 OPUS/48000/2\r\n\
a=fmtp:111 sprop-stereo=0;sprop-maxcapturerate=48000\r\n\
a=rtpmap:100 OPUS/48000/2\r\n\
a=fmtp:100 sprop-stereo=0;sprop-maxcapturerate=16000;useinbandfec=1;usedtx=1\r\n\
a=rtpmap:101 OPUS/48000/2\r\n\
a=fmtp:101 sprop-stereo=1;sprop-maxcapturerate=24000;minptime=10;useinbandfec=1;maxaveragebitrate=40000;stereo=1\r\n\
a=rtpmap:127 OPUS/48000/2\r\n\
a=fmtp:127 sprop-stereo=0;sprop-maxcapturerate=8000;maxplaybackrate=16000;cbr=1;maxptime=60\r\n";

const PRINTED: &[u8] = b"a=rtpmap:96 opus/48000/2\n\
a=fmtp:96 sprop-maxcapturerate=48000;sprop-stereo=1\n\
a=rtpmap:111 opus/48000/2\n\
a=fmtp:111 sprop-maxcapturerate=48000;sprop-stereo=0\n\
a=rtpmap:100 opus/48000/2\n\
a=fmtp:100 sprop-maxcapturerate=16000;sprop-stereo=0;useinbandfec=1;usedtx=1\n\
a=rtpmap:101 opus/48000/2\n\
a=fmtp:101 sprop-maxcapturerate=24000;maxaveragebitrate=40000;stereo=1;sprop-stereo=1;useinbandfec=1;minptime=10\n\
a=rtpmap:127 opus/48000/2\n\
a=fmtp:127 maxplaybackrate=16000;sprop-maxcapturerate=8000;sprop-stereo=0;cbr=1;maxptime=60\n";

// Lines are written in their printed form, and the first fault is named with its line.
const ROWS: &[Row<Sdp>] = &[
    (Sdp, b"", None, b""),
    (
        Sdp,
        b"a=fmtp:111 useinbandfec=1; maxplaybackrate=16000;minptime=10",
        None,
        b"a=fmtp:111 maxplaybackrate=16000;useinbandfec=1;minptime=10\n",
    ),
    (
        Sdp,
        b"a=rtpmap:111 opus/48000/2",
        None,
        b"a=rtpmap:111 opus/48000/2\n",
    ),
    (
        Sdp,
        b"a=rtpmap:96 OPUS/48000/2\r\n\r\na=fmtp:96 CBR=0\r\n",
        None,
        b"a=rtpmap:96 opus/48000/2\na=fmtp:96 cbr=0\n",
    ),
    (Sdp, b"\n \t\r\n\na=fmtp:1 ;;\n\n \t", None, b"a=fmtp:1\n"),
    (Sdp, b"\n", None, b""),
    (Sdp, b" ", None, b""),
    (
        Sdp,
        b"a=fmtp:1 b=1;a=2\na=fmtp:1 b=1;a=2\na=fmtp:2",
        None,
        b"a=fmtp:1 b=1;a=2\na=fmtp:1 b=1;a=2\na=fmtp:2\n",
    ),
    (
        Sdp,
        b"a=fmtp:96 sprop-stereo=1;sprop-maxcapturerate=48000\n",
        None,
        b"a=fmtp:96 sprop-maxcapturerate=48000;sprop-stereo=1\n",
    ),
    (Sdp, SAMPLE, None, PRINTED),
    (Sdp, PRINTED, None, PRINTED),
    (Sdp, b"a=fmtp:1 x=a\rb\r", None, b"a=fmtp:1 x=a\rb\n"),
    (Sdp, b"a=fmtp:111 stereo=2", Some((0, 18, "value")), b""),
    (Sdp, b"a=fmtp:128", Some((0, 7, "payload type")), b""),
    (Sdp, b"a=rtpmap:111 opus/48000", Some((0, 12, "codec")), b""),
    (Sdp, b"a=fmtp:1 cbr=1;CBR=0", Some((0, 15, "repeat")), b""),
    (Sdp, b"a=fmtp:1 cbr", Some((0, 9, "name")), b""),
    (Sdp, b"v=0", Some((0, 0, "prefix")), b""),
    (Sdp, b" a=fmtp:1", Some((0, 0, "prefix")), b""),
    (
        Sdp,
        b"a=fmtp:1\n\r\na=fmtp:2 cbr=2\na=fmtp:3\n",
        Some((2, 24, "value")),
        b"a=fmtp:1\n",
    ),
    (Sdp, b"\n\n\nm=audio\n", Some((3, 3, "prefix")), b""),
    (Sdp, b"a=rtpmap:0\r\n", Some((0, 10, "codec")), b""),
    (
        Sdp,
        b"a=rtpmap:7 opus/48000/2\na=rtpmap:07 \n",
        Some((1, 33, "payload type")),
        b"a=rtpmap:7 opus/48000/2\n",
    ),
    (
        Sdp,
        b"a=fmtp:1 cbr=1\na=fmtp:1 ;\tcbr=\r\n\n",
        Some((1, 30, "value")),
        b"a=fmtp:1 cbr=1\n",
    ),
];

#[test]
fn lines_are_printed_or_refused(rt: HostRuntime) -> Result<(), Fail> {
    for row in ROWS {
        assert!(rt; is_row(rt.alloc(), row)?, "{row:?}");
    }
    Ok(())
}

// A line of 20,012 bytes and its newline.
const LINE: Parts = &[(b"a=fmtp:1 x=b", 1), (b"y", 20_000), (b"\n", 1)];

// A line may be longer than what is read at once.
const LONG: &[Long<Sdp>] = &[
    (Sdp, &[(b"a=fmtp:1 x=b", 1), (b"y", 20_000)], None, LINE),
    (
        Sdp,
        &[(b"a=fmtp:1 x=b", 1), (b"y", 20_000), (b"\r\n", 1)],
        None,
        LINE,
    ),
    (
        Sdp,
        &[(b"a=fmtp:1 x=b", 1), (b"y", 20_000), (b" \r\n \n", 1)],
        None,
        LINE,
    ),
    // A parameter has no value.
    (
        Sdp,
        &[(b"a=fmtp:1 x=b", 1), (b"y", 20_000), (b"; y\n", 1)],
        Some((0, 20_014, "name")),
        &[],
    ),
];

#[test]
fn a_line_may_be_long(rt: HostRuntime) -> Result<(), Fail> {
    for row in LONG {
        assert!(rt; is_long(rt.alloc(), row, &AT_ONCE)?, "{row:?}");
    }
    Ok(())
}

const TWO: &[u8] = b"a=fmtp:1\na=fmtp:2";

const MORE: &[u8] = b"a=fmtp:1\nfmtp:2 and more";

// An input, its limit with the pieces and the reads that fail, how the run ends, and what is written: a line is decided
// by its newline, which is here the ninth byte, or by the end.
type Around = (&'static [u8], Way<'static>, Ending, &'static [u8]);

const AROUND: [Around; 8] = [
    (
        TWO,
        (17, STEPS, &[], &[]),
        Ending::Ok,
        b"a=fmtp:1\na=fmtp:2\n",
    ),
    (
        TWO,
        (16, STEPS, &[], &[]),
        Ending::InputLimit,
        b"a=fmtp:1\n",
    ),
    (TWO, (8, STEPS, &[], &[]), Ending::InputLimit, b""),
    (
        MORE,
        (10, STEPS, &[], &[]),
        Ending::InputLimit,
        b"a=fmtp:1\n",
    ),
    (TWO, (LIMIT, &[(1, 1)], &[1], &[]), Ending::ReadFault, b""),
    (TWO, (LIMIT, &[(1, 1)], &[9], &[]), Ending::ReadFault, b""),
    (
        TWO,
        (LIMIT, &[(1, 1)], &[10], &[]),
        Ending::ReadFault,
        b"a=fmtp:1\n",
    ),
    (
        TWO,
        (LIMIT, &[(1, 1)], &[18], &[]),
        Ending::ReadFault,
        b"a=fmtp:1\n",
    ),
];

fn is_around(alloc: Global, row: &Around) -> Result<bool, Fail> {
    ends_so(alloc, &Sdp, row.0, &row.1, (&row.2, row.3))
}

#[test]
fn the_outside_ends_a_run_so(rt: HostRuntime) -> Result<(), Fail> {
    for row in &AROUND {
        assert!(rt; is_around(rt.alloc(), row)?, "{row:?}");
    }
    Ok(())
}
