//! The job send by itself, over packets that are lent in other forms than the canonical one; recv and replay.
mod receive;

use crate::pack_jobs_rows::{LIMIT, Row, Run, is_row};
use job_ends::{Task, run_over};
use net_jobs::{SendJob, net_job};
use opus_feed::Padding;
use opus_io::{MemorySink, MemorySource};
use opus_words::{Ending, Job, JobKind};
use pack_records::{DemoForm, SelfForm};
use rtp_ends::Sender;
use std::alloc::Global;
use std::test::Fail;

const SEND: Job = Job {
    kind: JobKind::Send,
    form: None,
    streams: None,
    stream: None,
    group: None,
    frames: None,
    size: None,
    pt: Some(96),
    seq: Some(9),
    stamp: Some(4096),
    ssrc: Some(1),
    seed: None,
    count: None,
    padding: None,
};

// The job send over packets, and what these are lent from.
#[derive(Clone, Copy, Debug)]
enum Sending {
    // The records of a store, as the program does it.
    Store,
    // Those with their padding bytes kept.
    Kept,
    // Self-delimited packets.
    SelfDelimited,
}

impl Run for Sending {
    fn run(
        &self,
        alloc: Global,
        limit: u64,
        source: &mut MemorySource,
        sink: &mut MemorySink,
    ) -> Ending {
        let limit = limit.clamp(1, LIMIT);
        let send = SendJob::new(alloc, Sender::new(9, 4096, 1, 96));
        match self {
            Sending::Store => {
                let task = Task {
                    alloc,
                    job: &SEND,
                    limit,
                };
                net_job(task, source, sink)
            }
            Sending::Kept => {
                let form = DemoForm::new(alloc, Padding::Keep);
                run_over(alloc, limit, form, send, source, sink)
            }
            Sending::SelfDelimited => {
                let form = SelfForm::new(alloc, Padding::Drop);
                run_over(alloc, limit, form, send, source, sink)
            }
        }
    }
}

// Two packets with two and three padding bytes.
const PADDED: &[u8] =
    b"\0\0\0\x06\0\0\0\0\xfb\x41\x02\xaa\x07\x07\0\0\0\x08\0\0\0\0\xfb\x42\x03\xbb\xcc\x07\x07\x07";

// The line and the head with which each capture begins, the record of 20 ms with byte AA, and that of two times 20 ms
// with bytes BB and CC.
const SENT: &[u8] = b"#!rtpplay1.0 0.0.0.0/0\n\0\0\0\0\0\0\0\0\0\0\0\0\0\0\0\0\
    \x00\x16\x00\x0e\0\0\0\0\x80\x60\x00\x09\0\0\x10\0\0\0\0\x01\xf8\xaa\
    \x00\x17\x00\x0f\0\0\0\x14\x80\x60\x00\x0a\0\0\x13\xc0\0\0\0\x01\xf9\xbb\xcc";

const ROWS: &[Row<Sending>] = &[
    (Sending::Store, PADDED, None, SENT),
    (Sending::Kept, PADDED, None, SENT),
    (
        Sending::SelfDelimited,
        b"\xf8\x01\xaa\xf9\x01\xbb\xcc",
        None,
        SENT,
    ),
];

#[test]
fn sends_packets_without_their_padding(rt: HostRuntime) -> Result<(), Fail> {
    for row in ROWS {
        assert!(rt; is_row(rt.alloc(), row)?, "{row:?}");
    }
    Ok(())
}
