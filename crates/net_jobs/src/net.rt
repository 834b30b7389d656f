//! The jobs over RTP, by their kinds.
ghost use Rattle.std.specs.Prelude.{◌≡◌, ◌<◌, ◌^◌, [], IfSome};
ghost use Rattle.opus_feed.specs.declared.padding.Padding.TheVariants.{Drop};
ghost use Rattle.rtp_ends.specs.Sends.{SenderStands};
ghost use Rattle.pack_records.specs.Demo.{DemoSettles, DemoEnds};
ghost use Rattle.job_ends.specs.Ends.{seen_as};
ghost use Rattle.pack_jobs.specs.PackEnds.{MeaningEnds};
ghost use Rattle.net_jobs.specs.Send.{send};
ghost use Rattle.net_jobs.specs.Receive.{receive};
ghost use Rattle.net_jobs.specs.NetEnds.{IsNetJob, NetEnds, ReceiveEnds, first_in, asked_in};

use crate::events::Telling;
use crate::receive::ReceiveJob;
use crate::send::SendJob;
use crate::stream::Asked;
use dump_records::DumpForm;
use job_ends::{Task, run_over, run_told};
use opus_feed::Padding;
use opus_io::{NoMemory, Sink, Source};
use opus_words::{Ending, Job, JobKind};
use pack_records::DemoForm;
use rtp_ends::Sender;

/// Does a job over RTP: reads `source` up to the task's limit, and writes to `out`.
///
/// What the bytes read settle is written before the next read. `send` takes all memory before the first read; `recv` and
/// `replay` take that of packets and their events as they arrive.
pub fn net_job<S: Source, O: Sink>(task: Task<'_>, source: &mut S, out: &mut O) -> Ending
    requires { IsNetJob task.job.now }
    ensures { NetEnds task.entry.job.now task.entry.limit
        (seen_as (S.left source.old) (S.faults source.old) (O.contents out.old) (O.faults out.old) (O.refusals out.old))
        (seen_as (S.left source.new) (S.faults source.new) (O.contents out.new) (O.faults out.new) (O.refusals out.new))
        (source.new ≡ source.old) result }
{
    match task.job.kind {
        JobKind::Send => run_send(task, source, out),
        JobKind::Recv => run_receive(task, Telling::Store, source, out),
        JobKind::Replay => run_receive(task, Telling::Lines, source, out),
        _ => unreachable!(),
    }
}

// The sender that the options ask for.
fn sender_in(job: &Job) -> Sender
    requires { IfSome job.now.pt (λ n. n < 2 ^ 7) }
    ensures first { result.first ≡ first_in job.now }
    ensures stands { SenderStands result [] }
{
    Sender::new(
        job.seq.unwrap_or(0),
        job.stamp.unwrap_or(0),
        job.ssrc.unwrap_or(0),
        job.pt.unwrap_or(96),
    )
}

// The streams that the options ask for.
fn asked_in(job: &Job) -> Asked
    ensures { result ≡ asked_in job.now }
{
    Asked {
        payload_type: job.pt,
        ssrc: job.ssrc,
    }
}

// Runs send.
fn run_send<S: Source, O: Sink>(task: Task<'_>, source: &mut S, out: &mut O) -> Ending
    requires { IfSome task.job.now.pt (λ n. n < 2 ^ 7) }
    ensures { MeaningEnds (send (first_in task.entry.job.now)) (DemoSettles Drop) (DemoEnds Drop) task.entry.limit
        (seen_as (S.left source.old) (S.faults source.old) (O.contents out.old) (O.faults out.old) (O.refusals out.old))
        (seen_as (S.left source.new) (S.faults source.new) (O.contents out.new) (O.faults out.new) (O.refusals out.new))
        (source.new ≡ source.old) result }
{
    let Task { alloc, job, limit } = task;
    let records = DemoForm::new(alloc, Padding::Drop);
    let send = SendJob::new(alloc, sender_in(job));
    run_over(alloc, limit, records, send, source, out)
}

// Runs recv or replay over a capture.
fn run_receive<S: Source, O: Sink>(
    task: Task<'_>,
    telling: Telling,
    source: &mut S,
    out: &mut O,
) -> Ending
    ensures { ReceiveEnds (receive telling (asked_in task.entry.job.now)) task.entry.limit
        (seen_as (S.left source.old) (S.faults source.old) (O.contents out.old) (O.faults out.old) (O.refusals out.old))
        (seen_as (S.left source.new) (S.faults source.new) (O.contents out.new) (O.faults out.new) (O.refusals out.new))
        result }
{
    let Task { alloc, job, limit } = task;
    let Ok(records) = DumpForm::new(alloc) else {
        return Ending::NoMemory;
    };
    match ReceiveJob::new(alloc, telling, asked_in(job)) {
        Ok(mut job) => run_told(alloc, limit, records, &mut job, source, out),
        Err(NoMemory) => Ending::NoMemory,
    }
}
