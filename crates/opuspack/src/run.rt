//! The whole program, over any source and any sinks.
ghost use Rattle.std.specs.Prelude.{◌≡◌, ◌^◌, ◌≤◌, map, string_bytes};
ghost use Rattle.opus_words.specs.Fit.{IsFit};
ghost use Rattle.opus_words.specs.Words.{job_of_words};
ghost use Rattle.job_ends.specs.Ends.{seen_as};
ghost use Rattle.opuspack.specs.declared.finish.Finish.{Finish};
ghost use Rattle.opuspack.specs.Finish.{status_of, note_of, Noted};
ghost use Rattle.pack_jobs.specs.PackEnds.{IsPackKind};
ghost use Rattle.opuspack.specs.Run.{Meant, KindEnds, OverPackets, is_several, seed_in, count_in};

use crate::finish::Finish;
use crate::head::head_job;
use crate::make::make_job;
use crate::status::Status;
use crate::trial::trial_job;
use job_ends::{Task, stream_count};
use net_jobs::net_job;
use opus_io::{Sink, Source};
use opus_words::{Ending, Job, JobKind, WordsFault, job_of};
use pack_jobs::pack_job;
use std::alloc::Global;
use stream_jobs::{join_job, stream_job};
use text_jobs::text_job;

const MAX_INPUT: u64 = 1_099_511_627_776;

/// Most bytes of input that the program takes.
pub fn max_input() -> u64
    ensures { result ≡ 2 ^ 40 }
{
    MAX_INPUT
}

/// Does what `words`, the arguments without the program's name, ask for: reads `source` up to `limit` bytes,
/// writes to `out`, and tells in one line of `note` how it ended, where it didn't end well.
pub fn run<S: Source, O: Sink, E: Sink>(
    alloc: Global,
    words: &[String],
    limit: u64,
    source: &mut S,
    out: &mut O,
    note: &mut E,
) -> Status
    requires some { 1 ≤ limit }
    requires most { limit ≤ 2 ^ 40 }
    ensures { (f : Finish) × (result ≡ status_of f)
        × Meant (job_of_words (map string_bytes words.now)) limit f
        (λ s o. record {
          left = S.left s;
          reads = S.faults s;
          contents = O.contents o;
          writes = O.faults o;
          refusals = O.refusals o;
        })
        source.old source.new out.old out.new
        × Noted (note_of f) (E.contents note.old) (E.contents note.new) (E.faults note.old)
        (E.faults note.new) (E.refusals note.old) (E.refusals note.new) }
{
    let finish = do_job(alloc, words, limit, source, out);
    finish.tell(note)
}

// Does the job that the words stand for.
fn do_job<S: Source, O: Sink>(
    alloc: Global,
    words: &[String],
    limit: u64,
    source: &mut S,
    out: &mut O,
) -> Finish
    requires some { 1 ≤ limit }
    requires most { limit ≤ 2 ^ 40 }
    ensures { Meant (job_of_words (map string_bytes words.now)) limit result
        (λ s o. record {
          left = S.left s;
          reads = S.faults s;
          contents = O.contents o;
          writes = O.faults o;
          refusals = O.refusals o;
        })
        source.old source.new out.old out.new }
{
    match job_of(alloc, words) {
        Ok(job) => {
            let task = Task {
                alloc,
                job: &job,
                limit,
            };
            Finish::Ended(do_kind(task, source, out))
        }
        Err(WordsFault::Usage(kind)) => Finish::Usage(kind),
        Err(WordsFault::NoMemory) => Finish::Ended(Ending::NoMemory),
    }
}

// Does a job: one line a job, and one for all jobs over packets.
fn do_kind<S: Source, O: Sink>(task: Task<'_>, source: &mut S, out: &mut O) -> Ending
    requires { IsFit task.job.now }
    ensures { KindEnds task.entry.job.now.kind task.entry.job.now task.entry.limit
        (seen_as (S.left source.old) (S.faults source.old) (O.contents out.old) (O.faults out.old) (O.refusals out.old))
        (seen_as (S.left source.new) (S.faults source.new) (O.contents out.new) (O.faults out.new) (O.refusals out.new))
        (source.new ≡ source.old) (out.new ≡ out.old) result }
{
    let Task { alloc, job, limit } = task;
    match job.kind {
        JobKind::Head => head_job(alloc, limit, source, out),
        JobKind::Send | JobKind::Recv | JobKind::Replay => net_job(task, source, out),
        JobKind::Sdp => text_job(alloc, limit, source, out),
        JobKind::Apart | JobKind::Extract => stream_job(task, source, out),
        JobKind::Join => join_job(alloc, stream_count(job), limit, source, out),
        JobKind::Make => make_job(alloc, seed_in(job), count_in(job), out),
        JobKind::Trial => trial_job(alloc, seed_in(job), count_in(job), out),
        _ => packet_job(task, source, out),
    }
}

// Does a job over packets, which may be multistream packets.
fn packet_job<S: Source, O: Sink>(task: Task<'_>, source: &mut S, out: &mut O) -> Ending
    requires fit { IsFit task.job.now }
    requires kind { IsPackKind task.job.now.kind }
    ensures { OverPackets (is_several task.entry.job.now.streams) task.entry.job.now task.entry.limit
        (seen_as (S.left source.old) (S.faults source.old) (O.contents out.old) (O.faults out.old) (O.refusals out.old))
        (seen_as (S.left source.new) (S.faults source.new) (O.contents out.new) (O.faults out.new) (O.refusals out.new))
        (source.new ≡ source.old) result }
{
    if is_several(task.job.streams) {
        stream_job(task, source, out)
    } else {
        pack_job(task, source, out)
    }
}

// More streams than one.
fn is_several(streams: Option<u8>) -> bool
    ensures { result ≡ is_several streams }
{
    match streams {
        Some(streams) => streams > 1,
        None => false,
    }
}

// What records are made from.
fn seed_in(job: &Job) -> u32
    ensures { result ≡ seed_in job.now }
{
    job.seed.unwrap_or(0)
}

// How many records are made.
fn count_in(job: &Job) -> u32
    ensures { result ≡ count_in job.now }
{
    job.count.unwrap_or(0)
}
