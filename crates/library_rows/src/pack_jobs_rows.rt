//! The jobs over inputs in each form, a row a line; and how a job of any kind is run over memory.
ghost use Rattle.pack_jobs.specs.PackEnds.{IsPackJob, IsPackKind};

mod edges;
mod rows;
mod show;

use arrayvec::ArrayString;
use job_ends::Task;
use opus_feed::Padding;
use opus_io::{MemorySink, MemorySource};
use opus_words::{Ending, Form, Job, JobFault, JobKind};
use pack_jobs::pack_job;
use std::alloc::Global;
use std::test::Fail;

pub(crate) const LIMIT: u64 = 1 << 40;

// The sizes of the pieces in which an input is read and a text is written.
pub(crate) type Steps = (usize, usize);

pub(crate) const STEPS: &[Steps] = &[(1, 1), (3, 3), (4096, 4096)];

// A job that is run over memory, up to a limit, which is clamped to what a job takes.
pub(crate) trait Run {
    fn run(
        &self,
        alloc: Global,
        limit: u64,
        source: &mut MemorySource,
        sink: &mut MemorySink,
    ) -> Ending;
}

// The limit, the sizes of the pieces, a run for each, and the numbers of the reads and of the writes that fail.
pub(crate) type Way<'a> = (u64, &'a [Steps], &'a [u64], &'a [u64]);

pub(crate) const EACH_STEP: Way<'static> = (LIMIT, STEPS, &[], &[]);

pub(crate) const AT_ONCE: Way<'static> = (LIMIT, &[(4096, 4096)], &[], &[]);

// A refusal: the record, the place and the text.
pub(crate) type Refused = (u64, u64, &'static str);

pub(crate) fn ending(refused: Option<Refused>) -> Ending {
    let Some((index, place, why)) = refused else {
        return Ending::Ok;
    };
    let mut text = ArrayString::new();
    let _ = text.try_push_str(why);
    Ending::Refused(JobFault { index, place, text })
}

// Whether a job ends so over an input, in pieces of these sizes, and writes this text.
fn ends_by<W: Run>(
    alloc: Global,
    work: &W,
    input: &[u8],
    way: &Way<'_>,
    steps: Steps,
    said: (&Ending, &[u8]),
) -> Result<bool, Fail> {
    let mut source = MemorySource::new(alloc, input, steps.0.max(1), way.2)?;
    let mut sink = MemorySink::new(alloc, steps.1.max(1), way.3)?;
    let end = work.run(alloc, way.0, &mut source, &mut sink);
    Ok(end == *said.0 && sink.contents() == said.1)
}

// The same in pieces of each size.
pub(crate) fn ends_so<W: Run>(
    alloc: Global,
    work: &W,
    input: &[u8],
    way: &Way<'_>,
    said: (&Ending, &[u8]),
) -> Result<bool, Fail> {
    for steps in way.1 {
        if !ends_by(alloc, work, input, way, *steps, said)? {
            return Ok(false);
        }
    }
    Ok(true)
}

// A job, an input, a refusal of it, if there is one, and all that is written.
pub(crate) type Row<W> = (W, &'static [u8], Option<Refused>, &'static [u8]);

pub(crate) fn is_row<W: Run>(alloc: Global, row: &Row<W>) -> Result<bool, Fail> {
    ends_so(alloc, &row.0, row.1, &EACH_STEP, (&ending(row.2), row.3))
}

// Bytes, each so many times, one behind the other.
pub(crate) type Parts = &'static [(&'static [u8], usize)];

pub(crate) fn joined(alloc: Global, parts: Parts) -> Result<Vec<u8>, Fail> {
    let mut bytes = Vec::new(alloc);
    for (part, times) in parts {
        for _ in 0..*times {
            bytes.extend_from_slice(part)?;
        }
    }
    Ok(bytes)
}

// A row of which the input and all that is written are long.
pub(crate) type Long<W> = (W, Parts, Option<Refused>, Parts);

pub(crate) fn is_long<W: Run>(alloc: Global, row: &Long<W>, way: &Way<'_>) -> Result<bool, Fail> {
    let input = joined(alloc, row.1)?;
    let text = joined(alloc, row.3)?;
    ends_so(alloc, &row.0, &input, way, (&ending(row.2), &text))
}

// What is done with an input.
#[derive(Clone, Copy, Debug)]
enum Work {
    Norm(Form),
    // Norm with its padding bytes kept.
    Keep(Form),
    Check(Form),
    Show(Form),
}

fn kind(work: Work) -> JobKind
    ensures { IsPackKind result }
{
    match work {
        Work::Norm(_) => JobKind::Norm,
        Work::Keep(_) => JobKind::Norm,
        Work::Check(_) => JobKind::Check,
        Work::Show(_) => JobKind::Show,
    }
}

fn choices(work: Work) -> (Form, Option<Padding>) {
    match work {
        Work::Norm(form) => (form, Some(Padding::Drop)),
        Work::Keep(form) => (form, Some(Padding::Keep)),
        Work::Check(form) => (form, None),
        Work::Show(form) => (form, None),
    }
}

fn job(work: Work) -> Job
    ensures { IsPackJob result }
{
    let (form, padding) = choices(work);
    Job {
        kind: kind(work),
        form: Some(form),
        streams: Some(1),
        stream: None,
        group: None,
        frames: None,
        size: None,
        pt: None,
        seq: None,
        stamp: None,
        ssrc: None,
        seed: None,
        count: None,
        padding,
    }
}

impl Run for Work {
    fn run(
        &self,
        alloc: Global,
        limit: u64,
        source: &mut MemorySource,
        sink: &mut MemorySink,
    ) -> Ending {
        let limit = limit.clamp(1, LIMIT);
        let job = job(*self);
        let task = Task {
            alloc,
            job: &job,
            limit,
        };
        pack_job(task, source, sink)
    }
}
