//! The jobs over multistream packets, by their kinds and forms.
ghost use Rattle.std.specs.Prelude.{◌≡◌};
ghost use Rattle.job_ends.specs.Ends.{seen_as};
ghost use Rattle.job_ends.specs.Choices.{padding_in, stream_count};
ghost use Rattle.stream_jobs.specs.StreamEnds.{IsStreamJob, IsStreamForm, StreamEnds, FormEnds, form_of, stream_of};

use crate::apart::Apart;
use crate::check::Check;
use crate::extract::Extract;
use crate::norm::Norm;
use crate::of_streams::each;
use crate::refusal::StreamRefusal;
use crate::show::Show;
use job_ends::{Task, padding_in, run_over, stream_count};
use job_loop::RecordJob;
use opus_io::{Sink, Source};
use opus_words::{Ending, Form, Job, JobKind};
use pack_records::Cut;
use stream_records::{DemoStreams, RawStreams, StreamsItem};

// The form of the input.
fn form_of(job: &Job) -> Form
    ensures { result ≡ form_of job.now }
{
    match job.kind {
        JobKind::Apart => Form::Demo,
        JobKind::Extract => Form::Demo,
        _ => job.form.unwrap_or(Form::Raw),
    }
}

// The stream that is chosen.
fn stream_of(job: &Job) -> u8
    ensures { result ≡ stream_of job.now }
{
    job.stream.unwrap_or(0)
}

// What norm makes of each record.
fn norm_of(job: &Job) -> Norm
    ensures form { result.form ≡ form_of job.now }
    ensures streams { result.streams ≡ stream_count job.now }
    ensures padding { result.padding ≡ padding_in job.now }
{
    Norm {
        form: form_of(job),
        streams: stream_count(job),
        padding: padding_in(job),
    }
}

/// Does a job over multistream packets (RFC 7845, section 3): reads `source` up to the task's limit, and writes to `out`. One
/// line a job.
///
/// What the bytes read settle is written before the next read. All memory is taken before the first read.
pub fn stream_job<S: Source, O: Sink>(task: Task<'_>, source: &mut S, out: &mut O) -> Ending
    requires { IsStreamJob task.job.now }
    ensures { StreamEnds task.entry.job.now task.entry.limit
        (seen_as (S.left source.old) (S.faults source.old) (O.contents out.old) (O.faults out.old) (O.refusals out.old))
        (seen_as (S.left source.new) (S.faults source.new) (O.contents out.new) (O.faults out.new) (O.refusals out.new))
        (source.new ≡ source.old) result }
{
    let job = task.job;
    let streams = stream_count(job);
    match job.kind {
        JobKind::Norm => run_in_form(task, each(norm_of(job), streams), source, out),
        JobKind::Check => run_in_form(task, Check::new(streams), source, out),
        JobKind::Show => run_in_form(task, each(Show { streams }, streams), source, out),
        JobKind::Apart => run_in_form(task, each(Apart { streams }, streams), source, out),
        JobKind::Extract => {
            let stream = stream_of(job);
            let extract = each(Extract { streams, stream }, streams);
            run_in_form(task, extract, source, out)
        }
        _ => unreachable!(),
    }
}

// Runs a job, which takes no memory, over the records of its form: one line a form.
fn run_in_form<J, S, O>(task: Task<'_>, job: J, source: &mut S, out: &mut O) -> Ending
where
    J: RecordJob<StreamsItem, Cut, Refusal = StreamRefusal> + Drop,
    S: Source,
    O: Sink,
    requires form { IsStreamForm (form_of task.job.now) }
    requires start { J.stands job (J.meaning job).start }
    requires spared { J.lacks job → ⊥ }
    ensures { (m : _) → J.meaning job ≡ m → FormEnds task.entry.job.now m task.entry.limit
        (seen_as (S.left source.old) (S.faults source.old) (O.contents out.old) (O.faults out.old) (O.refusals out.old))
        (seen_as (S.left source.new) (S.faults source.new) (O.contents out.new) (O.faults out.new) (O.refusals out.new))
        (source.new ≡ source.old) result }
{
    let Task { alloc, limit, .. } = task;
    let streams = stream_count(task.job);
    let padding = padding_in(task.job);
    match form_of(task.job) {
        Form::Raw => {
            let records = RawStreams::new(alloc, streams, padding);
            run_over(alloc, limit, records, Ok(job), source, out)
        }
        Form::Demo => {
            let records = DemoStreams::new(alloc, streams, padding);
            run_over(alloc, limit, records, Ok(job), source, out)
        }
        Form::SelfDelimited => unreachable!(),
    }
}
