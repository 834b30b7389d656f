//! The jobs over packets, by their kinds and forms.
ghost use Rattle.std.specs.Prelude.{◌≡◌, ◌≤◌, [], IfOk};
ghost use Rattle.job_ends.specs.Ends.{seen_as};
ghost use Rattle.job_ends.specs.Choices.{form_in, padding_in};
ghost use Rattle.pack_jobs.specs.PackEnds.{IsPackKind, IsPackJob, PackEnds, JobEnds, place_of, most_in, size_in};

use crate::check::Check;
use crate::merge::Merge;
use crate::norm::Norm;
use crate::pad::Pad;
use crate::show::Show;
use crate::split::Split;
use job_ends::{Each, Task, form_in, padding_in, run_over};
use job_loop::Form as RecordForm;
use opus_io::{NoMemory, Sink, Source};
use opus_words::{Ending, Form, Job, JobKind};
use pack_records::{Cut, DemoForm, Item, RawForm, SelfForm};

// The frames of a piece.
fn most_in(job: &Job) -> usize
    ensures is { result ≡ most_in job.now }
    ensures some { 1 ≤ result }
{
    usize::from(job.frames.unwrap_or(1).max(1))
}

// The size of a padded packet in bytes.
fn size_in(job: &Job) -> u32
    ensures { result ≡ size_in job.now }
{
    job.size.unwrap_or(0)
}

/// Does a job over packets: reads `source` up to the task's limit, and writes to `out`.
///
/// What the bytes read settle is written before the next read. All memory is taken before the first read.
pub fn pack_job<S: Source, O: Sink>(task: Task<'_>, source: &mut S, out: &mut O) -> Ending
    requires { IsPackJob task.job.now }
    ensures { PackEnds task.entry.job.now task.entry.limit
        (seen_as (S.left source.old) (S.faults source.old) (O.contents out.old) (O.faults out.old) (O.refusals out.old))
        (seen_as (S.left source.new) (S.faults source.new) (O.contents out.new) (O.faults out.new) (O.refusals out.new))
        (source.new ≡ source.old) result }
{
    let alloc = task.alloc;
    let padding = padding_in(task.job);
    match form_in(task.job) {
        Form::Raw => run_kind(task, RawForm::new(alloc, padding), source, out),
        Form::Demo => run_kind(task, DemoForm::new(alloc, padding), source, out),
        Form::SelfDelimited => run_kind(task, SelfForm::new(alloc, padding), source, out),
    }
}

// Does a job over records of a form, if there was memory for it: one line a job.
fn run_kind<F, S, O>(
    task: Task<'_>,
    records: Result<F, NoMemory>,
    source: &mut S,
    out: &mut O,
) -> Ending
where
    F: RecordForm<Record = Item, Cut = Cut> + Drop,
    S: Source,
    O: Sink,
    requires kind { IsPackKind task.job.now.kind }
    requires stands { IfOk records (λ f. F.stands f [] []) }
    requires place { F.place ≡ place_of }
    requires form_spared { (layout : F.Layout) → F.lacks layout → ⊥ }
    ensures { (layout : F.Layout) → IfOk records (λ f. F.layout f ≡ layout) → F.settles layout [] []
        → JobEnds task.entry.job.now (F.settles layout) (F.ends layout) task.entry.limit
        (seen_as (S.left source.old) (S.faults source.old) (O.contents out.old) (O.faults out.old) (O.refusals out.old))
        (seen_as (S.left source.new) (S.faults source.new) (O.contents out.new) (O.faults out.new) (O.refusals out.new))
        (source.new ≡ source.old) result }
{
    let Task { alloc, job, limit } = task;
    let form = form_in(job);
    match job.kind {
        JobKind::Norm => {
            let norm = Each::new(Norm {
                form,
                padding: padding_in(job),
            });
            run_over(alloc, limit, records, Ok(norm), source, out)
        }
        JobKind::Check => {
            let check = Check::new(form);
            run_over(alloc, limit, records, Ok(check), source, out)
        }
        JobKind::Show => {
            let show = Each::new(Show);
            run_over(alloc, limit, records, Ok(show), source, out)
        }
        JobKind::Merge => {
            let merge = Merge::new(alloc, form, job.group);
            run_over(alloc, limit, records, merge, source, out)
        }
        JobKind::Split => {
            let split = Split::job(alloc, form, most_in(job));
            run_over(alloc, limit, records, split, source, out)
        }
        JobKind::Pad => {
            let pad = Pad::job(alloc, form, size_in(job));
            run_over(alloc, limit, records, pad, source, out)
        }
        _ => unreachable!(),
    }
}
