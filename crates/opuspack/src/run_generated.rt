//! A run of a job over made records, which reads no input.
ghost use Rattle.std.specs.Prelude.{◌≡◌, [], OnOk, OnErr};
ghost use Rattle.std.specs.Io.KnownBytes.{Appends};
ghost use Rattle.opus_io.specs.Sink.{Onward};
ghost use Rattle.job_loop.specs.Meaning.{run_text, runs, opened, outcome};
ghost use Rattle.job_loop.specs.Telling.{Front};
ghost use Rattle.job_loop.specs.Causes.{Causes, is_write_stop, is_memory_stop};
ghost use Rattle.job_loop.specs.declared.input_end.InputEnd.TheVariants.{Closed};
ghost use Rattle.opuspack.specs.Made.{made_records};
ghost use Rattle.opuspack.specs.RunGenerated.{HasTaken, IsFresh, stopped_ending};
ghost use Rattle.opuspack.specs.WritesText.{WritesText};

use crate::made::{MadeRecord, MadeRecords};
use crate::never::Never;
use job_loop::{Gather, Gathered, InputEnd, JobStop, RecordJob, take_room};
use opus_io::{Sink, SinkStop};
use opus_words::Ending;
use std::alloc::Global;

/// What a job over made records answers to a record or to the end. It refuses nothing.
pub(crate) type Answer = Result<(), JobStop<Never>>;

/// Does a job over the first `count` records of a seed, and writes its text to `out`, gathered.
///
/// All memory is taken before the first write: 14,455 bytes for a record and 8,192 for writing. `job` was handed
/// nothing yet, and has no opening.
pub(crate) fn run_generated<J, O>(
    alloc: Global,
    seed: u32,
    count: u32,
    job: &mut J,
    out: &mut O,
) -> Ending
where
    J: RecordJob<MadeRecord, Never, Refusal = Never>,
    O: Sink,
    requires fresh { IsFresh (J.meaning job.old) (J.stands job.old) }
    requires spared { J.lacks job.old → ⊥ }
    ensures { WritesText (run_text (outcome (J.meaning job.old) (made_records seed count) Closed))
        (O.contents out.old) (O.contents out.new) (O.faults out.old) (O.faults out.new)
        (O.refusals out.old) (O.refusals out.new) (out.new ≡ out.old) result }
{
    let Ok(mut records) = MadeRecords::new(alloc, seed) else {
        return Ending::NoMemory;
    };
    let Ok(room) = take_room(alloc) else {
        return Ending::NoMemory;
    };
    let mut gathered = Gathered::over(room, out);
    let stopped = run_to_end(&mut records, count, job, &mut gathered);
    gathered.into_inner();
    stopped_ending(stopped)
}

// Hands the records to the job and tells it of the end, and hands on all that it writes.
fn run_to_end<J, O>(records: &mut MadeRecords, count: u32, job: &mut J, out: &mut O) -> Answer
where
    J: RecordJob<MadeRecord, Never, Refusal = Never>,
    O: Gather,
    requires first { records.old.count ≡ 0 }
    requires fresh { IsFresh (J.meaning job.old) (J.stands job.old) }
    ensures ok { OnOk result (Appends (O.contents out.old) (O.contents out.new)
        (run_text (outcome (J.meaning job.old) (made_records records.old.item.seed count) Closed))) }
    ensures held { OnOk result (O.held out.new ≡ []) }
    ensures front { OnErr result (Front
        (run_text (outcome (J.meaning job.old) (made_records records.old.item.seed count) Closed))
        (O.contents out.old) (O.contents out.new)) }
    ensures cause { Causes (is_write_stop result) (is_memory_stop result) (J.lacks job.old)
        (O.faults out.old) (O.faults out.new) (O.refusals out.old) (O.refusals out.new) }
    ensures onward { Onward (O.onto out.old) (O.onto out.new) (O.handed out.old) (O.handed out.new) }
{
    if let Err(stop) = take_records(records, count, job, out) {
        return Err(stop);
    }
    if let Err(stop) = job.finish(&InputEnd::Closed, out) {
        return Err(stop);
    }
    match out.flush() {
        Ok(()) => Ok(()),
        Err(stop) => Err(JobStop::Sink(stop)),
    }
}

// Hands so many records to the job.
fn take_records<J, O>(records: &mut MadeRecords, count: u32, job: &mut J, out: &mut O) -> Answer
where
    J: RecordJob<MadeRecord, Never, Refusal = Never>,
    O: Sink,
    requires first { records.old.count ≡ 0 }
    requires fresh { IsFresh (J.meaning job.old) (J.stands job.old) }
    ensures same { J.meaning job.new ≡ J.meaning job.old }
    ensures spared { J.lacks job.new → J.lacks job.old }
    ensures ok { OnOk result (HasTaken (J.meaning job.old) (J.stands job.new) records.old.item.seed count
        (O.contents out.old) (O.contents out.new)) }
    ensures front { OnErr result (Front
        (run_text (runs (J.meaning job.old) (opened (J.meaning job.old))
        (made_records records.old.item.seed count)))
        (O.contents out.old) (O.contents out.new)) }
    ensures cause { Causes (is_write_stop result) (is_memory_stop result) (J.lacks job.old)
        (O.faults out.old) (O.faults out.new) (O.refusals out.old) (O.refusals out.new) }
    ensures onward { Onward (O.onto out.old) (O.onto out.new) (O.handed out.old) (O.handed out.new) }
{
    for _ in 0..count {
        records.next();
        if let Err(stop) = job.take(&records.record(), out) {
            return Err(stop);
        }
    }
    Ok(())
}

// How the program ends where the job was stopped so, or by nothing.
fn stopped_ending(stopped: Answer) -> Ending
    ensures { result ≡ stopped_ending stopped }
{
    match stopped {
        Ok(()) => Ending::Ok,
        Err(JobStop::Refused(never)) => match never {},
        Err(JobStop::Sink(SinkStop::Failed)) => Ending::WriteFault,
        Err(JobStop::Sink(SinkStop::NoMemory)) => Ending::NoMemory,
    }
}
