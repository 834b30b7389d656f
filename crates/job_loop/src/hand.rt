//! From the loop to the job: a record, and the end of the input.
ghost use Rattle.std.specs.Prelude.{◌≡◌, ℕ, false, OnOk, IfErr};
ghost use Rattle.std.specs.Io.KnownBytes.{Keeps};
ghost use Rattle.opus_io.specs.Sink.{Onward};
ghost use Rattle.job_loop.specs.Meaning.{Meaning};
ghost use Rattle.job_loop.specs.Telling.{Goes, Halts, Refusing, Closes, ending_of, over_of};
ghost use Rattle.job_loop.specs.Causes.{Causes, is_read_fault, is_write_fault, is_no_memory, is_write_halt, is_memory_halt};

use crate::{Ending, Gather, InputEnd, JobStop, Lent, Numbers, RecordJob};
use opus_io::SinkStop;

/// Hands a record to the job. Where the job refuses it, what was written is handed on.
#[inline(always)]
pub(crate) fn hand<N: Numbers, C, J: RecordJob<N, C>, O: Gather>(
    job: &mut J,
    item: &Lent<'_, N>,
    out: &mut O,
) -> Result<(), Ending<J::Refusal>>
    requires fits { N.fits item.now.item item.now.bytes }
    ensures same { J.meaning job.new ≡ J.meaning job.old }
    ensures spared { J.lacks job.new → J.lacks job.old }
    ensures ok { OnOk result ((k : J.Kept) → J.stands job.old k
        → Goes ((J.meaning job.old).step k item.now) (J.stands job.new)
        (O.contents out.old) (O.contents out.new)) }
    ensures halt { IfErr result (λ e. (k : J.Kept) → J.stands job.old k
        → Halts e ((J.meaning job.old).step k item.now)
        (O.contents out.old) (O.contents out.new) (O.held out.new)) }
    ensures own { IfErr result (λ e. is_read_fault e ≡ false) }
    ensures cause { Causes (is_write_halt result) (is_memory_halt result) (J.lacks job.old)
        (O.faults out.old) (O.faults out.new) (O.refusals out.old) (O.refusals out.new) }
    ensures onward { Onward (O.onto out.old) (O.onto out.new) (O.handed out.old) (O.handed out.new) }
{
    match job.take(item, out) {
        Ok(()) => Ok(()),
        Err(JobStop::Refused(refusal)) => Err(refuse(refusal, out)),
        Err(JobStop::Sink(stop)) => Err(stopped(stop)),
    }
}

/// Tells the job how the input ends, hands on all that was written, and ends the run.
#[cold]
#[inline(never)]
pub(crate) fn close<N: Numbers, C: Copy, J: RecordJob<N, C>, O: Gather>(
    job: &mut J,
    end: InputEnd<C>,
    out: &mut O,
) -> Ending<J::Refusal>
    ensures same { J.meaning job.new ≡ J.meaning job.old }
    ensures closes { (k : J.Kept) → J.stands job.old k
        → Closes result end ((J.meaning job.old).finish k end)
        (O.contents out.old) (O.contents out.new) (O.held out.new) }
    ensures own { is_read_fault result ≡ false }
    ensures cause { Causes (is_write_fault result) (is_no_memory result) (J.lacks job.old)
        (O.faults out.old) (O.faults out.new) (O.refusals out.old) (O.refusals out.new) }
    ensures onward { Onward (O.onto out.old) (O.onto out.new) (O.handed out.old) (O.handed out.new) }
{
    match job.finish(&end, out) {
        Ok(()) => match out.flush() {
            Ok(()) => over(end),
            Err(stop) => stopped(stop),
        },
        Err(JobStop::Refused(refusal)) => refuse(refusal, out),
        Err(JobStop::Sink(stop)) => stopped(stop),
    }
}

// Hands on what stands before a refusal. Where that fails, this is how the run ends.
#[cold]
#[inline(never)]
fn refuse<R: Copy, O: Gather>(refusal: R, out: &mut O) -> Ending<R>
    ensures refusing { Refusing refusal result (O.held out.new) }
    ensures keeps { Keeps (O.contents out.old) (O.contents out.new) }
    ensures own { is_read_fault result ≡ false }
    ensures cause { Causes (is_write_fault result) (is_no_memory result) ⊥
        (O.faults out.old) (O.faults out.new) (O.refusals out.old) (O.refusals out.new) }
    ensures onward { Onward (O.onto out.old) (O.onto out.new) (O.handed out.old) (O.handed out.new) }
{
    match out.flush() {
        Ok(()) => Ending::Refused(refusal),
        Err(SinkStop::Failed) => Ending::WriteFault,
        Err(SinkStop::NoMemory) => Ending::NoMemory,
    }
}

/// How a run ends that the sink stops.
pub(crate) fn stopped<R>(stop: SinkStop) -> Ending<R>
    ensures { result ≡ ending_of stop }
{
    match stop {
        SinkStop::Failed => Ending::WriteFault,
        SinkStop::NoMemory => Ending::NoMemory,
    }
}

// How a run ends that nothing stops.
fn over<C: Copy, R>(end: InputEnd<C>) -> Ending<R>
    ensures { result ≡ over_of end }
{
    match end {
        InputEnd::Closed | InputEnd::Cut(_) => Ending::Ok,
        InputEnd::Past => Ending::InputLimit,
    }
}
