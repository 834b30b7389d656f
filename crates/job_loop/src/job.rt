//! What a job over records has to offer.
ghost use Rattle.std.specs.Prelude.{◌≡◌, OnOk, IfErr};
ghost use Rattle.opus_io.specs.Sink.{Onward};
ghost use Rattle.job_loop.specs.Shown.{Shown};
ghost use Rattle.job_loop.specs.Meaning.{Meaning};
ghost use Rattle.job_loop.specs.Telling.{Goes, Stops};
ghost use Rattle.job_loop.specs.Causes.{Causes, is_write_stop, is_memory_stop};

use crate::{InputEnd, Lent, Numbers};
use opus_io::{Sink, SinkStop};

/// Why a job goes no further. It tells its refusals by an `R`.
#[derive(Clone, Copy, Debug, PartialEq, Eq)]
pub enum JobStop<R> {
    /// The input is refused.
    Refused(R),
    /// A write failed, or memory ran out, in the sink or in the job.
    Sink(SinkStop),
}

impl<R> From<SinkStop> for JobStop<R> {
    ghost use Rattle.std.specs.Prelude.{◌≡◌};
    ghost use Rattle.job_loop.specs.declared.job.JobStop.TheVariants as stops;

    ghost from_gives = { λ stop given. given ≡ stops.Sink stop };

    fn from(stop: SinkStop) -> JobStop<R> {
        JobStop::Sink(stop)
    }
}

/// A job over records with numbers `N` whose inputs may be cut as a `C` tells.
///
/// It knows neither the form of the records nor where they are read. The loop hands it each record as soon as it
/// stands, and then the end of the input. What it writes to the sink is the text of that record or of the end.
pub trait RecordJob<N: Numbers, C> {
    /// What tells a refusal.
    type Refusal: Copy;

    // What the job keeps between records, as its meaning has it.
    ghost Kept: { Type 0 };

    // The job that this object does.
    ghost meaning: { Self → Meaning (Shown N) Kept C Self.Refusal };

    // What the object stands for; it may hold less than the meaning keeps.
    ghost stands: { Self → Kept → Type 0 };

    // Whether the object may run out of memory by itself, and not for its sink's sake alone. Most may not.
    ghost lacks: { Self → Type 0 } = { λ _. ⊥ };

    /// What stands before the first record.
    fn opening(&self) -> &[u8]
        ensures { result.now ≡ (meaning self.now).opening };

    /// Takes the next record, and writes what it becomes. After a stop no further record follows.
    fn take<O: Sink>(
        &mut self,
        item: &Lent<'_, N>,
        out: &mut O,
    ) -> Result<(), JobStop<Self::Refusal>>
        requires fits { N.fits item.now.item item.now.bytes }
        ensures same { meaning self.new ≡ meaning self.old }
        ensures spared { lacks self.new → lacks self.old }
        ensures ok { OnOk result ((k : Kept) → stands self.old k
            → Goes ((meaning self.old).step k item.now) (stands self.new)
            (O.contents out.old) (O.contents out.new)) }
        ensures stop { IfErr result (λ e. (k : Kept) → stands self.old k
            → Stops e ((meaning self.old).step k item.now) (O.contents out.old) (O.contents out.new)) }
        ensures cause { Causes (is_write_stop result) (is_memory_stop result) (lacks self.old)
            (O.faults out.old) (O.faults out.new) (O.refusals out.old) (O.refusals out.new) }
        ensures onward { Onward (O.onto out.old) (O.onto out.new)
            (O.handed out.old) (O.handed out.new) };

    /// Writes what the end of the input adds.
    fn finish<O: Sink>(
        &mut self,
        end: &InputEnd<C>,
        out: &mut O,
    ) -> Result<(), JobStop<Self::Refusal>>
        ensures same { meaning self.new ≡ meaning self.old }
        ensures ok { OnOk result ((k : Kept) → stands self.old k
            → Goes ((meaning self.old).finish k end.now) (λ _. Unit {0})
            (O.contents out.old) (O.contents out.new)) }
        ensures stop { IfErr result (λ e. (k : Kept) → stands self.old k
            → Stops e ((meaning self.old).finish k end.now) (O.contents out.old) (O.contents out.new)) }
        ensures cause { Causes (is_write_stop result) (is_memory_stop result) (lacks self.old)
            (O.faults out.old) (O.faults out.new) (O.refusals out.old) (O.refusals out.new) }
        ensures onward { Onward (O.onto out.old) (O.onto out.new)
            (O.handed out.old) (O.handed out.new) };
}
