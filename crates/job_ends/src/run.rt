//! A run of a job over records of a form, as the program tells its end.
ghost use Rattle.std.specs.Prelude.{◌≡◌, ◌⊎◌, ◌≤◌, []};
ghost use Rattle.opus_io.specs.Reader.{max_input};
ghost use Rattle.job_ends.specs.Ends.{MeaningEnds, TellsEnding, seen_as};

use crate::told::Told;
use job_loop::{Ending as LoopEnding, Form, RecordJob, run_job};
use opus_io::{Sink, Source};
use opus_words::Ending;
use std::alloc::Global;

/// Runs a job over records of a form, which was fed nothing yet: reads `source` up to `limit` bytes, from 1 to 2^40, and
/// writes to `out`.
///
/// What the bytes read settle is written before the next read. The memory of the loop is taken before the first read.
pub fn run_told<F, J, R, S, O>(
    alloc: Global,
    limit: u64,
    records: F,
    job: &mut J,
    source: &mut S,
    out: &mut O,
) -> Ending
where
    F: Form + Drop,
    R: Told,
    J: RecordJob<F::Record, F::Cut, Refusal = R>,
    S: Source,
    O: Sink,
    requires some { 1 ≤ limit }
    requires most { limit ≤ max_input }
    requires stands { F.stands records [] [] }
    requires start { J.stands job.old (J.meaning job.old).start }
    // Want of memory comes only where the job or the form may run out, nothing was read, or the sink refused to grow.
    ensures { MeaningEnds R.tells F.place (J.meaning job.old)
        (F.settles (F.layout records)) (F.ends (F.layout records)) limit
        (seen_as (S.left source.old) (S.faults source.old) (O.contents out.old) (O.faults out.old) (O.refusals out.old))
        (seen_as (S.left source.new) (S.faults source.new) (O.contents out.new) (O.faults out.new) (O.refusals out.new))
        ((J.lacks job.old ⊎ F.lacks (F.layout records)) ⊎ source.new ≡ source.old) result }
{
    ending_of(run_job(alloc, limit, records, job, source, out))
}

// The program's ending, with the text of a refusal.
fn ending_of<R: Told>(ending: LoopEnding<R>) -> Ending
    ensures { TellsEnding R.tells result ending }
{
    match ending {
        LoopEnding::Ok => Ending::Ok,
        LoopEnding::Refused(refusal) => Ending::Refused(refusal.fault()),
        LoopEnding::ReadFault => Ending::ReadFault,
        LoopEnding::WriteFault => Ending::WriteFault,
        LoopEnding::InputLimit => Ending::InputLimit,
        LoopEnding::NoMemory => Ending::NoMemory,
    }
}
