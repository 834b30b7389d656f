//! A run of a job over records of a form, where both are made before.
ghost use Rattle.std.specs.Prelude.{◌≡◌, ◌≤◌, ℕ, [], IfOk};
ghost use Rattle.opus_io.specs.Reader.{max_input};
ghost use Rattle.job_loop.specs.Shown.{Shown};
ghost use Rattle.job_loop.specs.Meaning.{Meaning};
ghost use Rattle.job_ends.specs.Ends.{MeaningEnds, seen_as};

use crate::run::run_told;
use crate::told::Told;
use job_loop::{Form, RecordJob};
use opus_io::{NoMemory, Sink, Source};
use opus_words::Ending;
use std::alloc::Global;

/// Runs a job over records of a form, which both take no more memory, and whose own was taken before, if there was some: that
/// of the form, which was fed nothing yet, and that of the job. It reads `source` up to `limit` bytes, from 1 to 2^40, and
/// writes to `out`.
pub fn run_over<F, J, R, S, O>(
    alloc: Global,
    limit: u64,
    records: Result<F, NoMemory>,
    made: Result<J, NoMemory>,
    source: &mut S,
    out: &mut O,
) -> Ending
where
    F: Form + Drop,
    R: Told,
    J: RecordJob<F::Record, F::Cut, Refusal = R> + Drop,
    S: Source,
    O: Sink,
    requires some { 1 ≤ limit }
    requires most { limit ≤ max_input }
    requires stands { IfOk records (λ f. F.stands f [] []) }
    requires start { IfOk made (λ j. J.stands j (J.meaning j).start) }
    requires spared { IfOk made (λ j. J.lacks j → ⊥) }
    requires form_spared { (layout : F.Layout) → F.lacks layout → ⊥ }
    // Want of memory comes only where nothing was read, or the sink refused to grow.
    ensures { (m : Meaning (Shown F.Record) J.Kept F.Cut R) → IfOk made (λ j. J.meaning j ≡ m)
        → (layout : F.Layout) → IfOk records (λ f. F.layout f ≡ layout) → F.settles layout [] []
        → (place : Shown F.Record → ℕ) → F.place ≡ place
        → MeaningEnds R.tells place m (F.settles layout) (F.ends layout) limit
        (seen_as (S.left source.old) (S.faults source.old) (O.contents out.old) (O.faults out.old) (O.refusals out.old))
        (seen_as (S.left source.new) (S.faults source.new) (O.contents out.new) (O.faults out.new) (O.refusals out.new))
        (source.new ≡ source.old) result }
{
    let Ok(records) = records else {
        return Ending::NoMemory;
    };
    match made {
        Ok(mut job) => run_told(alloc, limit, records, &mut job, source, out),
        Err(NoMemory) => Ending::NoMemory,
    }
}
