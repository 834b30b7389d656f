//! A run of a job over a source, from its first byte to its answer.
ghost use Rattle.std.specs.Prelude.{◌≡◌, ◌⊎◌, ◌+◌, ◌≤◌, List, [], IfSome};
ghost use Rattle.opus_io.specs.Reader.{max_input};
ghost use Rattle.opus_io.specs.Cause.{RoseWhere};
ghost use Rattle.job_loop.specs.Shown.{Shown};
ghost use Rattle.job_loop.specs.Meaning.{Meaning, outcome};
ghost use Rattle.job_loop.specs.declared.input_end.InputEnd.{InputEnd};
ghost use Rattle.job_loop.specs.Causes.{Causes, is_read_fault, is_write_fault, is_no_memory};
ghost use Rattle.job_loop.specs.Ran.{Ran};
ghost use Rattle.job_loop.specs.Reading.{Reads, Answers, TakesAtMost};

use crate::gathered::{Gathered, take_room};
use crate::records::Records;
use crate::run::run_records;
use crate::{Ending, Form, RecordJob};
use opus_io::{Reader, Sink, Source};
use std::alloc::Global;

/// Runs a job over a source of this form, up to `limit` bytes, from 1 to 2^40, and writes its text to `out`.
///
/// Each record is handed to the job before the next read, and what the job wrote is handed on to `out` before it
/// too. The memory for this is taken before the first read: 4,096 bytes for reading and 8,192 for writing. `form` has
/// been fed nothing yet, and `job` was handed nothing.
pub fn run_job<F, J, S, O>(
    alloc: Global,
    limit: u64,
    form: F,
    job: &mut J,
    source: &mut S,
    out: &mut O,
) -> Ending<J::Refusal>
where
    F: Form + Drop,
    J: RecordJob<F::Record, F::Cut>,
    S: Source,
    O: Sink,
    requires some { 1 ≤ limit }
    requires most { limit ≤ max_input }
    requires form { F.stands form [] [] }
    requires start { J.stands job.old (J.meaning job.old).start }
    ensures ran { Ran (J.meaning job.old) (F.settles (F.layout form)) (F.ends (F.layout form)) F.place limit
        (S.left source.old) (S.left source.new) (O.contents out.old) (O.contents out.new) [] result }
    ensures judged { IfSome (S.left source.old) (λ x. (rs : List (Shown F.Record)) (end : InputEnd F.Cut)
        → Reads (F.settles (F.layout form)) (F.ends (F.layout form)) limit x rs end
        → Answers result end (outcome (J.meaning job.old) rs end) (O.contents out.old) (O.contents out.new)) }
    ensures taken { TakesAtMost (limit + 1) (S.left source.old) (S.left source.new) }
    ensures same { J.meaning job.new ≡ J.meaning job.old }
    ensures read { RoseWhere (is_read_fault result) (S.faults source.old) (S.faults source.new) }
    ensures cause { Causes (is_write_fault result) (is_no_memory result)
        ((J.lacks job.old ⊎ F.lacks (F.layout form)) ⊎ source.new ≡ source.old)
        (O.faults out.old) (O.faults out.new) (O.refusals out.old) (O.refusals out.new) }
{
    let Ok(reader) = Reader::new(alloc, limit) else {
        return Ending::NoMemory;
    };
    let Ok(room) = take_room(alloc) else {
        return Ending::NoMemory;
    };
    let mut gathered = Gathered::over(room, out);
    let ending = run_records(&mut Records::new(reader, form), job, source, &mut gathered);
    gathered.into_inner();
    ending
}
