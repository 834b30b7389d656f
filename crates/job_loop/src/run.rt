//! The loop over the records of an input, which all jobs share.
ghost use Rattle.std.specs.Prelude.{◌≡◌, ◌⊎◌, [], false};
ghost use Rattle.opus_io.specs.Cause.{RoseWhere};
ghost use Rattle.opus_io.specs.Sink.{Onward};
ghost use Rattle.job_loop.specs.Meaning.{Meaning};
ghost use Rattle.job_loop.specs.Causes.{Causes, is_read_fault, is_write_fault, is_no_memory};
ghost use Rattle.job_loop.specs.Ran.{Ran};

use crate::hand::{close, hand, stopped};
use crate::input_end::end_of;
use crate::records::{Records, Turn};
use crate::{Ending, Form, Gather, InputEnd, RecordJob};
use opus_io::{Failed, Source, write_all};

/// Runs a job over records of which none was read yet, and writes the job's opening first.
///
/// What the job writes is handed on before each read.
pub(crate) fn run_records<F, J, S, O>(
    records: &mut Records<F>,
    job: &mut J,
    source: &mut S,
    out: &mut O,
) -> Ending<J::Refusal>
where
    F: Form,
    J: RecordJob<F::Record, F::Cut>,
    S: Source,
    O: Gather,
    requires bytes { records.old.reader.bytes ≡ [] }
    requires passed { records.old.reader.passed ≡ 0 }
    requires over { records.old.over ≡ false }
    requires form { F.stands records.old.form [] [] }
    requires start { J.stands job.old (J.meaning job.old).start }
    ensures ran { Ran (J.meaning job.old) (F.settles (F.layout records.old.form))
        (F.ends (F.layout records.old.form)) F.place records.old.reader.limit
        (S.left source.old) (S.left source.new) (O.contents out.old) (O.contents out.new) (O.held out.new) result }
    ensures same { J.meaning job.new ≡ J.meaning job.old }
    ensures read { RoseWhere (is_read_fault result) (S.faults source.old) (S.faults source.new) }
    ensures cause { Causes (is_write_fault result) (is_no_memory result)
        (J.lacks job.old ⊎ F.lacks (F.layout records.old.form))
        (O.faults out.old) (O.faults out.new) (O.refusals out.old) (O.refusals out.new) }
    ensures onward { Onward (O.onto out.old) (O.onto out.new) (O.handed out.old) (O.handed out.new) }
{
    if let Err(stop) = write_all(out, job.opening()) {
        return stopped(stop);
    }
    'records: loop {
        match records.next() {
            Turn::Part => {}
            Turn::Record => {
                if let Err(ending) = hand(job, &records.record(), out) {
                    return ending;
                }
            }
            Turn::Needs => {
                if let Err(stop) = out.flush() {
                    return stopped(stop);
                }
                if let Err(Failed) = records.read(source) {
                    return Ending::ReadFault;
                }
            }
            Turn::NoMemory => return Ending::NoMemory,
            Turn::Past => return close(job, InputEnd::Past, out),
            Turn::End(cut) => return close(job, end_of(cut), out),
            Turn::Last(cut) => {
                if let Err(ending) = hand(job, &records.record(), out) {
                    return ending;
                }
                return close(job, end_of(cut), out);
            }
        }
    }
}
