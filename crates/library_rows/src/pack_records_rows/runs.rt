//! Runs of a job that writes the bytes of each record, so that it gives the packets of its input in their kept forms.
ghost use Rattle.std.specs.Prelude.{[]};
ghost use Rattle.job_loop.specs.Meaning.{goes};

use super::STEPS;
use job_loop::{Ending, InputEnd, JobStop, Lent, Numbers, RecordJob, run_job};
use opus_feed::{Framing, Padding};
use opus_io::{MemorySink, MemorySource, Sink, write_all};
use pack_records::{Cut, RawForm, SelfForm};
use std::alloc::Global;
use std::test::Fail;

// Writes the bytes of each record.
#[derive(Drop)]
pub(crate) struct Texts;

impl<N: Numbers> RecordJob<N, Cut> for Texts {
    type Refusal = bool;

    ghost Kept = { Unit {0} };

    ghost meaning = { λ _. record {
      opening = [];
      start = tt;
      step = λ k r. goes r.bytes tt;
      finish = λ k end. goes [] tt;
    } };

    ghost stands = { λ _ _. Unit {0} };

    ghost lacks = { λ _. ⊥ };

    fn opening(&self) -> &[u8] {
        &[]
    }

    fn take<O: Sink>(&mut self, item: &Lent<'_, N>, out: &mut O) -> Result<(), JobStop<bool>> {
        write_all(out, item.bytes())?;
        Ok(())
    }

    fn finish<O: Sink>(&mut self, _: &InputEnd<Cut>, out: &mut O) -> Result<(), JobStop<bool>> {
        write_all(out, &[])?;
        Ok(())
    }
}

// An input in a framing, and what the run writes.
const ROWS: &[(Framing, &[u8], &[u8])] = &[
    (
        Framing::Whole,
        b"\xFA\x02\xAA\xBB\xCC\xDD",
        b"\xF9\xAA\xBB\xCC\xDD",
    ),
    (
        Framing::SelfDelimited,
        b"\xFB\x41\x01\x02\xAA\xBB\x00\xF8\x00",
        b"\xF8\x02\xAA\xBB\xF8\x00",
    ),
];

fn run(
    alloc: Global,
    framing: Framing,
    source: &mut MemorySource,
    sink: &mut MemorySink,
) -> Result<Ending<bool>, Fail> {
    match framing {
        Framing::Whole => {
            let form = RawForm::new(alloc, Padding::Drop)?;
            Ok(run_job(alloc, 9, form, &mut Texts, source, sink))
        }
        Framing::SelfDelimited => {
            let form = SelfForm::new(alloc, Padding::Drop)?;
            Ok(run_job(alloc, 9, form, &mut Texts, source, sink))
        }
    }
}

fn is_written(alloc: Global, row: &(Framing, &[u8], &[u8]), step: usize) -> Result<bool, Fail> {
    let mut source = MemorySource::new(alloc, row.1, step.max(1), &[])?;
    let mut sink = MemorySink::new(alloc, step.max(1), &[])?;
    let end = run(alloc, row.0, &mut source, &mut sink)?;
    Ok(end == Ending::Ok && sink.contents() == row.2)
}

#[test]
fn a_run_gives_the_kept_forms(rt: HostRuntime) -> Result<(), Fail> {
    for row in ROWS {
        for step in STEPS {
            assert!(rt; is_written(rt.alloc(), row, step)?, "{row:?} by {step}");
        }
    }
    Ok(())
}
