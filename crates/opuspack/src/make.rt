//! The job make: the `opus_demo` store of a seed's first records.
ghost use Rattle.std.specs.Prelude.{◌≡◌, ◌<◌};
ghost use Rattle.opuspack.specs.Make.{make, made_store};
ghost use Rattle.opuspack.specs.WritesText.{WritesText};

use crate::made::MadeRecord;
use crate::never::Never;
use crate::run_generated::{Answer, run_generated};
use job_loop::{InputEnd, Lent, RecordJob, write_both};
use opus_io::Sink;
use opus_words::Ending;
use rec_store::demo_head;
use std::alloc::Global;

/// Writes the store of the first `count` records of a seed, each with its number as final range.
pub(crate) fn make_job<O: Sink>(alloc: Global, seed: u32, count: u32, out: &mut O) -> Ending
    ensures { WritesText (made_store seed count) (O.contents out.old) (O.contents out.new)
        (O.faults out.old) (O.faults out.new) (O.refusals out.old) (O.refusals out.new)
        (out.new ≡ out.old) result }
{
    run_generated(alloc, seed, count, &mut Make, out)
}

/// Writes each record into the store.
#[derive(Drop)]
struct Make;

impl RecordJob<MadeRecord, Never> for Make {
    type Refusal = Never;

    ghost Kept = { Unit {0} };

    ghost meaning = { λ _. make };

    ghost stands = { λ _ _. Unit {0} };

    fn opening(&self) -> &[u8] {
        &[]
    }

    fn take<O: Sink>(&mut self, item: &Lent<'_, MadeRecord>, out: &mut O) -> Answer {
        let payload = item.bytes();
        let head = demo_head(payload.len() as u32, item.item().number);
        write_both(out, &head, payload)?;
        Ok(())
    }

    fn finish<O: Sink>(&mut self, _: &InputEnd<Never>, _: &mut O) -> Answer {
        Ok(())
    }
}
