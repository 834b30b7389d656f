//! A job that writes the same text for each record and at the end.
ghost use Rattle.std.specs.Prelude.{◌≡◌};
ghost use Rattle.job_loop.specs.SampleJobs.{repeats};

use job_loop::{InputEnd, JobStop, Lent, Numbers, RecordJob};
use opus_io::{Sink, write_all};

#[derive(Drop)]
pub struct Repeats {
    pub text: Vec<u8>,
}

impl<N: Numbers, C> RecordJob<N, C> for Repeats {
    type Refusal = bool;

    ghost Kept = { Unit {0} };

    ghost meaning = { λ s. repeats s.text.items };

    ghost stands = { λ _ _. Unit {0} };

    fn opening(&self) -> &[u8] {
        &[]
    }

    fn take<O: Sink>(&mut self, _: &Lent<'_, N>, out: &mut O) -> Result<(), JobStop<bool>> {
        write_all(out, &self.text)?;
        Ok(())
    }

    fn finish<O: Sink>(&mut self, _: &InputEnd<C>, out: &mut O) -> Result<(), JobStop<bool>> {
        write_all(out, &self.text)?;
        Ok(())
    }
}
