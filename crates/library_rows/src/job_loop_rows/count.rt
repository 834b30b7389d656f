//! A job that counts records, up to 255 of them, and writes the count at the end.
ghost use Rattle.std.specs.Prelude.{◌≡◌, ℕ};
ghost use Rattle.job_loop.specs.SampleJobs.{counts};

use job_loop::{InputEnd, JobStop, Lent, Numbers, RecordJob};
use opus_io::{Sink, write_all};

#[derive(Drop)]
pub struct Count {
    count: u8,
}

impl Count {
    pub fn new() -> Count
        ensures { result.count ≡ 0 }
    {
        Count { count: 0 }
    }
}

impl<N: Numbers, C> RecordJob<N, C> for Count {
    type Refusal = bool;

    ghost Kept = { ℕ };

    ghost meaning = { λ _. counts };

    ghost stands = { λ s k. k ≡ s.count };

    fn opening(&self) -> &[u8] {
        &[]
    }

    fn take<O: Sink>(&mut self, _: &Lent<'_, N>, _: &mut O) -> Result<(), JobStop<bool>> {
        self.count = self.count.saturating_add(1);
        Ok(())
    }

    fn finish<O: Sink>(&mut self, _: &InputEnd<C>, out: &mut O) -> Result<(), JobStop<bool>> {
        write_all(out, &[self.count])?;
        Ok(())
    }
}
