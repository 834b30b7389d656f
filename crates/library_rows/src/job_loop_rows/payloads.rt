//! A job that writes the bytes of each record, each behind a mark, and refuses an empty one.
ghost use Rattle.std.specs.Prelude.{◌≡◌};
ghost use Rattle.job_loop.specs.SampleJobs.{payloads};

use job_loop::{InputEnd, JobStop, Lent, Numbers, RecordJob, write_both};
use opus_io::{Sink, write_all};

#[derive(Drop)]
pub struct Payloads;

impl<N: Numbers, C> RecordJob<N, C> for Payloads {
    type Refusal = bool;

    ghost Kept = { Unit {0} };

    ghost meaning = { λ _. payloads };

    ghost stands = { λ _ _. Unit {0} };

    fn opening(&self) -> &[u8] {
        b"#"
    }

    fn take<O: Sink>(&mut self, item: &Lent<'_, N>, out: &mut O) -> Result<(), JobStop<bool>> {
        if item.bytes().is_empty() {
            return Err(JobStop::Refused(false));
        }
        write_both(out, b":", item.bytes())?;
        Ok(())
    }

    fn finish<O: Sink>(&mut self, end: &InputEnd<C>, out: &mut O) -> Result<(), JobStop<bool>> {
        match end {
            InputEnd::Cut(_) => Err(JobStop::Refused(true)),
            _ => {
                write_all(out, b".")?;
                Ok(())
            }
        }
    }
}
