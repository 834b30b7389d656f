//! A job that makes something of each record by itself.
ghost use Rattle.std.specs.Prelude.{◌≡◌, ℕ, OnOk, IfErr};
ghost use Rattle.opus_io.specs.Sink.{Onward};
ghost use Rattle.job_loop.specs.Shown.{Shown};
ghost use Rattle.job_loop.specs.Telling.{Goes, Stops};
ghost use Rattle.job_loop.specs.Causes.{Causes, is_write_stop, is_memory_stop};
ghost use Rattle.job_ends.specs.Refusal.{told};
ghost use Rattle.job_ends.specs.Each.{Made, made_step, each};

use crate::cut::CutReason;
use crate::refusal::{Answer, Refusal};
use job_loop::{InputEnd, JobStop, Lent, Numbers, RecordJob};
use opus_io::Sink;

/// What a job makes of each record by itself, of an input whose cuts a `C` tells.
pub trait Make<N: Numbers, C> {
    /// Why an input is refused.
    type Why: CutReason<C>;

    // What becomes of a record for which this number is told.
    ghost made: { Self → ℕ → Shown N → Made Self.Why };

    /// Writes what becomes of a record, or tells why the input is refused. The record's number is told with it.
    fn make<O: Sink>(&mut self, number: u64, item: &Lent<'_, N>, out: &mut O) -> Answer<Self::Why>
        requires fits { N.fits item.now.item item.now.bytes }
        ensures same { made self.new ≡ made self.old }
        ensures ok { OnOk result (Goes (made_step number number (made self.old number item.now))
            (λ _. Unit {0}) (O.contents out.old) (O.contents out.new)) }
        ensures stop { IfErr result (λ e. Stops e (made_step number number (made self.old number item.now))
            (O.contents out.old) (O.contents out.new)) }
        ensures cause { Causes (is_write_stop result) (is_memory_stop result) ⊥
            (O.faults out.old) (O.faults out.new) (O.refusals out.old) (O.refusals out.new) }
        ensures onward { Onward (O.onto out.old) (O.onto out.new) (O.handed out.old) (O.handed out.new) };
}

/// The job that makes this of each record.
#[derive(Drop)]
pub struct Each<M> {
    make: M,
    // How many records were taken.
    count: u64,
}

impl<M> Each<M> {
    ghost use Rattle.job_ends.specs.EachStands.{maker_of, EachStands};

    /// Before the first record.
    pub fn new(make: M) -> Each<M>
        ensures make { maker_of result ≡ make }
        ensures stands { EachStands result 0 }
    {
        Each { make, count: 0 }
    }
}

impl<N: Numbers, C, M: Make<N, C>> RecordJob<N, C> for Each<M> {
    ghost use Rattle.job_ends.specs.EachStands.{maker_of, EachStands};

    type Refusal = Refusal<M::Why>;

    ghost Kept = { ℕ };

    ghost meaning = { λ e. each M.Why.cut_refusal (λ count r. M.made (maker_of e) (told count) r) };

    ghost stands = { EachStands };

    #[inline]
    fn opening(&self) -> &[u8] {
        &[]
    }

    #[inline(always)]
    fn take<O: Sink>(&mut self, item: &Lent<'_, N>, out: &mut O) -> Answer<M::Why> {
        self.make.make(self.count, item, out)?;
        self.count = self.count.saturating_add(1);
        Ok(())
    }

    fn finish<O: Sink>(&mut self, end: &InputEnd<C>, _: &mut O) -> Answer<M::Why> {
        match end {
            InputEnd::Cut(cut) => Err(JobStop::Refused(M::Why::cut(self.count, cut))),
            _ => Ok(()),
        }
    }
}
