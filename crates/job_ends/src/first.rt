//! The end of a job that keeps the first refusal.
ghost use Rattle.std.specs.Prelude.{ℕ, List, Option as Optional, OnOk, IfErr};
ghost use Rattle.job_loop.specs.Telling.{Goes, Stops};
ghost use Rattle.job_loop.specs.Causes.{Causes, is_write_stop, is_memory_stop};
ghost use Rattle.job_ends.specs.First.{first_end};

use crate::cut::CutReason;
use crate::refusal::{Answer, Refusal};
use job_loop::{InputEnd, JobStop};

/// Ends a job that keeps the first refusal: a closed or a cut input is refused for it, and a cut one else for the cut, with
/// the number of the cut record.
pub fn end_by_first<C, W: CutReason<C>>(
    first: Option<Refusal<W>>,
    number: u64,
    end: &InputEnd<C>,
) -> Answer<W>
    ensures ok { (text : Optional (List ℕ)) → OnOk result
        (Goes (first_end W.cut_refusal number first end.now) (λ _. Unit {0}) text text) }
    ensures stop { (text : Optional (List ℕ)) → IfErr result
        (λ e. Stops e (first_end W.cut_refusal number first end.now) text text) }
    ensures cause { (faults refusals : ℕ) → Causes (is_write_stop result) (is_memory_stop result) ⊥
        faults faults refusals refusals }
{
    match end {
        InputEnd::Closed => match first {
            Some(first) => Err(JobStop::Refused(first)),
            None => Ok(()),
        },
        InputEnd::Cut(cut) => Err(JobStop::Refused(first.unwrap_or(W::cut(number, cut)))),
        InputEnd::Past => Ok(()),
    }
}
