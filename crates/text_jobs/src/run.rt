//! A run of the job over lines.
ghost use Rattle.std.specs.Prelude.{◌≡◌, ◌≤◌};
ghost use Rattle.opus_io.specs.Reader.{max_input};
ghost use Rattle.job_ends.specs.Ends.{MeaningEnds, seen_as};
ghost use Rattle.text_jobs.specs.Sdp.{sdp, TellsSdp};
ghost use Rattle.text_jobs.specs.Lines.{place_of, LineSettles, LineEnds};

use crate::lines::LineForm;
use crate::sdp::Sdp;
use job_ends::run_told;
use opus_io::{Sink, Source};
use opus_words::Ending;
use std::alloc::Global;

/// Does the job sdp: reads `source` up to `limit` bytes, from 1 to 2^40, and writes to `out`.
///
/// What the bytes read settle is written before the next read. A line takes memory while it is read and printed.
pub fn text_job<S: Source, O: Sink>(
    alloc: Global,
    limit: u64,
    source: &mut S,
    out: &mut O,
) -> Ending
    requires some { 1 ≤ limit }
    requires most { limit ≤ max_input }
    ensures { MeaningEnds TellsSdp place_of sdp LineSettles LineEnds limit
        (seen_as (S.left source.old) (S.faults source.old) (O.contents out.old) (O.faults out.old) (O.refusals out.old))
        (seen_as (S.left source.new) (S.faults source.new) (O.contents out.new) (O.faults out.new) (O.refusals out.new))
        (Unit {0}) result }
{
    let mut job = Sdp::new(alloc);
    run_told(alloc, limit, LineForm::new(alloc), &mut job, source, out)
}
