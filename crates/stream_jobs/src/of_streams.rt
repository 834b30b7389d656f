//! What a job makes of each record of multistream packets.
ghost use Rattle.std.specs.Prelude.{◌≡◌, ℕ, OnOk, OnErr, IfErr, length};
ghost use Rattle.std.specs.Io.KnownBytes.{Appends};
ghost use Rattle.opus_io.specs.Sink.{SinkCause, Onward};
ghost use Rattle.job_loop.specs.Telling.{Goes, Stops, Front};
ghost use Rattle.job_loop.specs.Causes.{Causes, is_write_stop, is_memory_stop};
ghost use Rattle.job_ends.specs.Each.{made_step};
ghost use Rattle.stream_records.specs.Fits.{StreamsFit};
ghost use Rattle.job_ends.specs.EachStands.{EachStands};
ghost use Rattle.stream_jobs.specs.Each.{Makes, made_of, each};
ghost use Rattle.stream_jobs.specs.StreamsJob.{streams_job};

use crate::bad::{broken, unequal};
use crate::refusal::{StreamAnswer, StreamWhy};
use job_ends::{Each, Make};
use job_loop::{JobStop, Lent};
use opus_io::{Sink, SinkStop};
use pack_records::Cut;
use stream_records::{StreamsFound, StreamsItem};

/// What a job makes of a record that isn't bad. The record's number is told with it.
pub(crate) trait MakeStreams {
    ghost makes: { Self → Makes };

    /// Writes what becomes of a record that holds a multistream packet, or tells why the input is refused.
    fn packets<O: Sink>(
        &self,
        number: u64,
        item: &Lent<'_, StreamsItem>,
        out: &mut O,
    ) -> StreamAnswer
        requires fits { StreamsFit (length item.now.item.streams.items) (length item.now.bytes) }
        ensures ok { OnOk result (Goes (made_step number number ((makes self.now).packets number item.now))
            (λ _. Unit {0}) (O.contents out.old) (O.contents out.new)) }
        ensures stop { IfErr result (λ e. Stops e (made_step number number ((makes self.now).packets number item.now))
            (O.contents out.old) (O.contents out.new)) }
        ensures cause { Causes (is_write_stop result) (is_memory_stop result) ⊥
            (O.faults out.old) (O.faults out.new) (O.refusals out.old) (O.refusals out.new) }
        ensures onward { Onward (O.onto out.old) (O.onto out.new) (O.handed out.old) (O.handed out.new) };

    /// Writes what becomes of a lost record.
    fn lost<O: Sink>(&self, number: u64, range: u32, out: &mut O) -> Result<(), SinkStop>
        ensures ok { OnOk result (Appends (O.contents out.old) (O.contents out.new)
            ((makes self.now).lost number range)) }
        ensures front { OnErr result (Front ((makes self.now).lost number range)
            (O.contents out.old) (O.contents out.new)) }
        ensures cause { SinkCause (O.faults out.old) (O.faults out.new)
            (O.refusals out.old) (O.refusals out.new) result }
        ensures onward { Onward (O.onto out.old) (O.onto out.new) (O.handed out.old) (O.handed out.new) };
}

/// The same of each record of so many streams: a bad one is refused.
#[derive(Drop)]
pub(crate) struct OfStreams<M> {
    make: M,
    streams: u8,
}

/// The job that makes this of each record of so many streams, before the first record.
pub(crate) fn each<M: MakeStreams>(make: M, streams: u8) -> Each<OfStreams<M>>
    ensures job { streams_job M.makes result ≡ each streams (M.makes make) }
    ensures stands { EachStands result 0 }
{
    Each::new(OfStreams { make, streams })
}

impl<M: MakeStreams> Make<StreamsItem, Cut> for OfStreams<M> {
    type Why = StreamWhy;

    ghost made = { λ s. made_of s.streams (M.makes s.make) };

    #[inline(always)]
    fn make<O: Sink>(
        &mut self,
        number: u64,
        item: &Lent<'_, StreamsItem>,
        out: &mut O,
    ) -> StreamAnswer {
        let record = item.item();
        match record.found {
            StreamsFound::Packets => self.make.packets(number, item, out),
            StreamsFound::Lost => Ok(self.make.lost(number, record.range, out)?),
            StreamsFound::Broken {
                stream,
                start,
                fault,
            } => Err(JobStop::Refused(broken(number, self.streams, stream, start, fault))),
            StreamsFound::Unequal { stream, start } => {
                Err(JobStop::Refused(unequal(number, stream, start)))
            }
        }
    }
}
