//! The job split: each packet in pieces.
ghost use Rattle.std.specs.Prelude.{◌≡◌, ◌≤◌, IfOk, OnOk, OnErr};
ghost use Rattle.std.specs.Io.KnownBytes.{Appends};
ghost use Rattle.opus_io.specs.Sink.{SinkCause, Onward};
ghost use Rattle.job_loop.specs.Telling.{Front};
ghost use Rattle.pack_jobs.specs.Split.{split, split_found, pieces, piece_records, range_to};

use crate::record::{write_packet, write_record};
use crate::refusal::{Refusal, Why, refusal_at};
use job_ends::{Answer, Each, Make};
use job_loop::{JobStop, Lent};
use opus_io::{NoMemory, Sink, SinkStop};
use opus_packet::Packet;
use opus_repack::Repacketizer;
use opus_words::Form;
use pack_records::{Cut, Found, Item, lent_packet};
use std::alloc::Global;

/// Writes each packet in pieces of so many frames, the last one shorter where fewer are left. The last piece keeps the
/// packet's range, and the others have 0.
#[derive(Drop)]
pub(crate) struct Split {
    form: Form,
    // Frames of a piece.
    most: usize,
    frames: Repacketizer,
    ghost some: { 1 ≤ most },
}

impl Split {
    ghost use Rattle.std.specs.Prelude.{◌≤◌};
    ghost use Rattle.job_ends.specs.EachStands.{EachStands};
    ghost use Rattle.pack_jobs.specs.SplitJob.{split_job};

    /// The job over an input of this form, before its first record: pieces of `most` frames. It takes all memory that it
    /// needs.
    pub(crate) fn job(alloc: Global, form: Form, most: usize) -> Result<Each<Split>, NoMemory>
        requires { 1 ≤ most }
        ensures job { IfOk result (λ s. split_job s ≡ split form most) }
        ensures stands { IfOk result (λ s. EachStands s 0) }
    {
        let frames = Repacketizer::new(alloc)?;
        Ok(Each::new(Split { form, most, frames }))
    }

    // Writes the pieces of a packet.
    #[inline(always)]
    fn write_pieces<O: Sink>(
        &mut self,
        range: u32,
        packet: &Packet<'_>,
        out: &mut O,
    ) -> Result<(), SinkStop>
        ensures form { self.new.form ≡ self.old.form }
        ensures most { self.new.most ≡ self.old.most }
        ensures ok { OnOk result (Appends (O.contents out.old) (O.contents out.new)
            (piece_records self.old.form range (pieces self.old.most packet.now.value))) }
        ensures front { OnErr result (Front (piece_records self.old.form range (pieces self.old.most packet.now.value))
            (O.contents out.old) (O.contents out.new)) }
        ensures cause { SinkCause (O.faults out.old) (O.faults out.new)
            (O.refusals out.old) (O.refusals out.new) result }
        ensures onward { Onward (O.onto out.old) (O.onto out.new) (O.handed out.old) (O.handed out.new) }
    {
        self.frames.clear();
        self.frames.cat(packet).unwrap();
        let all = self.frames.count();
        let mut from = 0;
        'pieces: while from < all {
            let to = from + self.most.min(all - from);
            let piece = self.frames.part(from, to);
            write_packet(self.form, range_to(range, all, to), &piece, out)?;
            from = to;
        }
        Ok(())
    }
}

impl Make<Item, Cut> for Split {
    type Why = Why;

    ghost made = { λ s number r. split_found s.form s.most r r.item.found };

    #[inline(always)]
    fn make<O: Sink>(&mut self, number: u64, item: &Lent<'_, Item>, out: &mut O) -> Answer<Why> {
        let record = item.item();
        match record.found {
            Found::Packet { framing, .. } => {
                if let Some(packet) = lent_packet(framing, item.bytes()) {
                    self.write_pieces(record.range, &packet, out)?;
                }
            }
            Found::Lost => write_record(self.form, record.range, &[], out)?,
            Found::Bad(fault) => return Err(JobStop::Refused(refusal_at(number, record, fault))),
        }
        Ok(())
    }
}

// The range of the piece that ends before frame `to` of `all`.
fn range_to(range: u32, all: usize, to: usize) -> u32
    ensures { result ≡ range_to range all to }
{
    if to == all { range } else { 0 }
}
