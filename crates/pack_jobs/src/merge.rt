//! The job merge: packets in groups, each written as one.
ghost use Rattle.std.specs.Prelude.{◌≡◌, ◌++◌, [], IfOk, OnOk, OnErr};
ghost use Rattle.std.specs.Io.KnownBytes.{Appends};
ghost use Rattle.opus_io.specs.Sink.{SinkCause, Onward};
ghost use Rattle.job_loop.specs.Telling.{Front};
ghost use Rattle.pack_records.specs.Lent.{lent_value};
ghost use Rattle.pack_jobs.specs.Records.{record_bytes};
ghost use Rattle.pack_jobs.specs.Merge.{merge, MergeKept, put_behind, lent_behind, with_packet, with_lent, no_packets, next_group, group_text, full_text};

use crate::record::{write_packet, write_record};
use crate::refusal::{Refusal, Why, refusal_at};
use job_ends::{Answer, CutReason};
use job_loop::{InputEnd, JobStop, Lent, RecordJob};
use opus_feed::Framing;
use opus_io::{NoMemory, Sink, SinkStop};
use opus_packet::Packet;
use opus_repack::{CatFault, Repacketizer};
use opus_words::Form;
use pack_records::{Cut, Found, Item, lent_packet};
use std::alloc::Global;

/// Writes the packets of a group as one packet. A group ends when it has so many, where there is a bound, at a lost
/// record, and at the end of the input. Its record has the range of its last packet.
#[derive(Drop)]
pub struct Merge {
    form: Form,
    // Packets of a group.
    most: Option<u8>,
    // How many records were taken.
    count: u64,
    // The frames of the open group, how many packets more it takes, and the range of the last one.
    frames: Repacketizer,
    left: Option<u8>,
    range: u32,
}

impl Merge {
    ghost use Rattle.pack_jobs.specs.MergeStands.{merge_job, MergeStands, open_group};

    /// The job over an input of this form, before its first record: groups of at most `most` packets, where there is a
    /// bound. It takes all memory that it needs.
    pub fn new(alloc: Global, form: Form, most: Option<u8>) -> Result<Merge, NoMemory>
        ensures job { IfOk result (λ m. merge_job m ≡ merge form most) }
        ensures stands { IfOk result (λ m. MergeStands m (merge form most).start) }
    {
        Ok(Merge {
            form,
            most,
            count: 0,
            frames: Repacketizer::new(alloc)?,
            left: most,
            range: 0,
        })
    }

    // Puts a packet into the open group, or tells why it doesn't go there.
    fn put(&mut self, range: u32, packet: &Packet<'_>) -> Result<(), Why>
        ensures form { self.new.form ≡ self.old.form }
        ensures most { self.new.most ≡ self.old.most }
        ensures count { self.new.count ≡ self.old.count }
        ensures why { result ≡ put_behind self.old.frames packet.now.value }
        ensures group { OnOk result (open_group self.new ≡ with_packet (open_group self.old) packet.now.value range) }
    {
        match self.frames.cat(packet) {
            Ok(()) => {}
            Err(CatFault::MixedKind) => return Err(Why::MixedKind),
            Err(CatFault::TooLong) => return Err(Why::TooLong),
        }
        if let Some(left) = self.left {
            self.left = Some(left.saturating_sub(1));
        }
        self.range = range;
        Ok(())
    }

    // The same of the bytes that are lent of a packet.
    #[inline(always)]
    fn put_lent(&mut self, range: u32, framing: Framing, bytes: &[u8]) -> Result<(), Why>
        ensures form { self.new.form ≡ self.old.form }
        ensures most { self.new.most ≡ self.old.most }
        ensures count { self.new.count ≡ self.old.count }
        ensures why { result ≡ lent_behind self.old.frames (lent_value framing bytes.now) }
        ensures group { OnOk result (open_group self.new
            ≡ with_lent (open_group self.old) (lent_value framing bytes.now) range) }
    {
        match lent_packet(framing, bytes) {
            Some(packet) => self.put(range, &packet),
            None => Ok(()),
        }
    }

    // Writes the open group, if it has packets, and opens the next one.
    #[inline(always)]
    fn close<O: Sink>(&mut self, out: &mut O) -> Result<(), SinkStop>
        ensures form { self.new.form ≡ self.old.form }
        ensures most { self.new.most ≡ self.old.most }
        ensures count { self.new.count ≡ self.old.count }
        ensures group { OnOk result (open_group self.new ≡ no_packets self.old.most) }
        ensures ok { OnOk result (Appends (O.contents out.old) (O.contents out.new)
            (group_text self.old.form (open_group self.old))) }
        ensures front { OnErr result (Front (group_text self.old.form (open_group self.old))
            (O.contents out.old) (O.contents out.new)) }
        ensures cause { SinkCause (O.faults out.old) (O.faults out.new)
            (O.refusals out.old) (O.refusals out.new) result }
        ensures onward { Onward (O.onto out.old) (O.onto out.new) (O.handed out.old) (O.handed out.new) }
    {
        let all = self.frames.count();
        if all > 0 {
            write_packet(self.form, self.range, &self.frames.part(0, all), out)?;
        }
        self.frames.clear();
        self.left = self.most;
        self.range = 0;
        Ok(())
    }

    // Closes the open group if it takes no more packets.
    #[inline(always)]
    fn close_full<O: Sink>(&mut self, out: &mut O) -> Result<(), SinkStop>
        ensures form { self.new.form ≡ self.old.form }
        ensures most { self.new.most ≡ self.old.most }
        ensures count { self.new.count ≡ self.old.count }
        ensures group { OnOk result (open_group self.new ≡ next_group self.old.most (open_group self.old)) }
        ensures ok { OnOk result (Appends (O.contents out.old) (O.contents out.new)
            (full_text self.old.form (open_group self.old))) }
        ensures front { OnErr result (Front (full_text self.old.form (open_group self.old))
            (O.contents out.old) (O.contents out.new)) }
        ensures cause { SinkCause (O.faults out.old) (O.faults out.new)
            (O.refusals out.old) (O.refusals out.new) result }
        ensures onward { Onward (O.onto out.old) (O.onto out.new) (O.handed out.old) (O.handed out.new) }
    {
        if self.left == Some(0) {
            self.close(out)?;
        }
        Ok(())
    }

    // Closes the open group, and writes a lost record.
    #[inline(always)]
    fn lose<O: Sink>(&mut self, range: u32, out: &mut O) -> Result<(), SinkStop>
        ensures form { self.new.form ≡ self.old.form }
        ensures most { self.new.most ≡ self.old.most }
        ensures count { self.new.count ≡ self.old.count }
        ensures group { OnOk result (open_group self.new ≡ no_packets self.old.most) }
        ensures ok { OnOk result (Appends (O.contents out.old) (O.contents out.new)
            (group_text self.old.form (open_group self.old) ++ record_bytes self.old.form range [])) }
        ensures front { OnErr result (Front
            (group_text self.old.form (open_group self.old) ++ record_bytes self.old.form range [])
            (O.contents out.old) (O.contents out.new)) }
        ensures cause { SinkCause (O.faults out.old) (O.faults out.new)
            (O.refusals out.old) (O.refusals out.new) result }
        ensures onward { Onward (O.onto out.old) (O.onto out.new) (O.handed out.old) (O.handed out.new) }
    {
        self.close(out)?;
        write_record(self.form, range, &[], out)
    }
}

impl RecordJob<Item, Cut> for Merge {
    ghost use Rattle.pack_jobs.specs.MergeStands.{MergeStands};

    type Refusal = Refusal;

    ghost Kept = { MergeKept };

    ghost meaning = { λ m. merge m.form m.most };

    ghost stands = { MergeStands };

    fn opening(&self) -> &[u8] {
        &[]
    }

    fn take<O: Sink>(&mut self, item: &Lent<'_, Item>, out: &mut O) -> Answer<Why> {
        let record = item.item();
        match record.found {
            Found::Packet { framing, .. } => {
                if let Err(why) = self.put_lent(record.range, framing, item.bytes()) {
                    return Err(JobStop::Refused(Refusal::new(self.count, record.place, why)));
                }
                self.close_full(out)?;
            }
            Found::Lost => self.lose(record.range, out)?,
            Found::Bad(fault) => {
                return Err(JobStop::Refused(refusal_at(self.count, record, fault)));
            }
        }
        self.count = self.count.saturating_add(1);
        Ok(())
    }

    fn finish<O: Sink>(&mut self, end: &InputEnd<Cut>, out: &mut O) -> Answer<Why> {
        match end {
            InputEnd::Closed => self.close(out)?,
            InputEnd::Cut(cut) => return Err(JobStop::Refused(Why::cut(self.count, cut))),
            InputEnd::Past => {}
        }
        Ok(())
    }
}
