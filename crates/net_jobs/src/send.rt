//! The job send: what a sender sends, as a capture in the rtpdump layout.
ghost use Rattle.std.specs.Prelude.{◌≡◌, ◌≤◌, ◌<◌, [], List, length, vec_len, vec_capacity, Option, Some, None, IfOk};
ghost use Rattle.net_jobs.specs.Send.{most_records};
ghost use Rattle.opus_packet.specs.Value.{PacketValue, duration_of};
ghost use Rattle.opus_packet.specs.Canonical.{canonical};
ghost use Rattle.rec_store.specs.Dump.{dump_head_bytes, dump_record_head};
ghost use Rattle.rtp_ends.specs.Sends.{SenderStands};
ghost use Rattle.pack_records.specs.Fits.{FoundFits};
ghost use Rattle.pack_records.specs.Lent.{lent_value};
ghost use Rattle.net_jobs.specs.Capture.{offset_behind};
ghost use Rattle.net_jobs.specs.Send.{send, given_of};

use crate::plain::plain_samples;
use job_ends::Answer;
use job_loop::{InputEnd, JobStop, Lent, RecordJob};
use opus_feed::Framing;
use opus_io::{NoMemory, Sink, write_all};
use opus_packet::Packet;
use opus_writer::canon_size;
use pack_jobs::{Refusal, Why, refusal_at};
use pack_records::{Cut, Found, Item, lent_packet};
use rec_store::{dump_head, dump_record_head};
use rtp_ends::Sender;
use std::alloc::Global;

// Most records that a sender takes.
const MOST_RECORDS: u64 = 1_099_511_627_776;

// Most bytes of a record: the 8 of its head, the 12 of an RTP packet, and a canonical form.
const MOST_TEXT: usize = 61_315;

/// Sends each packet of a store, and passes over the lost ones. What is sent is written as a capture.
#[derive(Drop)]
pub struct SendJob {
    sender: Sender,
    // What stands before the records of the capture.
    opening: Vec<u8>,
    // The record of the packet that is sent.
    text: Vec<u8>,
    ghost opens: { opening.items ≡ dump_head_bytes },
    ghost room: { 61315 ≤ vec_capacity text },
}

impl SendJob {
    ghost use Rattle.net_jobs.specs.SendStands.{send_job, SendStands, IsGiven};

    /// The job of a sender that was given nothing yet. All memory is taken here.
    pub fn new(alloc: Global, sender: Sender) -> Result<SendJob, NoMemory>
        ensures job { IfOk result (λ s. send_job s ≡ send sender.first) }
        ensures stands { SenderStands sender [] → IfOk result (λ s. SendStands s []) }
    {
        let mut opening = Vec::new(alloc);
        dump_head(&mut opening)?;
        Ok(SendJob {
            sender,
            opening,
            text: Vec::with_capacity(alloc, MOST_TEXT)?,
        })
    }

    // The milliseconds that the records before last, modulo 2^32.
    fn offset(&self) -> u32
        ensures { (records : List (Option PacketValue)) → SenderStands self.now.sender records
            → result ≡ offset_behind records }
    {
        (self.sender.elapsed() / 48 % 4_294_967_296) as u32
    }

    // Begins the record of an RTP packet of so many bytes.
    fn begin(&mut self, size: u16)
        requires { size ≤ 61307 }
        ensures sender { self.new.sender ≡ self.old.sender }
        ensures head { (records : List (Option PacketValue)) → SenderStands self.old.sender records
            → self.new.text.items ≡ dump_record_head size size (offset_behind records) }
        ensures length { vec_len self.new.text ≡ 8 }
    {
        let head = dump_record_head(size, self.offset());
        self.text.clear();
        self.text.extend_from_slice(&head).unwrap();
    }

    // Sends a packet that is lent in its canonical form.
    #[inline(always)]
    fn send_form(&mut self, form: &[u8], samples: u32)
        requires sent { self.old.sender.sent < most_records }
        requires samples { samples ≤ 5760 }
        requires most { length form.now ≤ 61295 }
        ensures first { self.new.sender.first ≡ self.old.sender.first }
        ensures sent { (records : List (Option PacketValue)) (v : PacketValue)
            → SenderStands self.old.sender records → form.now ≡ canonical v → samples ≡ duration_of v
            → IsGiven self.old.sender.first records (Some v) self.new }
    {
        self.begin(12 + form.len() as u16);
        self.sender
            .send_form(form, samples, &mut self.text)
            .unwrap();
    }

    // Sends a packet, written in its canonical form.
    fn send(&mut self, packet: &Packet<'_>)
        requires { self.old.sender.sent < most_records }
        ensures first { self.new.sender.first ≡ self.old.sender.first }
        ensures sent { (records : List (Option PacketValue)) → SenderStands self.old.sender records
            → IsGiven self.old.sender.first records (Some packet.now.value) self.new }
    {
        self.begin(12 + canon_size(packet) as u16);
        self.sender.send(packet, &mut self.text).unwrap();
    }

    // Passes over a lost packet.
    fn skip(&mut self)
        requires { self.old.sender.sent < most_records }
        ensures first { self.new.sender.first ≡ self.old.sender.first }
        ensures sent { (records : List (Option PacketValue)) → SenderStands self.old.sender records
            → IsGiven self.old.sender.first records None self.new }
    {
        self.text.clear();
        self.sender.skip();
    }

    // Sends a packet that may be lent in another form than the canonical one, as with padding bytes that are kept.
    #[cold]
    #[inline(never)]
    fn send_again(&mut self, framing: Framing, bytes: &[u8])
        requires { self.old.sender.sent < most_records }
        ensures first { self.new.sender.first ≡ self.old.sender.first }
        ensures sent { (records : List (Option PacketValue)) → SenderStands self.old.sender records
            → IsGiven self.old.sender.first records (lent_value framing bytes.now) self.new }
    {
        match lent_packet(framing, bytes) {
            Some(packet) => self.send(&packet),
            None => self.skip(),
        }
    }

    // Gives the sender what a record holds, and makes the text of it.
    #[inline(always)]
    fn give(&mut self, found: Found, bytes: &[u8])
        requires sent { self.old.sender.sent < most_records }
        requires fits { FoundFits found bytes.now }
        ensures first { self.new.sender.first ≡ self.old.sender.first }
        ensures sent { (records : List (Option PacketValue)) → SenderStands self.old.sender records
            → IsGiven self.old.sender.first records (given_of found bytes.now) self.new }
    {
        let Found::Packet { framing, .. } = found else {
            return self.skip();
        };
        match plain_samples(framing, bytes) {
            Some(samples) => self.send_form(bytes, samples),
            None => self.send_again(framing, bytes),
        }
    }
}

impl RecordJob<Item, Cut> for SendJob {
    ghost use Rattle.net_jobs.specs.SendStands.{send_job, SendStands};

    type Refusal = Refusal;

    ghost Kept = { List (Option PacketValue) };

    ghost meaning = { send_job };

    ghost stands = { SendStands };

    fn opening(&self) -> &[u8] {
        &self.opening
    }

    #[inline(always)]
    fn take<O: Sink>(&mut self, item: &Lent<'_, Item>, out: &mut O) -> Answer<Why> {
        let record = item.item();
        if let Found::Bad(fault) = record.found {
            return Err(JobStop::Refused(refusal_at(self.sender.sent(), record, fault)));
        }
        if self.sender.sent() == MOST_RECORDS {
            return Ok(());
        }
        self.give(record.found, item.bytes());
        write_all(out, &self.text)?;
        Ok(())
    }

    fn finish<O: Sink>(&mut self, end: &InputEnd<Cut>, _: &mut O) -> Answer<Why> {
        match end {
            InputEnd::Cut(cut) => Err(JobStop::Refused(Refusal {
                index: self.sender.sent(),
                place: cut.place,
                why: Why::StoreCut,
            })),
            _ => Ok(()),
        }
    }
}
