//! The jobs recv and replay: what arrives of one stream of a capture, told as soon as it is certain.
ghost use Rattle.std.specs.Prelude.{◌≡◌, ◌+◌, ◌≤◌, ◌<◌, ◌++◌, [], IfOk, OnOk, OnErr, IfErr};
ghost use Rattle.net_jobs.specs.Receive.{most_records};
ghost use Rattle.std.specs.Io.KnownBytes.{Appends};
ghost use Rattle.opus_io.specs.Sink.{SinkCause, Onward};
ghost use Rattle.job_loop.specs.Telling.{Front, Goes, Stops};
ghost use Rattle.job_loop.specs.Causes.{Causes, is_write_stop, is_memory_stop};
ghost use Rattle.job_loop.specs.declared.input_end.InputEnd.TheVariants.{Closed};
ghost use Rattle.rtp_packet.specs.RtpRead.{rtp_value};
ghost use Rattle.dump_records.specs.declared.item.Found.TheVariants.{Record};
ghost use Rattle.net_jobs.specs.Arrive.{arrival_of, record_sort};
ghost use Rattle.net_jobs.specs.Tell.{events_text, counts_text};
ghost use Rattle.net_jobs.specs.Receive.{Reception, receive, begun, after, receive_found, receive_end, IsSum};

use crate::capture_refusal::CaptureRefusal;
use crate::counts::Counts;
use crate::events::{Telling, add_missing, write_events};
use crate::stream::{Asked, Sort, Stream, sort_record, stream_of};
use dump_records::{Found, Item};
use job_loop::{InputEnd, JobStop, Lent, RecordJob};
use opus_io::{NoMemory, Sink, SinkStop, write_all};
use rec_store::{DumpItem, DumpKind, StoreFault};
use rtp_ends::{Event, Receiver};
use rtp_packet::Rtp;
use std::alloc::Global;

// Most records that are taken.
const MOST_RECORDS: u64 = 1_099_511_627_776;

// What the job answers to a record or to the end.
type Answer = Result<(), JobStop<CaptureRefusal>>;

/// Receives one stream of a capture, and tells what arrived.
#[derive(Drop)]
pub struct ReceiveJob {
    telling: Telling,
    asked: Asked,
    // The stream of the first packet that arrived.
    chosen: Option<Stream>,
    counts: Counts,
    // Numbers that are missing among those that were told.
    missing: u64,
    receiver: Receiver,
    // What is told of the record that was taken last.
    events: Vec<Event>,
    ghost sum: { IsSum counts },
    ghost most: { counts.records ≤ most_records },
    ghost few: { receiver.arrivals ≤ counts.repeats + counts.packets },
}

impl ReceiveJob {
    ghost use Rattle.net_jobs.specs.ReceiveStands.{receive_job, ReceiveStands, TookRecord, HasClosed};

    /// A job that took no record yet. All memory but that of packets and their events is taken here.
    pub fn new(alloc: Global, telling: Telling, asked: Asked) -> Result<ReceiveJob, NoMemory>
        ensures job { IfOk result (λ s. receive_job s ≡ receive telling asked) }
        ensures stands { IfOk result (λ s. ReceiveStands s begun) }
    {
        Ok(ReceiveJob {
            telling,
            asked,
            chosen: None,
            counts: Counts::default(),
            missing: 0,
            receiver: Receiver::new(alloc)?,
            events: Vec::new(alloc),
        })
    }

    // Takes a record: what it makes certain are the events then.
    fn hear(&mut self, kind: DumpKind, bytes: &[u8]) -> Result<(), NoMemory>
        requires { self.old.counts.records < most_records }
        ensures telling { self.new.telling ≡ self.old.telling }
        ensures asked { self.new.asked ≡ self.old.asked }
        ensures took { OnOk result ((k : Reception) → ReceiveStands self.old k
            → TookRecord self.new k (after k (record_sort self.old.asked k.chosen kind bytes.now))) }
    {
        self.events.clear();
        match sort_record(self.asked, self.chosen, kind, bytes) {
            Sort::Passed(passed) => {
                self.counts.add_passed(passed);
                Ok(())
            }
            Sort::Arrival(packet) => self.arrive(packet),
        }
    }

    // Hands a packet to the receiver. There are no events before.
    fn arrive(&mut self, packet: Rtp<'_>) -> Result<(), NoMemory>
        requires most { self.old.counts.records < most_records }
        requires none { self.old.events.items ≡ [] }
        ensures telling { self.new.telling ≡ self.old.telling }
        ensures asked { self.new.asked ≡ self.old.asked }
        ensures took { OnOk result ((k : Reception) → ReceiveStands self.old k
            → TookRecord self.new k (after k (arrival_of (rtp_value packet.entry)))) }
    {
        let answer = self
            .receiver
            .arrive(packet.seq, packet.stamp, packet.payload, &mut self.events)?;
        self.counts.add_arrival(answer);
        self.chosen = Some(self.chosen.unwrap_or(stream_of(packet)));
        self.missing = add_missing(self.missing, &self.events);
        Ok(())
    }

    // Closes the receiver: the events are those that are left then.
    fn close(&mut self) -> Result<(), NoMemory>
        ensures telling { self.new.telling ≡ self.old.telling }
        ensures asked { self.new.asked ≡ self.old.asked }
        ensures closed { OnOk result ((k : Reception) → ReceiveStands self.old k → HasClosed self.new k) }
    {
        self.events.clear();
        self.receiver.close(&mut self.events)?;
        self.missing = add_missing(self.missing, &self.events);
        Ok(())
    }

    // Writes the events, and what stands behind the last of them.
    fn write_last<O: Sink>(&self, out: &mut O) -> Result<(), SinkStop>
        ensures ok { OnOk result (Appends (O.contents out.old) (O.contents out.new)
            (events_text self.now.telling self.now.events.items ++ counts_text self.now.telling self.now.counts self.now.missing)) }
        ensures front { OnErr result (Front
            (events_text self.now.telling self.now.events.items ++ counts_text self.now.telling self.now.counts self.now.missing)
            (O.contents out.old) (O.contents out.new)) }
        ensures cause { SinkCause (O.faults out.old) (O.faults out.new)
            (O.refusals out.old) (O.refusals out.new) result }
        ensures onward { Onward (O.onto out.old) (O.onto out.new) (O.handed out.old) (O.handed out.new) }
    {
        if let Err(stop) = write_events(self.telling, &self.events, out) {
            return Err(stop);
        }
        match self.telling {
            Telling::Store => Ok(()),
            Telling::Lines => write_all(out, self.counts.line(self.missing).as_str().as_bytes()),
        }
    }

    // Writes all that is left.
    fn end<O: Sink>(&mut self, out: &mut O) -> Answer
        ensures telling { self.new.telling ≡ self.old.telling }
        ensures asked { self.new.asked ≡ self.old.asked }
        ensures ok { OnOk result ((k : Reception) → ReceiveStands self.old k
            → Goes (receive_end self.old.telling k Closed) (λ _. Unit {0}) (O.contents out.old) (O.contents out.new)) }
        ensures stop { IfErr result (λ e. (k : Reception) → ReceiveStands self.old k
            → Stops e (receive_end self.old.telling k Closed) (O.contents out.old) (O.contents out.new)) }
        ensures cause { Causes (is_write_stop result) (is_memory_stop result) (Unit {0})
            (O.faults out.old) (O.faults out.new) (O.refusals out.old) (O.refusals out.new) }
        ensures onward { Onward (O.onto out.old) (O.onto out.new) (O.handed out.old) (O.handed out.new) }
    {
        if let Err(NoMemory) = self.close() {
            return Err(JobStop::Sink(SinkStop::NoMemory));
        }
        self.write_last(out)?;
        Ok(())
    }

    // Takes a record, and writes what it makes certain.
    fn take_record<O: Sink>(&mut self, told: DumpItem, bytes: &[u8], out: &mut O) -> Answer
        ensures telling { self.new.telling ≡ self.old.telling }
        ensures asked { self.new.asked ≡ self.old.asked }
        ensures ok { OnOk result ((k : Reception) → ReceiveStands self.old k
            → Goes (receive_found self.old.telling self.old.asked k (Record told) bytes.now) (ReceiveStands self.new)
            (O.contents out.old) (O.contents out.new)) }
        ensures stop { IfErr result (λ e. (k : Reception) → ReceiveStands self.old k
            → Stops e (receive_found self.old.telling self.old.asked k (Record told) bytes.now)
            (O.contents out.old) (O.contents out.new)) }
        ensures cause { Causes (is_write_stop result) (is_memory_stop result) (Unit {0})
            (O.faults out.old) (O.faults out.new) (O.refusals out.old) (O.refusals out.new) }
        ensures onward { Onward (O.onto out.old) (O.onto out.new) (O.handed out.old) (O.handed out.new) }
    {
        if self.counts.records == MOST_RECORDS {
            return Ok(());
        }
        if let Err(NoMemory) = self.hear(told.kind, bytes) {
            return Err(JobStop::Sink(SinkStop::NoMemory));
        }
        write_events(self.telling, &self.events, out)?;
        Ok(())
    }

    // The refusal of a capture that goes wrong or ends so.
    fn refusal(&self, fault: StoreFault) -> CaptureRefusal
        ensures { result ≡ record { index = self.now.counts.records; fault = fault } }
    {
        CaptureRefusal {
            index: self.counts.records,
            fault,
        }
    }
}

impl RecordJob<Item, StoreFault> for ReceiveJob {
    ghost use Rattle.net_jobs.specs.ReceiveStands.{receive_job, ReceiveStands};

    type Refusal = CaptureRefusal;

    ghost Kept = { Reception };

    ghost meaning = { receive_job };

    ghost stands = { ReceiveStands };

    ghost lacks = { λ _. Unit {0} };

    fn opening(&self) -> &[u8] {
        &[]
    }

    fn take<O: Sink>(&mut self, item: &Lent<'_, Item>, out: &mut O) -> Answer {
        match item.item().found {
            Found::Record(told) => self.take_record(told, item.bytes(), out),
            Found::Bad(fault) => {
                let refusal = self.refusal(fault);
                self.end(out)?;
                Err(JobStop::Refused(refusal))
            }
        }
    }

    fn finish<O: Sink>(&mut self, end: &InputEnd<StoreFault>, out: &mut O) -> Answer {
        match end {
            InputEnd::Closed => self.end(out),
            InputEnd::Cut(fault) => {
                let refusal = self.refusal(*fault);
                self.end(out)?;
                Err(JobStop::Refused(refusal))
            }
            InputEnd::Past => Ok(()),
        }
    }
}
