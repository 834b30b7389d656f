//! The job join: each so many records of a store as one record with the multistream packet of their packets.
ghost use Rattle.std.specs.Prelude.{◌≡◌, ◌+◌, ◌*◌, ◌^◌, ◌<◌, ◌≤◌, ◌++◌, ◌∷◌, List, [], true, false, length, vec_len, vec_capacity, if◌then◌else◌, bit_xor, Option, None, Some, Ok, Err, IfOk, IfErr, OnOk, OnErr};
ghost use Rattle.opus_io.specs.Reader.{max_input};
ghost use Rattle.std.specs.Option.{option_map};
ghost use Rattle.std.specs.Io.KnownBytes.{Appends};
ghost use Rattle.opus_io.specs.Sink.{SinkCause, Onward};
ghost use Rattle.opus_packet.specs.Value.{PacketValue};
ghost use Rattle.job_ends.specs.Ends.{seen_as};
ghost use Rattle.job_loop.specs.Telling.{Front};
ghost use Rattle.job_ends.specs.Refusal.{refusal_of};
ghost use Rattle.stream_jobs.specs.declared.refusal.StreamWhy.TheVariants.{ShortGroup};
ghost use Rattle.stream_jobs.specs.Join.{Part, JoinKept, join, part_of, held_in, differs_in, full_text, next_group};
ghost use Rattle.stream_jobs.specs.JoinEnds.{JoinEnds};
ghost use Rattle.stream_jobs.specs.JoinParts.{form_at, samples_in};

use crate::refusal::{StreamAnswer, StreamRefusal, StreamWhy};
use job_ends::{CutReason, run_over};
use job_loop::{InputEnd, JobStop, Lent, RecordJob, write_both};
use opus_feed::Padding;
use opus_io::{NoMemory, Sink, SinkStop, Source};
use opus_packet::{Fault, Packet};
use opus_words::Ending;
use opus_writer::{canon_self_size, canon_size, write_canon, write_canon_self};
use pack_records::{Cut, DemoForm, Found, Item, lent_packet};
use rec_store::demo_head;
use std::alloc::Global;

// Most bytes of a packet in a canonical form.
const MOST_FORM: usize = 61_297;

/// Writes the packets of each group of records as one multistream packet, in canonical form. Its range is the exclusive or
/// of theirs. A group of lost records is written as a lost one.
#[derive(Drop)]
pub struct Join {
    // Records of a group.
    streams: u8,
    // How many records were taken, and the place behind the last of them.
    count: u64,
    place: u64,
    // The open group: how many records it has; samples at 48 kHz that its first packet lasts, and none where it is lost; the
    // exclusive or of the ranges; and the canonical self-delimited forms of the packets.
    taken: u8,
    first: Option<u32>,
    range: u32,
    bytes: Vec<u8>,
    ghost below: { taken < streams },
    ghost room: { 61297 * streams ≤ vec_capacity bytes },
    ghost held: { vec_len bytes ≤ 61297 * taken },
}

impl Join {
    ghost use Rattle.stream_jobs.specs.JoinStands.{join_job, JoinStands, GroupStands, Takes, group_room};

    /// The job with groups of so many records, before its first record. It takes all memory that it needs: 61,297 bytes for
    /// each stream.
    pub fn new(alloc: Global, streams: u8) -> Result<Join, NoMemory>
        requires { 1 ≤ streams }
        ensures job { IfOk result (λ j. join_job j ≡ join streams) }
        ensures stands { IfOk result (λ j. JoinStands j (join streams).start) }
        ensures memory { IfOk result (λ j. group_room j ≡ 61297 * streams) }
    {
        Ok(Join {
            streams,
            count: 0,
            place: 0,
            taken: 0,
            first: None,
            range: 0,
            bytes: Vec::with_capacity(alloc, MOST_FORM * usize::from(streams))?,
        })
    }

    // Why a record that lasts so long, or is lost, can't follow those of the open group.
    fn differs(&self, samples: Option<u32>) -> Option<StreamWhy>
        ensures { (group : List Part) (v : Option PacketValue) → GroupStands self.now group
            → samples ≡ samples_in v → result ≡ differs_in group v }
    {
        if self.taken == 0 || self.first == samples {
            return None;
        }
        match (self.first, samples) {
            (Some(_), Some(_)) => Some(StreamWhy::Unequal(self.taken)),
            _ => Some(StreamWhy::LostPart),
        }
    }

    // Takes a record's range into the open group, and how long it lasts if it is the first.
    fn note(&mut self, range: u32, samples: Option<u32>)
        ensures streams { self.new.streams ≡ self.old.streams }
        ensures count { self.new.count ≡ self.old.count }
        ensures place { self.new.place ≡ self.old.place }
        ensures taken { self.new.taken ≡ self.old.taken }
        ensures bytes { self.new.bytes ≡ self.old.bytes }
        ensures range { self.new.range ≡ bit_xor self.old.range range }
        ensures first { self.old.taken ≡ 0 → self.new.first ≡ samples }
        ensures stays { 1 ≤ self.old.taken → self.new.first ≡ self.old.first }
    {
        if self.taken == 0 {
            self.first = samples;
        }
        self.range ^= range;
    }

    // Puts a record behind those of the open group, and writes the group if it is full then.
    fn put<O: Sink>(
        &mut self,
        range: u32,
        packet: &Option<Packet<'_>>,
        out: &mut O,
    ) -> Result<(), SinkStop>
        ensures streams { self.new.streams ≡ self.old.streams }
        ensures count { self.new.count ≡ self.old.count }
        ensures place { self.new.place ≡ self.old.place }
        ensures group { (group : List Part) → Takes self.old group (option_map (λ p. p.value) packet.now)
            → OnOk result (GroupStands self.new
            (next_group self.old.streams (group ++ part_of (option_map (λ p. p.value) packet.now) range ∷ []))) }
        ensures ok { (group : List Part) → Takes self.old group (option_map (λ p. p.value) packet.now)
            → OnOk result (Appends (O.contents out.old) (O.contents out.new)
            (full_text self.old.streams (group ++ part_of (option_map (λ p. p.value) packet.now) range ∷ []))) }
        ensures front { (group : List Part) → Takes self.old group (option_map (λ p. p.value) packet.now)
            → OnErr result (Front (full_text self.old.streams (group ++ part_of (option_map (λ p. p.value) packet.now) range ∷ []))
            (O.contents out.old) (O.contents out.new)) }
        ensures cause { SinkCause (O.faults out.old) (O.faults out.new)
            (O.refusals out.old) (O.refusals out.new) result }
        ensures onward { Onward (O.onto out.old) (O.onto out.new) (O.handed out.old) (O.handed out.new) }
    {
        self.note(range, samples_of(packet));
        if self.taken + 1 < self.streams {
            push_form(packet, false, &mut self.bytes);
            self.taken += 1;
            return Ok(());
        }
        push_form(packet, true, &mut self.bytes);
        let head = demo_head(self.bytes.len() as u32, self.range);
        let written = write_both(out, &head, &self.bytes);
        self.bytes.clear();
        self.taken = 0;
        self.range = 0;
        written
    }

    // The refusal of a group that is too short at the end of the input.
    fn short_at(&self, place: u64) -> StreamRefusal
        ensures { result ≡ refusal_of self.now.count place ShortGroup }
    {
        StreamRefusal::new(self.count, place, StreamWhy::ShortGroup)
    }
}

// The packet of a record, or none where it is lost.
#[inline(always)]
fn packet_in(found: Found, bytes: &[u8]) -> Result<Option<Packet<'_>>, Fault>
    ensures ok { IfOk result (λ packet. held_in found bytes.now ≡ Ok (option_map (λ p. p.value) packet)) }
    ensures err { IfErr result (λ fault. held_in found bytes.now ≡ Err fault) }
{
    match found {
        Found::Packet { framing, .. } => Ok(lent_packet(framing, bytes)),
        Found::Lost => Ok(None),
        Found::Bad(fault) => Err(fault),
    }
}

// Samples at 48 kHz that a packet lasts.
fn samples_of(packet: &Option<Packet<'_>>) -> Option<u32>
    ensures { result ≡ samples_in (option_map (λ p. p.value) packet.now) }
{
    match packet {
        Some(packet) => Some(packet.duration()),
        None => None,
    }
}

// Appends a packet, if there is one, in its canonical form: self-delimited, but where it is the last of its group.
fn push_form(packet: &Option<Packet<'_>>, last: bool, bytes: &mut Vec<u8>)
    requires room { vec_len bytes.old + 61297 ≤ vec_capacity bytes.old }
    ensures items { bytes.new.items
        ≡ bytes.old.items ++ form_at last (option_map (λ p. p.value) packet.now) }
    ensures len { vec_len bytes.new ≤ vec_len bytes.old + 61297 }
    ensures capacity { vec_capacity bytes.old ≤ vec_capacity bytes.new }
{
    let Some(packet) = packet else {
        return;
    };
    // Known of every packet: no canonical form is longer than there is room for.
    let written = if last {
        let _ = canon_size(packet);
        write_canon(packet, bytes)
    } else {
        let _ = canon_self_size(packet);
        write_canon_self(packet, bytes)
    };
    written.unwrap();
}

impl RecordJob<Item, Cut> for Join {
    ghost use Rattle.stream_jobs.specs.JoinStands.{join_job, JoinStands};

    type Refusal = StreamRefusal;

    ghost Kept = { JoinKept };

    ghost meaning = { join_job };

    ghost stands = { JoinStands };

    fn opening(&self) -> &[u8] {
        &[]
    }

    fn take<O: Sink>(&mut self, item: &Lent<'_, Item>, out: &mut O) -> StreamAnswer {
        let record = item.item();
        let packet = match packet_in(record.found, item.bytes()) {
            Ok(packet) => packet,
            Err(fault) => {
                let place = record.start.saturating_add(fault.place);
                let why = StreamWhy::Fault(fault);
                return Err(JobStop::Refused(StreamRefusal::new(self.count, place, why)));
            }
        };
        if let Some(why) = self.differs(samples_of(&packet)) {
            return Err(JobStop::Refused(StreamRefusal::new(self.count, record.place, why)));
        }
        self.put(record.range, &packet, out)?;
        self.count = self.count.saturating_add(1);
        self.place = record.place;
        Ok(())
    }

    fn finish<O: Sink>(&mut self, end: &InputEnd<Cut>, _: &mut O) -> StreamAnswer {
        match end {
            InputEnd::Closed if self.taken > 0 => {
                Err(JobStop::Refused(self.short_at(self.place)))
            }
            InputEnd::Cut(cut) if self.taken > 0 => {
                Err(JobStop::Refused(self.short_at(cut.place)))
            }
            InputEnd::Cut(cut) => Err(JobStop::Refused(StreamWhy::cut(self.count, cut))),
            _ => Ok(()),
        }
    }
}

/// Does the job join with groups of `streams` records of a store: reads `source` up to `limit` bytes, from 1 to 2^40, and
/// writes to `out`.
///
/// A group is written before the read behind its last record. All memory is taken before the first read.
pub fn join_job<S: Source, O: Sink>(
    alloc: Global,
    streams: u8,
    limit: u64,
    source: &mut S,
    out: &mut O,
) -> Ending
    requires streams { 1 ≤ streams }
    requires some { 1 ≤ limit }
    requires most { limit ≤ max_input }
    ensures { JoinEnds streams limit
        (seen_as (S.left source.old) (S.faults source.old) (O.contents out.old) (O.faults out.old) (O.refusals out.old))
        (seen_as (S.left source.new) (S.faults source.new) (O.contents out.new) (O.faults out.new) (O.refusals out.new))
        (source.new ≡ source.old) result }
{
    let records = DemoForm::new(alloc, Padding::Drop);
    run_over(
        alloc,
        limit,
        records,
        Join::new(alloc, streams),
        source,
        out,
    )
}
