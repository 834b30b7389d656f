//! Receiving packets.
ghost use Rattle.std.specs.Prelude.{◌≡◌, ℕ, ◌+◌, ◌-◌, ◌*◌, ◌^◌, ◌<◌, ◌≤◌, ◌++◌, ◌∷◌, [], List, length, min, false, IfOk, OnOk, OnErr, vec_len, vec_capacity};
ghost use Rattle.rtp_ends.specs.declared.event.Arrival.TheVariants.{New, Repeat};
ghost use Rattle.rtp_ends.specs.Numbers.{number_at, IsPlaceAfter, place_after as place_behind};

use crate::buffer::{Buffer, number_at};
use crate::ring::{Kept, WINDOW};
use crate::{Arrival, Event};
use opus_io::{Bytes, NoMemory};
use std::alloc::Global;
use std::marker::Model;

/// Puts the packets of one stream in order. Each is told as soon as no earlier one can come any more: a sequence number
/// means the number within 32,768 of the greatest one so far.
#[derive(Drop)]
pub struct Receiver {
    alloc: Global,
    buffer: Buffer,
    arrivals: u64,
}

impl Model for Receiver {
    ghost use Rattle.rtp_ends.specs.Receives.{ReceiverState};

    ghost Value = { ReceiverState };

    ghost use Rattle.rtp_ends.specs.Receives.{receiver_inside, IsReceiver};

    ghost view = { receiver_inside };

    ghost invariant = { IsReceiver };
}

impl Receiver {
    ghost use Rattle.rtp_ends.specs.Numbers.{Heard, IsPlaceAfter, next_place, placed};
    ghost use Rattle.rtp_ends.specs.Report.{certain_events, arrival_report};
    ghost use Rattle.rtp_ends.specs.Slots.{has_place};
    ghost use Rattle.rtp_ends.specs.Holding.{room_for};
    ghost use Rattle.rtp_ends.specs.Receives.{ReceiverStands, HasArrived, GivesOut, OnRepeat, counted, place_in, IsPlaceIn, Keeps, top_from, open_arrivals};

    /// A receiver that got nothing yet. All memory but that of the payloads is taken here.
    pub fn new(alloc: Global) -> Result<Receiver, NoMemory>
        ensures stands { IfOk result (λ r. ReceiverStands r []) }
        ensures arrivals { IfOk result (λ r. r.arrivals ≡ 0) }
    {
        Ok(Receiver {
            alloc,
            buffer: Buffer::new(alloc)?,
            arrivals: 0,
        })
    }

    /// Takes a packet as it arrives, and appends what has become certain with it: every number of at most the greatest one
    /// less 32,768 is out afterwards. Of a repeat only the count of arrivals is kept, and no memory is asked for. Where
    /// there is no memory, nothing changes.
    pub fn arrive(
        &mut self,
        seq: u16,
        stamp: u32,
        payload: &[u8],
        out: &mut Vec<Event>,
    ) -> Result<Arrival, NoMemory>
        requires { self.old.arrivals < 2 ^ 40 }
        ensures ok { IfOk result (λ answer. (heard : List Heard) → ReceiverStands self.old heard
            → HasArrived self.new heard (record { seq = seq; stamp = stamp; payload = payload.now }) answer
            out.old.items out.new.items) }
        ensures repeat { IfOk result (λ answer. OnRepeat answer (self.new ≡ counted self.old)) }
        ensures quiet { IfOk result (λ answer. OnRepeat answer (out.new.items ≡ out.old.items)) }
        ensures arrivals { OnOk result (self.new.arrivals ≡ self.old.arrivals + 1) }
        ensures err { OnErr result (out.new.items ≡ out.old.items) }
        ensures kept { OnErr result (self.new ≡ self.old) }
        ensures first { OnErr result ((heard : List Heard) → ReceiverStands self.old heard
            → has_place (next_place heard seq) (placed heard) ≡ false) }
    {
        let place = self.place_of(seq);
        if self.has(place) {
            self.count();
            return Ok(repeat_at(place));
        }
        let payload = Bytes::copy(self.alloc, payload)?;
        self.make_room(place, out)?;
        self.begin(place);
        self.keep(place, Kept { stamp, payload }, out);
        Ok(new_at(place))
    }

    /// Appends all that is left, and begins anew. Where there is no memory, nothing changes.
    pub fn close(&mut self, out: &mut Vec<Event>) -> Result<(), NoMemory>
        ensures ok { OnOk result ((heard : List Heard) → ReceiverStands self.old heard
            → GivesOut (certain_events heard) (arrival_report heard) out.old.items out.new.items) }
        ensures stands { OnOk result (ReceiverStands self.new []) }
        ensures arrivals { OnOk result (self.new.arrivals ≡ 0) }
        ensures err { OnErr result (out.new.items ≡ out.old.items) }
        ensures kept { OnErr result (self.new ≡ self.old) }
        ensures full { OnErr result (vec_capacity out.old < vec_len out.old + 2 * length self.old.kept) }
    {
        out.reserve(2 * self.buffer.held())?;
        self.buffer.finish(out);
        self.buffer.start(WINDOW);
        self.arrivals = 0;
        Ok(())
    }

    /// How many packets are kept: those whose number is above the greatest one less 32,768.
    pub fn held(&self) -> usize
        ensures held { (heard : List Heard) → ReceiverStands self.now heard
            → result ≡ length (open_arrivals heard) }
        ensures kept { result ≡ length self.now.kept }
        ensures most { result ≤ 32768 }
    {
        self.buffer.held()
    }

    /// Packets that arrived since the receiver began, repeats too.
    pub fn arrivals(&self) -> u64
        ensures count { result ≡ self.now.arrivals }
        ensures most { result ≤ 2 ^ 40 }
    {
        self.arrivals
    }

    // The place of a sequence number.
    fn place_of(&self, seq: u16) -> u64
        ensures place { result ≡ place_in self.now seq }
        ensures is { IsPlaceIn self.now seq result }
    {
        if self.arrivals == 0 {
            65_536 + u64::from(seq)
        } else {
            place_after(self.buffer.top(), seq)
        }
    }

    // Whether a packet of this place is kept.
    fn has(&self, place: u64) -> bool
        requires { 0 < self.now.arrivals → self.now.top < place + 32768 }
        ensures { result ≡ has_place place self.now.kept }
    {
        if self.arrivals == 0 {
            return false;
        }
        if self.buffer.top() < place {
            return false;
        }
        self.buffer.has(place)
    }

    // Counts an arrival.
    fn count(&mut self)
        requires some { 0 < self.old.arrivals }
        requires most { self.old.arrivals < 2 ^ 40 }
        ensures { self.new ≡ counted self.old }
    {
        self.arrivals += 1;
    }

    // Makes room for what becomes certain when a packet of this place arrives.
    fn make_room(&self, place: u64, out: &mut Vec<Event>) -> Result<(), NoMemory>
        ensures room { OnOk result (vec_len out.new + room_for self.now.kept (place - self.now.top) ≤ vec_capacity out.new) }
        ensures items { out.new.items ≡ out.old.items }
    {
        let steps = place.saturating_sub(self.buffer.top());
        let most = steps.min(self.buffer.held() as u64);
        out.reserve(2 * most as usize)?;
        Ok(())
    }

    // Where nothing arrived yet, the first place is the greatest one.
    fn begin(&mut self, place: u64)
        requires first { self.old.arrivals ≡ 0 → (65536 ≤ place) × (place < 131072) }
        ensures stands { (heard : List Heard) → ReceiverStands self.old heard → ReceiverStands self.new heard }
        ensures arrivals { self.new.arrivals ≡ self.old.arrivals }
        ensures kept { self.new.kept ≡ self.old.kept }
        ensures high { 65536 ≤ self.new.top }
        ensures top { self.new.top ≡ top_from self.old place }
    {
        if self.arrivals == 0 {
            self.buffer.start(place);
        }
    }

    // Keeps a packet, and tells what becomes certain.
    fn keep(&mut self, place: u64, kept: Kept, out: &mut Vec<Event>)
        requires high { 65536 ≤ self.old.top }
        requires above { self.old.top < place + 32768 }
        requires most { place ≤ self.old.top + 32768 }
        requires free { has_place place self.old.kept ≡ false }
        requires room { vec_len out.old + room_for self.old.kept (place - self.old.top) ≤ vec_capacity out.old }
        requires arrivals { self.old.arrivals < 2 ^ 40 }
        ensures { Keeps self.old self.new place kept out.old.items out.new.items }
    {
        self.buffer.reach(place, out);
        self.buffer.put(place, kept);
        self.arrivals += 1;
    }
}

// The place of a sequence number behind this greatest place.
fn place_after(greatest: u64, seq: u16) -> u64
    requires high { 65536 ≤ greatest }
    requires most { greatest < 2 ^ 60 }
    ensures place { result ≡ place_behind greatest seq }
    ensures is { IsPlaceAfter greatest seq result }
{
    let ahead = (u64::from(seq) + 65_536 - greatest % 65_536) % 65_536;
    if ahead <= WINDOW {
        greatest + ahead
    } else {
        greatest + ahead - 65_536
    }
}

// The answer to the first arrival of a place.
fn new_at(place: u64) -> Arrival
    requires { place < 2 ^ 62 }
    ensures { result ≡ New (number_at place) }
{
    Arrival::New(number_at(place))
}

// The answer to a later arrival of a place.
fn repeat_at(place: u64) -> Arrival
    requires { place < 2 ^ 62 }
    ensures { result ≡ Repeat (number_at place) }
{
    Arrival::Repeat(number_at(place))
}
