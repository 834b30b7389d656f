//! What is kept until it is certain.
ghost use Rattle.std.specs.Prelude.{◌≡◌, ℕ, ◌+◌, ◌-◌, ◌*◌, ◌^◌, ◌<◌, ◌≤◌, ◌++◌, ◌∷◌, [], length, min, false, IfOk, IfSome, Option, None, Some, vec_len, vec_capacity};
ghost use Rattle.rtp_ends.specs.declared.event.Event.TheVariants.{Packet};
ghost use Rattle.rtp_ends.specs.Numbers.{number_at};
ghost use Rattle.rtp_ends.specs.Report.{gap_between};
ghost use Rattle.rtp_ends.specs.Holding.{gap_since};

use crate::Event;
use crate::ring::{Kept, Ring, WINDOW};
use opus_io::NoMemory;
use std::alloc::Global;
use std::marker::Model;

/// The ring, with a count of what it keeps, and the last place that was told.
#[derive(Drop)]
pub(crate) struct Buffer {
    ring: Ring,
    last: Option<u64>,
    held: usize,
}

impl Model for Buffer {
    ghost use Rattle.rtp_ends.specs.Holding.{Held};

    ghost Value = { Held };

    ghost use Rattle.rtp_ends.specs.Holding.{held_inside, IsHolding};

    ghost view = { held_inside };

    ghost invariant = { IsHolding };
}

impl Buffer {
    ghost use Rattle.rtp_ends.specs.Slots.{AreWithin, has_place, with_place};
    ghost use Rattle.rtp_ends.specs.Order.{put};
    ghost use Rattle.rtp_ends.specs.Holding.{Gave, room_for};

    pub(crate) fn new(alloc: Global) -> Result<Buffer, NoMemory>
        ensures { IfOk result (λ b. b ≡ record { top = 32768; kept = []; last = None }) }
    {
        Ok(Buffer {
            ring: Ring::new(alloc)?,
            last: None,
            held: 0,
        })
    }

    /// The greatest place.
    pub(crate) fn top(&self) -> u64
        ensures top { result ≡ self.now.top }
        ensures within { AreWithin self.now.top self.now.kept }
    {
        self.ring.top()
    }

    /// How many packets are kept.
    pub(crate) fn held(&self) -> usize
        ensures held { result ≡ length self.now.kept }
        ensures most { result ≤ 32768 }
    {
        self.held
    }

    /// Whether a packet of this place is kept.
    pub(crate) fn has(&self, place: u64) -> bool
        requires above { self.now.top < place + 32768 }
        requires most { place ≤ self.now.top }
        ensures { result ≡ has_place place self.now.kept }
    {
        self.ring.has(place)
    }

    /// Begins at another greatest place, where nothing is kept and nothing was told.
    pub(crate) fn start(&mut self, top: u64)
        requires free { self.old.kept ≡ [] }
        requires high { 32768 ≤ top }
        ensures { self.new ≡ record { top = top; kept = []; last = None } }
    {
        self.ring.start(top);
        self.last = None;
    }

    /// Goes on to this place where it is above the greatest one. What falls out of the window is told.
    pub(crate) fn reach(&mut self, to: u64, out: &mut Vec<Event>)
        requires most { to < 2 ^ 62 }
        requires room { vec_len out.old + room_for self.old.kept (to - self.old.top) ≤ vec_capacity out.old }
        ensures gave { Gave self.old self.new out.old.items out.new.items }
        ensures to { to ≤ self.new.top }
        ensures most { self.new.top ≤ to + (self.old.top - to) }
        ensures within { AreWithin self.new.top self.new.kept }
    {
        'places: while self.top() < to {
            self.give(out);
            self.skip(to);
        }
    }

    /// Tells all that is kept.
    pub(crate) fn finish(&mut self, out: &mut Vec<Event>)
        requires most { self.old.top < 2 ^ 61 }
        requires room { vec_len out.old + 2 * length self.old.kept ≤ vec_capacity out.old }
        ensures gave { Gave self.old self.new out.old.items out.new.items }
        ensures none { self.new.kept ≡ [] }
    {
        let to = self.top() + WINDOW;
        self.reach(to, out);
    }

    /// Puts a packet to its place, which is free.
    pub(crate) fn put(&mut self, place: u64, kept: Kept)
        requires above { self.old.top < place + 32768 }
        requires most { place ≤ self.old.top }
        requires free { has_place place self.old.kept ≡ false }
        ensures top { self.new.top ≡ self.old.top }
        ensures last { self.new.last ≡ self.old.last }
        ensures kept { self.new.kept ≡ put (with_place place kept) self.old.kept }
        ensures within { AreWithin self.new.top self.new.kept }
    {
        self.ring.put(place, kept);
        self.held += 1;
    }

    // Goes on by one place, and tells what falls out.
    fn give(&mut self, out: &mut Vec<Event>)
        requires top { self.old.top < 2 ^ 62 }
        requires room { vec_len out.old + room_for self.old.kept 1 ≤ vec_capacity out.old }
        ensures gave { Gave self.old self.new out.old.items out.new.items }
        ensures top { self.new.top ≡ self.old.top + 1 }
        ensures room { vec_len out.new + 2 * length self.new.kept ≤ vec_len out.old + 2 * length self.old.kept }
        ensures one { length self.old.kept ≤ length self.new.kept + 1 }
        ensures len { vec_len out.old ≤ vec_len out.new }
        ensures capacity { vec_capacity out.new ≡ vec_capacity out.old }
    {
        if let Some(kept) = self.ring.raise() {
            let place = self.ring.top() - WINDOW;
            push_gap(self.last, place, out);
            push_packet(place, kept, out);
            self.last = Some(place);
            self.held -= 1;
        }
    }

    // Goes on over places that are free.
    fn skip(&mut self, to: u64)
        requires on { self.old.top ≤ to }
        requires most { to < 2 ^ 62 }
        ensures kept { self.new.kept ≡ self.old.kept }
        ensures last { self.new.last ≡ self.old.last }
        ensures from { self.old.top ≤ self.new.top }
        ensures most { self.new.top ≤ to }
    {
        self.ring.skip(to);
    }
}

// Tells what is missing between the last place and this one.
fn push_gap(last: Option<u64>, place: u64, out: &mut Vec<Event>)
    requires above { IfSome last (λ before. before < place) }
    requires most { place < 2 ^ 62 }
    requires room { vec_len out.old < vec_capacity out.old }
    ensures out { out.new.items ≡ out.old.items ++ gap_since last place }
    ensures most { vec_len out.new ≤ vec_len out.old + 1 }
    ensures len { vec_len out.old ≤ vec_len out.new }
    ensures capacity { vec_capacity out.new ≡ vec_capacity out.old }
{
    if let Some(before) = last {
        if before + 1 < place {
            out.push_reserved(gap_event(before + 1, place));
        }
    }
}

// Tells a packet.
fn push_packet(place: u64, kept: Kept, out: &mut Vec<Event>)
    requires most { place < 2 ^ 62 }
    requires room { vec_len out.old < vec_capacity out.old }
    ensures out { out.new.items ≡ out.old.items ++ Packet (number_at place) kept.stamp kept.payload ∷ [] }
    ensures len { vec_len out.new ≡ vec_len out.old + 1 }
    ensures capacity { vec_capacity out.new ≡ vec_capacity out.old }
{
    out.push_reserved(packet_event(place, kept));
}

// The missing places from one up to before another.
fn gap_event(first: u64, end: u64) -> Event
    requires order { first ≤ end }
    requires most { end < 2 ^ 62 }
    ensures { result ≡ Event.Gap (number_at first) (end - first) }
{
    Event::Gap {
        first: number_at(first),
        count: end - first,
    }
}

// A packet at its place.
fn packet_event(place: u64, kept: Kept) -> Event
    requires { place < 2 ^ 62 }
    ensures { result ≡ Packet (number_at place) kept.stamp kept.payload }
{
    Event::Packet {
        number: number_at(place),
        stamp: kept.stamp,
        payload: kept.payload,
    }
}

/// The number of a place.
pub(crate) fn number_at(place: u64) -> i64
    requires { place < 2 ^ 62 }
    ensures { result ≡ number_at place }
{
    place as i64 - 65_536
}
