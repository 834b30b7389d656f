//! The packets of the last 32,768 places, each in the slot of its place modulo 32,768.
ghost use Rattle.std.specs.Prelude.{◌≡◌, ℕ, ◌+◌, ◌-◌, ◌%◌, ◌/◌, ◌^◌, ◌<◌, ◌≤◌, ◌++◌, [], length, false, IfOk};
ghost use Rattle.rtp_ends.specs.Slots.{AreMarked, AreFree, AreFreeUpTo};

use opus_io::{Bytes, NoMemory};
use std::alloc::Global;
use std::marker::Model;

/// How many places there are slots for.
pub(crate) const WINDOW: u64 = 32_768;

// How many slots share a mark.
const BLOCK: u64 = 256;

/// What is kept of a packet.
#[derive(Drop)]
pub(crate) struct Kept {
    pub(crate) stamp: u32,
    pub(crate) payload: Bytes,
}

/// Slots for the places up to the greatest one. A block of slots without a mark is free.
#[derive(Drop)]
pub(crate) struct Ring {
    slots: Vec<Option<Kept>>,
    marks: [bool; 128],
    top: u64,
}

impl Model for Ring {
    ghost use Rattle.rtp_ends.specs.Slots.{RingState};

    ghost Value = { RingState };

    ghost use Rattle.rtp_ends.specs.Slots.{ring_inside, IsRing};

    ghost view = { ring_inside };

    ghost invariant = { IsRing };
}

impl Ring {
    ghost use Rattle.rtp_ends.specs.Slots.{AreWithin, has_place, at_place, with_place};
    ghost use Rattle.rtp_ends.specs.Order.{put};

    pub(crate) fn new(alloc: Global) -> Result<Ring, NoMemory>
        ensures { IfOk result (λ r. r ≡ record { top = 32768; kept = [] }) }
    {
        Ok(Ring {
            slots: free_slots(alloc)?,
            marks: [false; 128],
            top: WINDOW,
        })
    }

    /// The greatest place.
    pub(crate) fn top(&self) -> u64
        ensures top { result ≡ self.now.top }
        ensures high { 32768 ≤ result }
    {
        self.top
    }

    /// Begins at another greatest place, where nothing is kept.
    pub(crate) fn start(&mut self, top: u64)
        requires free { self.old.kept ≡ [] }
        requires high { 32768 ≤ top }
        ensures { self.new ≡ record { top = top; kept = [] } }
    {
        self.top = top;
    }

    /// Whether a packet of this place is kept.
    pub(crate) fn has(&self, place: u64) -> bool
        requires above { self.now.top < place + 32768 }
        requires most { place ≤ self.now.top }
        ensures { result ≡ has_place place self.now.kept }
    {
        self.slots[slot_of(place)].is_some()
    }

    /// Goes on by one place, and takes out what stood 32,768 before it.
    pub(crate) fn raise(&mut self) -> Option<Kept>
        requires { self.old.top < 2 ^ 62 }
        ensures top { self.new.top ≡ self.old.top + 1 }
        ensures kept { self.old.kept ≡ at_place (self.old.top + 1 - 32768) result ++ self.new.kept }
        ensures within { AreWithin self.new.top self.new.kept }
    {
        self.top += 1;
        self.slots[slot_of(self.top)].take()
    }

    /// Goes on over places whose slots are free, at most up to this one.
    pub(crate) fn skip(&mut self, to: u64)
        requires on { self.old.top ≤ to }
        requires most { to < 2 ^ 62 }
        ensures kept { self.new.kept ≡ self.old.kept }
        ensures from { self.old.top ≤ self.new.top }
        ensures most { self.new.top ≤ to }
        ensures within { AreWithin self.new.top self.new.kept }
    {
        self.top = skipped(self.slots.as_slice(), &mut self.marks, self.top, to);
    }

    /// Puts a packet to its place, which is free.
    pub(crate) fn put(&mut self, place: u64, kept: Kept)
        requires above { self.old.top < place + 32768 }
        requires most { place ≤ self.old.top }
        requires free { has_place place self.old.kept ≡ false }
        ensures top { self.new.top ≡ self.old.top }
        ensures kept { self.new.kept ≡ put (with_place place kept) self.old.kept }
        ensures within { AreWithin self.new.top self.new.kept }
        ensures most { length self.new.kept ≤ 32768 }
    {
        let slot = slot_of(place);
        self.marks[slot / BLOCK as usize] = true;
        self.slots[slot] = Some(kept);
    }
}

// The slot of a place.
fn slot_of(place: u64) -> usize
    ensures slot { result ≡ place % 32768 }
    ensures fits { result < 32768 }
{
    (place % WINDOW) as usize
}

// Slots with nothing in them.
fn free_slots(alloc: Global) -> Result<Vec<Option<Kept>>, NoMemory>
    ensures count { IfOk result (λ slots. length slots.items ≡ 32768) }
    ensures free { IfOk result (λ slots. AreFree slots.items) }
{
    let mut slots = Vec::with_capacity(alloc, WINDOW as usize)?;
    'fill: while slots.len() < WINDOW as usize {
        slots.push_reserved(None);
    }
    Ok(slots)
}

// The last place up to which all places above `top` have free slots, at most `to`. It clears the marks of blocks that it
// walked to their end and that are free.
fn skipped(slots: &[Option<Kept>], marks: &mut [bool; 128], top: u64, to: u64) -> u64
    requires sized { length slots.now ≡ 32768 }
    requires on { top ≤ to }
    requires most { to < 2 ^ 62 }
    requires marked { AreMarked marks.old slots.now }
    ensures from { top ≤ result }
    ensures most { result ≤ to }
    ensures free { AreFreeUpTo slots.now top result }
    ensures marked { AreMarked marks.new slots.now }
{
    let mut at = top;
    'places: while at < to {
        let run = free_run(slots, marks, at, to);
        if run == 0 {
            return at;
        }
        at += run;
        if run == 1 && at % BLOCK == BLOCK - 1 {
            clear_mark(slots, marks, slot_of(at) / BLOCK as usize);
        }
    }
    at
}

// How many places behind this one have free slots: a whole block without a mark, one, or none.
fn free_run(slots: &[Option<Kept>], marks: &[bool; 128], top: u64, to: u64) -> u64
    requires sized { length slots.now ≡ 32768 }
    requires on { top < to }
    requires most { to < 2 ^ 62 }
    requires marked { AreMarked marks.now slots.now }
    ensures most { top + result ≤ to }
    ensures free { AreFreeUpTo slots.now top (top + result) }
{
    let next = top + 1;
    let slot = slot_of(next);
    if slot % BLOCK as usize == 0 && BLOCK <= to - top && !marks[slot / BLOCK as usize] {
        BLOCK
    } else if slots[slot].is_none() {
        1
    } else {
        0
    }
}

// Clears the mark of a block whose slots are free.
fn clear_mark(slots: &[Option<Kept>], marks: &mut [bool; 128], block: usize)
    requires sized { length slots.now ≡ 32768 }
    requires block { block < 128 }
    requires marked { AreMarked marks.old slots.now }
    ensures marked { AreMarked marks.new slots.now }
{
    let first = block * BLOCK as usize;
    'slots: for slot in first..first + BLOCK as usize {
        if slots[slot].is_some() {
            return;
        }
    }
    marks[block] = false;
}
