//! One record's packet, read where it lies or in pieces, and what is lent of it.
ghost use Rattle.std.specs.Prelude.{◌≡◌, ◌≤◌, vec_capacity};
ghost use Rattle.opus_io.specs.Reader.{max_input};

use crate::item::{Found, Item};
use crate::kept_form::{MOST_KEPT, is_form, write_form};
use crate::piece_taken::PieceTaken;
use job_loop::Lent;
use opus_feed::{Feed, Framing, Padding, Step};
use opus_io::NoMemory;
use opus_packet::{Fault, Packet, decode};
use opus_self::decode_self;
use std::alloc::Global;

/// The packet of one record. All memory is taken by `new`.
#[derive(Drop)]
pub(crate) struct Pieces {
    padding: Padding,
    framing: Framing,
    feed: Feed,
    // The packet's form, where it doesn't lie in what was taken last.
    kept: Vec<u8>,
    // It lies there, behind so many bytes.
    lies: bool,
    before: usize,
    item: Item,
    ghost framing_is: { feed.framing ≡ framing },
    ghost padding_is: { feed.padding ≡ padding },
    ghost room: { 192628 ≤ vec_capacity kept },
}

impl Pieces {
    ghost use Rattle.pack_records.specs.Pieces.{shown_by, item_of, Same, PieceStands, HasTaken, IsCount, IsStanding, IsReady, IsKeptOf};
    ghost use Rattle.pack_records.specs.Fits.{ItemFits};
    ghost use Rattle.pack_records.specs.Holds.{Holds, HoldsPacket, record_of, lost_record};
    ghost use Rattle.opus_feed.specs.Steps.{IsWhole};
    ghost use Rattle.std.specs.Prelude.{◌≡◌, ℕ, ◌+◌, ◌-◌, ◌^◌, ◌<◌, ◌≤◌, List, [], ◌++◌, true, false, length, take, drop, IfOk, IfSome, vec_capacity};
    ghost use Rattle.pack_records.specs.declared.item.Found.TheVariants.{Bad as FoundBad, Packet as FoundPacket};
    ghost use Rattle.opus_feed.specs.declared.framing.Framing.TheVariants.{Whole as WholeFraming, SelfDelimited};

    /// No byte came.
    pub(crate) fn new(alloc: Global, framing: Framing, padding: Padding) -> Result<Pieces, NoMemory>
        ensures stands { IfOk result (λ p. PieceStands p []) }
        ensures framing { IfOk result (λ p. p.framing ≡ framing) }
        ensures padding { IfOk result (λ p. p.padding ≡ padding) }
        ensures memory { IfOk result (λ p. vec_capacity p.kept ≡ 192628) }
    {
        Ok(Pieces {
            padding,
            framing,
            feed: Feed::new(alloc, framing, padding)?,
            kept: Vec::with_capacity(alloc, MOST_KEPT)?,
            lies: false,
            before: 0,
            item: Item {
                start: 0,
                place: 0,
                range: 0,
                found: Found::Lost,
            },
        })
    }

    /// Begins with another packet.
    #[inline(always)]
    pub(crate) fn begin(&mut self)
        ensures stands { PieceStands self.new [] }
        ensures same { Same self.old self.new }
    {
        self.feed.reset(self.framing);
    }

    /// Takes the next bytes of a packet whose first byte stands at `start`. The first of these stands at `at`.
    pub(crate) fn take(&mut self, start: u64, range: u32, at: u64, piece: &[u8]) -> PieceTaken
        requires some { 0 < length piece.now }
        requires fits { at + length piece.now ≤ max_input }
        ensures taken { (h : List ℕ) → PieceStands self.old h → start + length h ≡ at
            → HasTaken self.new start range h piece.now result }
        ensures count { IsCount result (length piece.now) }
        ensures ready { IsStanding result ((own : List ℕ) → IsReady self.new own) }
        ensures same { Same self.old self.new }
    {
        match self.feed.feed(piece) {
            Step::More => PieceTaken::More,
            Step::Done(used) => {
                let count = used.max(1);
                self.keep(start, range, at + count as u64);
                PieceTaken::Packet(count)
            }
            Step::Refused(fault) => {
                let place = start.saturating_add(fault.place).saturating_add(1);
                self.refuse(start, range, place, fault);
                let count = place.saturating_sub(at) as usize;
                PieceTaken::Bad(count.max(1).min(piece.len()))
            }
        }
    }

    /// Reads all of `own` behind its first `before` bytes as one undelimited packet where it lies, if that is its kept
    /// form; false where it isn't.
    #[inline(always)]
    pub(crate) fn here(&mut self, start: u64, range: u32, before: usize, own: &[u8]) -> bool
        requires before { before ≤ length own.now }
        requires framing { self.old.framing ≡ WholeFraming }
        requires fits { start + (length own.now - before) ≤ max_input }
        ensures packet { result ≡ true → HoldsPacket self.old.padding WholeFraming start range
            (drop before own.now) (shown_by self.new own.now) }
        ensures ready { result ≡ true → IsReady self.new own.now }
        ensures same { Same self.old self.new }
    {
        match decode(&own[before..]) {
            Ok(packet) if is_form(self.padding, &packet) => {
                self.lend(start, range, before, &packet);
                true
            }
            _ => false,
        }
    }

    /// Reads a self-delimited packet from the front of `shown` where it lies, if that is its kept form, and answers
    /// its size in bytes.
    #[inline(always)]
    pub(crate) fn here_first(&mut self, start: u64, shown: &[u8]) -> Option<usize>
        requires framing { self.old.framing ≡ SelfDelimited }
        requires fits { start + length shown.now ≤ max_input }
        ensures packet { IfSome result (λ used. HoldsPacket self.old.padding SelfDelimited start 0
            (take used shown.now) (shown_by self.new (take used shown.now))) }
        ensures count { IfSome result (λ used. (1 ≤ used) × (used ≤ length shown.now)) }
        ensures ready { IfSome result (λ used. IsReady self.new (take used shown.now)) }
        ensures same { Same self.old self.new }
    {
        match decode_self(shown) {
            Ok(read) if is_form(self.padding, &read.packet) => {
                self.lend(start, 0, 0, &read.packet);
                Some(read.used)
            }
            _ => None,
        }
    }

    // A packet that lies in what was taken last, behind so many bytes.
    #[inline(always)]
    fn lend(&mut self, start: u64, range: u32, before: usize, packet: &Packet<'_>)
        requires fits { start + packet.now.size < 2 ^ 63 }
        ensures lies { self.new.lies ≡ true }
        ensures before { self.new.before ≡ before }
        ensures item { self.new.item ≡ item_of start (start + packet.now.size) range
            (FoundPacket self.old.framing packet.now.shape packet.now.size) }
        ensures same { Same self.old self.new }
    {
        self.lies = true;
        self.before = before;
        self.item = Item {
            start,
            place: start + u64::from(packet.size()),
            range,
            found: Found::Packet {
                framing: self.framing,
                shape: packet.shape(),
                size: packet.size(),
            },
        };
    }

    /// Says that no byte follows those that came, of which the last stands before `at`.
    #[cold]
    #[inline(never)]
    pub(crate) fn end(&mut self, start: u64, range: u32, at: u64)
        ensures holds { (h : List ℕ) → PieceStands self.old h → start + length h ≡ at
            → (own : List ℕ) → Holds self.old.padding self.old.framing start range h (shown_by self.new own) }
        ensures ready { (own : List ℕ) → IsReady self.new own }
        ensures same { Same self.old self.new }
    {
        match self.feed.finish() {
            Ok(()) => self.keep(start, range, at),
            Err(fault) => self.refuse(start, range, at, fault),
        }
    }

    /// The record that stands.
    #[inline(always)]
    pub(crate) fn record<'a>(&'a self, own: &'a [u8]) -> Lent<'a, Item>
        requires { IsReady self.now own.now }
        ensures is { result ≡ shown_by self.now own.now }
        ensures fits { ItemFits result.item result.bytes }
    {
        let bytes = if self.lies {
            &own[self.before..]
        } else {
            self.kept.as_slice()
        };
        Lent::new(&self.item, bytes)
    }

    // The packet that is whole.
    fn keep(&mut self, start: u64, range: u32, place: u64)
        requires whole { IsWhole self.old.feed.place }
        ensures ready { (own : List ℕ) → IsReady self.new own }
        ensures packet { (own : List ℕ) → IsKeptOf (shown_by self.new own) self.old.padding self.old.framing
            start place range self.old.feed }
        ensures same { Same self.old self.new }
    {
        let packet = self.feed.packet();
        write_form(self.framing, &packet, &mut self.kept);
        self.lies = false;
        self.item = Item {
            start,
            place,
            range,
            found: Found::Packet {
                framing: self.framing,
                shape: packet.shape(),
                size: packet.size(),
            },
        };
    }

    // A record that holds no packet.
    #[cold]
    #[inline(never)]
    fn refuse(&mut self, start: u64, range: u32, place: u64, fault: Fault)
        ensures shown { (own : List ℕ) → shown_by self.new own ≡ record_of start place range (FoundBad fault) [] }
        ensures ready { (own : List ℕ) → IsReady self.new own }
        ensures same { Same self.old self.new }
    {
        self.lies = false;
        self.kept.clear();
        self.item = Item {
            start,
            place,
            range,
            found: Found::Bad(fault),
        };
    }

    /// A record that holds a lost packet.
    #[inline(always)]
    pub(crate) fn lose(&mut self, start: u64, range: u32)
        ensures shown { (own : List ℕ) → shown_by self.new own ≡ lost_record start range }
        ensures ready { (own : List ℕ) → IsReady self.new own }
        ensures same { Same self.old self.new }
    {
        self.lies = false;
        self.kept.clear();
        self.item = Item {
            start,
            place: start,
            range,
            found: Found::Lost,
        };
    }
}
