//! A store of heads and payloads (`opus_demo`) as an input, whatever reads a payload.
ghost use Rattle.std.specs.Prelude.{◌≡◌, ◌↔◌, ℕ, ◌+◌, ◌-◌, ◌<◌, ◌≤◌, List, [], true, false, length, take, drop};
ghost use Rattle.opus_io.specs.Reader.{max_input};

use crate::cut::Cut;
use crate::first::head_of;
use crate::payload::PayloadReader;
use arrayvec::ArrayVec;
use job_loop::{Close, Fed, Form, Lent};
use opus_io::NoMemory;
use rec_store::DemoHead;

// Where the machine stands in a store.
#[derive(Clone, Copy, PartialEq, Eq)]
pub(crate) enum Mode {
    /// Between two records, or within a head, whose first bytes are kept.
    Head,
    /// Within a payload that is read in pieces.
    Payload,
    /// Within a payload that is decided: the rest of it is passed.
    Skip,
}

/// The records of an `opus_demo` store: each has the payload's length, the final range and the payload. One without a
/// payload is a lost packet.
///
/// A record that lies whole in what is fed is lent from there, where its reader can lend it so. Any other is read in
/// pieces.
#[derive(Drop)]
pub struct Store<P> {
    payload: P,
    mode: Mode,
    head: ArrayVec<u8, 8>,
    // Of the payload that is read: where it starts, the range in its head, and how many bytes of it are to come.
    start: u64,
    range: u32,
    left: u32,
    ghost short: { length head.items < 8 },
    ghost some: { 1 ≤ left },
}

impl<P: PayloadReader> Store<P> {
    ghost use Rattle.pack_records.specs.declared.store.Mode.TheVariants as modes;
    ghost use Rattle.pack_records.specs.StoreStands.{StoreStands, Feeds, Took, IsLost, IsOpen, IsOver, IsLeft, IsPassed};
    ghost use Rattle.pack_records.specs.Payloads.{IsHere};

    /// A form that was fed nothing.
    pub fn over(payload: P) -> Store<P>
        ensures stands { StoreStands P.reads result [] [] }
        ensures payload { result.payload ≡ payload }
    {
        Store {
            payload,
            mode: Mode::Head,
            head: ArrayVec::new(),
            start: 0,
            range: 0,
            left: 1,
        }
    }

    // A record that lies whole in `piece`, or its head.
    #[inline(always)]
    fn front(&mut self, at: u64, piece: &[u8]) -> Fed
        requires mode { self.old.mode ≡ modes.Head }
        requires none { self.old.head.items ≡ [] }
        requires head { 8 ≤ length piece.now }
        requires fits { at + length piece.now ≤ max_input }
        ensures took { Took P.reads self.old self.new at piece.now result }
    {
        let head = head_of(&piece[..8]);
        let start = at + 8;
        let count = 8 + head.len as usize;
        if self.lies(start, head, piece) {
            return Fed { count, whole: true };
        }
        let whole = self.begin(start, head);
        Fed { count: 8, whole }
    }

    // Reads a record that lies whole in `piece`, if its payload can be lent from there; false where it can't.
    #[inline(always)]
    fn lies(&mut self, start: u64, head: DemoHead, piece: &[u8]) -> bool
        requires head { 8 ≤ length piece.now }
        requires fits { start + length piece.now ≤ max_input + 8 }
        ensures some { result ≡ true → 1 ≤ head.len }
        ensures most { result ≡ true → 8 + head.len ≤ length piece.now }
        ensures here { result ≡ true → IsHere P.reads self.new.payload start head.range 8 (take (8 + head.len) piece.now) }
        ensures ready { result ≡ true → P.reads.ready self.new.payload (take (8 + head.len) piece.now) }
        ensures mode { self.new.mode ≡ self.old.mode }
        ensures kept { self.new.head ≡ self.old.head }
        ensures same { P.reads.layout self.new.payload ≡ P.reads.layout self.old.payload }
    {
        let count = 8 + head.len as usize;
        head.len > 0
            && count <= piece.len()
            && self.payload.here(start, head.range, 8, &piece[..count])
    }

    // More bytes of a head.
    #[cold]
    #[inline(never)]
    fn more_head(&mut self, at: u64, piece: &[u8]) -> Fed
        requires mode { self.old.mode ≡ modes.Head }
        requires some { 0 < length piece.now }
        requires fits { at + length piece.now ≤ max_input }
        ensures took { Took P.reads self.old self.new at piece.now result }
    {
        let count = piece.len().min(8 - self.head.len());
        self.head.try_extend_from_slice(&piece[..count]).unwrap();
        if self.head.len() < 8 {
            return Fed {
                count,
                whole: false,
            };
        }
        let head = head_of(self.head.as_slice());
        self.head.clear();
        let whole = self.begin(at + count as u64, head);
        Fed { count, whole }
    }

    // What stands behind a head: a payload that is read in pieces, or a record where there is none.
    fn begin(&mut self, start: u64, head: DemoHead) -> bool
        requires mode { self.old.mode ≡ modes.Head }
        ensures lost { result ≡ true → (head.len ≡ 0) × IsLost P.reads self.new start head.range }
        ensures open { result ≡ false → IsOpen P.reads self.new start head.len head.range }
        ensures head { self.new.head ≡ self.old.head }
        ensures same { P.reads.layout self.new.payload ≡ P.reads.layout self.old.payload }
    {
        if head.len == 0 {
            self.payload.lose(start, head.range);
            return true;
        }
        self.payload.begin(start);
        self.mode = Mode::Payload;
        self.start = start;
        self.range = head.range;
        self.left = head.len;
        false
    }

    // More bytes of a payload.
    #[cold]
    #[inline(never)]
    fn more_payload(&mut self, at: u64, piece: &[u8]) -> Fed
        requires mode { self.old.mode ≡ modes.Payload }
        requires some { 0 < length piece.now }
        requires fits { at + length piece.now ≤ max_input }
        ensures took { Took P.reads self.old self.new at piece.now result }
    {
        let most = piece.len().min(self.left as usize);
        match self
            .payload
            .take(self.start, self.range, at, &piece[..most])
        {
            None => {
                let whole = self.pass(most, Mode::Payload);
                if whole {
                    self.payload.end(self.start, self.range, at + most as u64);
                }
                Fed { count: most, whole }
            }
            Some(count) => {
                self.pass(count, Mode::Skip);
                Fed { count, whole: true }
            }
        }
    }

    // More bytes of a payload that is decided.
    #[cold]
    #[inline(never)]
    fn skip(&mut self, piece: &[u8]) -> Fed
        requires mode { self.old.mode ≡ modes.Skip }
        requires some { 0 < length piece.now }
        ensures some { 1 ≤ result.count }
        ensures most { result.count ≤ length piece.now }
        ensures same { P.reads.layout self.new.payload ≡ P.reads.layout self.old.payload }
        ensures fed { (at : ℕ) → Feeds P.reads self.old self.new at result (take result.count piece.now) }
        ensures part { result.whole ≡ false }
    {
        let count = piece.len().min(self.left as usize);
        self.pass(count, Mode::Skip);
        Fed {
            count,
            whole: false,
        }
    }

    // Passes bytes of a payload. Whether it is over; where it isn't, the machine goes on in this mode.
    fn pass(&mut self, count: usize, mode: Mode) -> bool
        requires fits { count ≤ self.old.left }
        ensures over { result ≡ true → IsOver self.old self.new count }
        ensures left { result ≡ false → IsLeft self.old self.new count mode }
        ensures passed { IsPassed self.old self.new count mode }
        ensures payload { self.new.payload ≡ self.old.payload }
    {
        let left = self.left - count as u32;
        if left == 0 {
            self.mode = Mode::Head;
            return true;
        }
        self.mode = mode;
        self.left = left;
        false
    }
}

impl<P: PayloadReader> Form for Store<P> {
    ghost use Rattle.pack_records.specs.Stores.{Settles, Ends};
    ghost use Rattle.pack_records.specs.StoreLaws.{store_grows, store_ends_grow, store_ends_once};
    ghost use Rattle.pack_records.specs.StoreStands.{StoreStands};

    type Record = P::Record;

    type Cut = Cut;

    ghost Layout = { P.Layout };

    ghost layout = { λ s. P.reads.layout s.payload };

    ghost settles = { λ l. Settles (P.reads.shows l) };

    ghost ends = { λ l. Ends (P.reads.shows l) };

    ghost place = { P.reads.place };

    ghost stands = { StoreStands P.reads };

    ghost current = { λ s. P.reads.current s.payload };

    ghost ready = { λ s. P.reads.ready s.payload };

    ghost lacks = { λ _. ⊥ };

    #[inline(always)]
    fn feed(&mut self, at: u64, piece: &[u8]) -> Result<Fed, NoMemory> {
        match self.mode {
            Mode::Head if self.head.is_empty() && piece.len() >= 8 => Ok(self.front(at, piece)),
            Mode::Head => Ok(self.more_head(at, piece)),
            Mode::Payload => Ok(self.more_payload(at, piece)),
            Mode::Skip => Ok(self.skip(piece)),
        }
    }

    #[inline(always)]
    fn record<'a>(&'a self, own: &'a [u8]) -> Lent<'a, P::Record> {
        self.payload.record(own)
    }

    fn end(&mut self, at: u64) -> Close<Cut> {
        let between = match self.mode {
            Mode::Head => self.head.is_empty(),
            _ => false,
        };
        Close {
            whole: false,
            cut: if between {
                None
            } else {
                Some(Cut { place: at })
            },
        }
    }

    ghost settled = { λ s h rs stands. (stands.rest, stands.front) };

    ghost grows = { λ l. store_grows (P.reads.shows l) P.reads.place (P.lawful.showing l) };

    ghost ends_grow = { λ l. store_ends_grow (P.reads.shows l) P.reads.place (P.lawful.showing l) };

    ghost ends_once = { λ l. store_ends_once (P.reads.shows l) P.reads.place (P.lawful.showing l) };
}
