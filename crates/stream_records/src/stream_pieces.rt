//! One record's multistream packet, read in pieces, and what is lent of it.
ghost use Rattle.std.specs.Prelude.{◌≡◌, ◌≤◌, ◌*◌, length, drop, vec_capacity};
ghost use Rattle.opus_io.specs.Reader.{max_input};
ghost use Rattle.opus_multi.specs.MultistreamFault.{framing_of};

use crate::durations::Durations;
use crate::item::{Spelling, StreamsFound, StreamsItem};
use arrayvec::ArrayVec;
use job_loop::Lent;
use opus_feed::{Feed, Framing, Padding, Step};
use opus_io::NoMemory;
use opus_multi::framing_at;
use opus_packet::Fault;
use pack_records::{MOST_KEPT, PayloadReader, append_form};
use std::alloc::Global;

/// The multistream packet of one record. One feed serves all streams, one after another. All memory is taken by `new`.
#[derive(Drop)]
pub struct StreamPieces {
    streams: u8,
    feed: Feed,
    // The kept forms of the streams that are whole.
    kept: Vec<u8>,
    durations: Durations,
    // The place of the first byte of the stream that has begun.
    begun: u64,
    item: StreamsItem,
    ghost some: { 1 ≤ streams },
    ghost small: { streams ≤ 255 },
    ghost capacity: { 192628 * streams ≤ vec_capacity kept },
    ghost filled: { length kept.items ≤ 192628 * length item.streams.items },
}

impl StreamPieces {
    ghost use Rattle.std.specs.Prelude.{ℕ, ◌+◌, ◌-◌, ◌<◌, List, [], ◌++◌, take, IfOk};
    ghost use Rattle.opus_feed.specs.Feeds.{Stands};
    ghost use Rattle.opus_feed.specs.Steps.{IsReading, IsWhole};
    ghost use Rattle.opus_feed.specs.declared.framing.Framing.TheVariants.{SelfDelimited};
    ghost use Rattle.stream_records.specs.declared.item.StreamsFound.TheVariants as kinds;
    ghost use Rattle.stream_records.specs.Fits.{ItemFits, FoundFits};
    ghost use Rattle.stream_records.specs.Holds.{Holds, record_of, lost_record};
    ghost use Rattle.stream_records.specs.StreamPieces.{shown_by, IsReady, choices_of, whole_in, Reads, TurnReads, Turned, AllReads, HasAdded, HasLast};

    /// No byte came of a record whose first byte stands at 0.
    pub(crate) fn new(
        alloc: Global,
        streams: u8,
        padding: Padding,
    ) -> Result<StreamPieces, NoMemory>
        requires { 1 ≤ streams }
        ensures reads { IfOk result (λ p. Reads p 0 []) }
        ensures streams { IfOk result (λ p. p.streams ≡ streams) }
        ensures padding { IfOk result (λ p. p.feed.padding ≡ padding) }
        ensures memory { IfOk result (λ p. vec_capacity p.kept ≡ 192628 * streams) }
    {
        Ok(StreamPieces {
            streams,
            feed: Feed::new(alloc, framing_at(streams, 0), padding)?,
            kept: Vec::with_capacity(alloc, MOST_KEPT * usize::from(streams))?,
            durations: Durations::new(),
            begun: 0,
            item: StreamsItem {
                start: 0,
                place: 0,
                range: 0,
                found: StreamsFound::Lost,
                streams: ArrayVec::new(),
            },
        })
    }

    // Forgets the streams that are whole.
    fn clear(&mut self)
        ensures kept { self.new.kept.items ≡ [] }
        ensures whole { whole_in self.new ≡ [] }
        ensures same { choices_of self.new ≡ choices_of self.old }
    {
        self.kept.clear();
        self.item.streams.clear();
    }

    // Feeds one stream after another with a piece that ends at this place. A fault is that of the stream that has begun.
    fn turns(&mut self, end: u64, piece: &[u8]) -> Result<(), Fault>
        requires { length piece.now ≤ end }
        ensures reads { (start : ℕ) (bytes : List ℕ) → start + length bytes + length piece.now ≡ end
            → Reads self.old start bytes → AllReads start bytes piece.now result self.new }
        ensures same { choices_of self.new ≡ choices_of self.old }
    {
        let mut rest = piece;
        while let Some(used) = self.turn(end, rest)? {
            rest = behind(rest, used);
        }
        Ok(())
    }

    // Feeds the stream that has begun. Where its packet ends, behind so many bytes of the piece, the next one begins.
    fn turn(&mut self, end: u64, piece: &[u8]) -> Result<Option<usize>, Fault>
        requires { length piece.now ≤ end }
        ensures reads { (start : ℕ) (bytes : List ℕ) → start + length bytes + length piece.now ≡ end
            → Reads self.old start bytes → TurnReads start bytes piece.now result self.new }
        ensures turned { Turned self.old (length piece.now) result self.new }
        ensures same { choices_of self.new ≡ choices_of self.old }
    {
        match self.feed.feed(piece) {
            Step::More => Ok(None),
            Step::Refused(fault) => Err(fault),
            Step::Done(used) if self.item.streams.len() + 1 < usize::from(self.streams) => {
                self.keep(end - (piece.len() - used) as u64);
                Ok(Some(used))
            }
            // The packet of the last stream tells no end.
            Step::Done(_) => Ok(None),
        }
    }

    // Keeps the packet that is whole. The next stream begins at this place.
    fn keep(&mut self, next: u64)
        requires whole { IsWhole self.old.feed.place }
        requires more { length (whole_in self.old) + 1 < self.old.streams }
        ensures added { HasAdded SelfDelimited self.old self.new }
        ensures begun { self.new.begun ≡ next }
        ensures framing { self.new.feed.framing ≡ framing_of self.old.streams (length (whole_in self.old) + 1) }
        ensures begins { Stands self.new.feed [] }
        ensures reading { IsReading self.new.feed.place }
        ensures same { choices_of self.new ≡ choices_of self.old }
    {
        self.add(Framing::SelfDelimited);
        self.begun = next;
        self.feed
            .reset(framing_at(self.streams, self.item.streams.len()));
    }

    // The packet that is whole is one more stream, written in this framing.
    fn add(&mut self, framing: Framing)
        requires whole { IsWhole self.old.feed.place }
        requires more { length (whole_in self.old) < self.old.streams }
        ensures added { HasAdded framing self.old self.new }
        ensures count { length (whole_in self.new) ≡ length (whole_in self.old) + 1 }
        ensures begun { self.new.begun ≡ self.old.begun }
        ensures feed { self.new.feed ≡ self.old.feed }
        ensures streams { self.new.streams ≡ self.old.streams }
    {
        let packet = self.feed.packet();
        let k = self.item.streams.len();
        self.durations.add(k as u8, self.begun, packet.duration());
        append_form(framing, &packet, &mut self.kept);
        self.item.streams.push(Spelling::of(&packet));
    }

    // The same where the packet of the last stream is whole.
    fn end_last(&mut self, start: u64, range: u32, at: u64)
        requires whole { IsWhole self.old.feed.place }
        requires more { length (whole_in self.old) < self.old.streams }
        ensures last { HasLast self.old start range at (shown_by self.new) }
        ensures ready { IsReady self.new }
        ensures same { choices_of self.new ≡ choices_of self.old }
    {
        self.add(Framing::Whole);
        match self.durations.other {
            Some(other) => {
                let found = StreamsFound::Unequal {
                    stream: other.stream,
                    start: other.start,
                };
                self.clear();
                self.tell(start, range, at, found);
            }
            None => self.tell(start, range, at, StreamsFound::Packets),
        }
    }

    // The stream that has begun doesn't read.
    fn refuse(&mut self, start: u64, range: u32, place: u64, fault: Fault)
        ensures shown { shown_by self.new ≡ record_of start place range
            (kinds.Broken (length (whole_in self.old)) self.old.begun fault) [] [] }
        ensures ready { IsReady self.new }
        ensures same { choices_of self.new ≡ choices_of self.old }
    {
        let found = StreamsFound::Broken {
            stream: self.item.streams.len() as u8,
            start: self.begun,
            fault,
        };
        self.clear();
        self.tell(start, range, place, found);
    }

    // What the record holds.
    fn tell(&mut self, start: u64, range: u32, place: u64, found: StreamsFound)
        ensures shown { shown_by self.new
            ≡ record_of start place range found (whole_in self.old) self.old.kept.items }
        ensures same { choices_of self.new ≡ choices_of self.old }
    {
        self.item.start = start;
        self.item.place = place;
        self.item.range = range;
        self.item.found = found;
    }
}

impl PayloadReader for StreamPieces {
    ghost use Rattle.stream_records.specs.Holds.{Choices};
    ghost use Rattle.stream_records.specs.Raw.{RawSettles};
    ghost use Rattle.stream_records.specs.RawLaws.{raw_says};
    ghost use Rattle.stream_records.specs.StreamReading.{streams_reading};
    ghost use Rattle.stream_records.specs.StreamReadingLaws.{streams_lawful};

    type Record = StreamsItem;

    ghost Layout = { Choices };

    ghost reads = { streams_reading };

    ghost settles = { RawSettles };

    // The kept forms of several streams never lie where they were read.
    fn here(&mut self, start: u64, range: u32, before: usize, own: &[u8]) -> bool {
        false
    }

    fn begin(&mut self, start: u64) {
        self.clear();
        self.durations = Durations::new();
        self.begun = start;
        self.feed.reset(framing_at(self.streams, 0));
    }

    fn take(&mut self, start: u64, range: u32, at: u64, piece: &[u8]) -> Option<usize> {
        match self.turns(at + piece.len() as u64, piece) {
            Ok(()) => None,
            Err(fault) => {
                let place = self.begun.saturating_add(fault.place).saturating_add(1);
                self.refuse(start, range, place, fault);
                let count = place.saturating_sub(at) as usize;
                Some(count.max(1).min(piece.len()))
            }
        }
    }

    #[cold]
    #[inline(never)]
    fn end(&mut self, start: u64, range: u32, at: u64) {
        match self.feed.finish() {
            Ok(()) if self.item.streams.len() < usize::from(self.streams) => {
                self.end_last(start, range, at);
            }
            // The streams of a record are never all whole before it ends.
            Ok(()) => self.lose(start, range),
            Err(fault) => self.refuse(start, range, at, fault),
        }
    }

    fn lose(&mut self, start: u64, range: u32) {
        self.clear();
        self.tell(start, range, start, StreamsFound::Lost);
    }

    #[inline(always)]
    fn record<'a>(&'a self, own: &'a [u8]) -> Lent<'a, StreamsItem> {
        Lent::new(&self.item, self.kept.as_slice())
    }

    ghost lawful = { streams_lawful };

    ghost says = { raw_says };
}

// The bytes from a place on.
fn behind(bytes: &[u8], at: usize) -> &[u8]
    requires { at ≤ length bytes.now }
    ensures { result.now ≡ drop at bytes.now }
{
    &bytes[at..]
}
