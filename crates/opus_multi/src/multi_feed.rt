//! A multistream packet that comes in pieces (RFC 7845, section 3).
ghost use Rattle.std.specs.Prelude.{◌≡◌, ◌≤◌, vec_capacity};
ghost use Rattle.opus_multi.specs.MultistreamFault.{framing_of};
ghost use Rattle.opus_multi.specs.MultiRooms.{HasRoom, HasRoom-prop};

use crate::durations::Durations;
use crate::fault::MultiFault;
use crate::multi::behind;
use crate::multi_place::MultiPlace;
use crate::part::Part;
use opus_feed::{Feed, Framing, Padding, Step};
use opus_io::NoMemory;
use opus_packet::Fault;
use std::alloc::Global;

/// Reads one multistream packet from pieces of any size. The memory for one stream's packet and for the list of parts is
/// taken by `new`; each packet that ends is copied to memory of its own.
#[derive(Drop)]
pub struct MultiFeed {
    alloc: Global,
    streams: u8,
    place: MultiPlace,
    durations: Durations,
    parts: Vec<Part>,
    feed: Feed,
    ghost some: { 1 ≤ streams },
    ghost small: { streams ≤ 255 },
    ghost capacity: { streams ≤ vec_capacity parts },
    ghost room: { HasRoom place streams durations parts.items } by { HasRoom-prop place streams durations parts.items },
}

impl MultiFeed {
    ghost use Rattle.std.specs.Prelude.{◌≡◌, ℕ, ◌+◌, ◌≤◌, ◌<◌, List, [], ◌++◌, length, map, IfOk, OnOk};
    ghost use Rattle.opus_feed.specs.Bodies.{memory_of};
    ghost use Rattle.opus_feed.specs.Feeds.{room_in};
    ghost use Rattle.opus_feed.specs.Steps.{IsWhole};
    ghost use Rattle.opus_multi.specs.Durations.{HaveOneDuration};
    ghost use Rattle.opus_multi.specs.Joins.{held_durations};
    ghost use Rattle.opus_multi.specs.StreamParts.{AreFirstParts};
    ghost use Rattle.opus_multi.specs.MultiStands.{Reads, MultiStands, MultiEnded};
    ghost use Rattle.opus_multi.specs.MultiAnswers.{UnlessFull, MultiAnswers, MultiFinishes, MultiAgain, MultiTells, MultiTellsEnd, EndedParts};
    ghost use Rattle.opus_multi.specs.MultiTurns.{SameChoices, Turned, TurnReads, TakeReads, HasKept, EndReads, LastReads};
    ghost use Rattle.opus_multi.specs.declared.fault.MultiFault.TheVariants.{Stream};
    ghost use Rattle.opus_multi.specs.declared.multi_place.MultiPlace.TheVariants.{Reading, Done, Failed};

    /// A feed that took no bytes, of packets of so many streams. With `Drop` it takes 61,200 bytes of memory for one
    /// stream's packet, with `Keep` 126,735, and room for as many parts as there are streams.
    pub fn new(alloc: Global, streams: u8, padding: Padding) -> Result<MultiFeed, NoMemory>
        requires { 1 ≤ streams }
        ensures stands { IfOk result (λ m. MultiStands m []) }
        ensures reading { IfOk result (λ m. m.place ≡ Reading) }
        ensures streams { IfOk result (λ m. m.streams ≡ streams) }
        ensures padding { IfOk result (λ m. m.feed.padding ≡ padding) }
        ensures room { IfOk result (λ m. room_in m.feed ≡ memory_of padding) }
        ensures parts { IfOk result (λ m. vec_capacity m.parts ≡ streams) }
    {
        Ok(MultiFeed {
            alloc,
            streams,
            place: MultiPlace::Reading,
            durations: Durations::new(),
            parts: Vec::with_capacity(alloc, usize::from(streams))?,
            feed: Feed::new(alloc, framing_at(streams, 0), padding)?,
        })
    }

    /// Begins anew. The number of streams and the choice of padding stay.
    pub fn reset(&mut self)
        ensures stands { MultiStands self.new [] }
        ensures reading { self.new.place ≡ Reading }
        ensures streams { self.new.streams ≡ self.old.streams }
        ensures padding { self.new.feed.padding ≡ self.old.feed.padding }
        ensures room { room_in self.new.feed ≡ room_in self.old.feed }
    {
        self.place = MultiPlace::Reading;
        self.durations = Durations::new();
        self.parts.clear();
        self.feed.reset(framing_at(self.streams, 0));
    }

    /// Takes the next bytes. An empty piece changes nothing. A fault is that of the first stream that no continuation
    /// makes read, and stays until `reset`. `NoMemory` comes only where a stream other than the last became whole in
    /// this piece, and then stays until `reset`.
    pub fn feed(&mut self, piece: &[u8]) -> Result<(), MultiFault>
        ensures stands { (bytes : List ℕ) → MultiStands self.old bytes
            → UnlessFull result (MultiStands self.new (bytes ++ piece.now)) }
        ensures answer { (bytes : List ℕ) → MultiStands self.old bytes
            → MultiAnswers self.old.streams (length self.old.parts.items) (bytes ++ piece.now) result }
        ensures tells { MultiTells result self.old self.new }
        ensures again { MultiAgain self.old result self.new }
        ensures same { SameChoices self.old self.new }
    {
        match self.place {
            MultiPlace::Reading => self.take(piece),
            MultiPlace::Done => Ok(()),
            MultiPlace::Failed(fault) => Err(fault),
        }
    }

    // The same where more bytes can come.
    fn take(&mut self, piece: &[u8]) -> Result<(), MultiFault>
        requires { self.old.place ≡ Reading }
        ensures reads { (bytes : List ℕ) → Reads self.old bytes
            → TakeReads self.old (bytes ++ piece.now) result self.new }
        ensures tells { MultiTells result self.old self.new }
        ensures same { SameChoices self.old self.new }
    {
        let mut rest = piece;
        while let Some(used) = self.turn(rest)? {
            rest = behind(rest, used);
        }
        Ok(())
    }

    // Feeds the stream that has begun. Where its packet ends, behind so many bytes of the piece, the next one begins.
    fn turn(&mut self, piece: &[u8]) -> Result<Option<usize>, MultiFault>
        requires { self.old.place ≡ Reading }
        ensures reads { (bytes : List ℕ) → Reads self.old bytes
            → TurnReads self.old bytes piece.now result self.new }
        ensures turned { Turned self.old (length piece.now) result self.new }
        ensures same { SameChoices self.old self.new }
    {
        match self.feed.feed(piece) {
            Step::More => Ok(None),
            Step::Refused(fault) => Err(self.refuse(fault)),
            Step::Done(used) if self.parts.len() + 1 < usize::from(self.streams) => {
                match self.keep() {
                    Ok(()) => Ok(Some(used)),
                    Err(_) => {
                        self.place = MultiPlace::Failed(MultiFault::NoMemory);
                        Err(MultiFault::NoMemory)
                    }
                }
            }
            // The packet of the last stream tells no end.
            Step::Done(_) => Ok(None),
        }
    }

    // Keeps the packet that is whole, and begins with the next stream.
    fn keep(&mut self) -> Result<(), NoMemory>
        requires reading { self.old.place ≡ Reading }
        requires whole { IsWhole self.old.feed.place }
        requires more { length self.old.parts.items + 1 < self.old.streams }
        ensures ok { OnOk result (HasKept self.old self.new) }
        ensures reading { self.new.place ≡ Reading }
        ensures same { SameChoices self.old self.new }
    {
        let packet = self.feed.packet();
        let part = Part::copy(self.alloc, &packet)?;
        let k = self.parts.len();
        self.durations.add(k, packet.duration());
        self.parts.push(part).unwrap();
        self.feed.reset(framing_at(self.streams, k + 1));
        Ok(())
    }

    // The fault of the stream that has begun, which stays.
    fn refuse(&mut self, fault: Fault) -> MultiFault
        requires { self.old.place ≡ Reading }
        ensures fault { result ≡ Stream (length self.old.parts.items) fault }
        ensures place { self.new.place ≡ Failed (Stream (length self.old.parts.items) fault) }
        ensures parts { self.new.parts ≡ self.old.parts }
        ensures feed { self.new.feed ≡ self.old.feed }
        ensures streams { self.new.streams ≡ self.old.streams }
    {
        let fault = MultiFault::Stream(self.parts.len() as u8, fault);
        self.place = MultiPlace::Failed(fault);
        fault
    }

    /// Says that no more bytes come. Ok where they are a multistream packet; otherwise their fault, which stays until
    /// `reset`. `NoMemory` comes only where they are one, and then stays until `reset`.
    pub fn finish(&mut self) -> Result<(), MultiFault>
        ensures ended { (bytes : List ℕ) → MultiStands self.old bytes
            → UnlessFull result (MultiEnded self.new bytes) }
        ensures answer { (bytes : List ℕ) → MultiStands self.old bytes
            → MultiFinishes self.old.streams bytes result }
        ensures tells { MultiTellsEnd result self.new }
        ensures again { MultiAgain self.old result self.new }
        ensures same { SameChoices self.old self.new }
    {
        match self.place {
            MultiPlace::Reading => self.end(),
            MultiPlace::Done => Ok(()),
            MultiPlace::Failed(fault) => Err(fault),
        }
    }

    // The same where more bytes could come.
    fn end(&mut self) -> Result<(), MultiFault>
        requires { self.old.place ≡ Reading }
        ensures ends { (bytes : List ℕ) → Reads self.old bytes → EndReads bytes result self.new }
        ensures tells { MultiTellsEnd result self.new }
        ensures same { SameChoices self.old self.new }
    {
        match self.feed.finish() {
            Ok(()) => self.end_last(),
            Err(fault) => Err(self.refuse(fault)),
        }
    }

    // The same where the packet of the last stream is whole.
    fn end_last(&mut self) -> Result<(), MultiFault>
        requires reading { self.old.place ≡ Reading }
        requires whole { IsWhole self.old.feed.place }
        ensures ends { LastReads self.old result self.new }
        ensures tells { MultiTellsEnd result self.new }
        ensures same { SameChoices self.old self.new }
    {
        let packet = self.feed.packet();
        let k = self.parts.len();
        self.durations.add(k, packet.duration());
        if let Some(other) = self.durations.other {
            let fault = MultiFault::Unequal(other.min(254) as u8);
            self.place = MultiPlace::Failed(fault);
            return Err(fault);
        }
        let Ok(part) = Part::copy(self.alloc, &packet) else {
            self.place = MultiPlace::Failed(MultiFault::NoMemory);
            return Err(MultiFault::NoMemory);
        };
        self.parts.push(part).unwrap();
        self.place = MultiPlace::Done;
        Ok(())
    }

    /// The parts of the streams that are whole among all but the last; after a `finish` that answered Ok, of all streams.
    pub fn parts(&self) -> &[Part]
        ensures stands { (bytes : List ℕ) → MultiStands self.now bytes
            → AreFirstParts self.now.streams self.now.feed.padding bytes result.now }
        ensures ended { (bytes : List ℕ) → MultiEnded self.now bytes
            → EndedParts self.now.place self.now.streams self.now.feed.padding bytes result.now }
        ensures some { self.now.place ≡ Done → 1 ≤ length result.now }
        ensures equal { self.now.place ≡ Done → HaveOneDuration (held_durations (map (λ p. p.held) result.now)) }
    {
        &self.parts
    }
}

/// Which packets stream `k` of so many is read from: all but the last are self-delimited (RFC 7845, section 3).
pub fn framing_at(streams: u8, k: usize) -> Framing
    requires { k ≤ streams }
    ensures { result ≡ framing_of streams k }
{
    if k + 1 < usize::from(streams) {
        Framing::SelfDelimited
    } else {
        Framing::Whole
    }
}
