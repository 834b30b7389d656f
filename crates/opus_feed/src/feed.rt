//! A packet that comes in pieces.
ghost use Rattle.opus_feed.specs.Places.{IsSteady, IsSteady-prop};

use crate::advance::advance;
use crate::body::Body;
use crate::framing::Framing;
use crate::head::Head;
use crate::packet::packet_of;
use crate::padding::Padding;
use crate::place::Place;
use crate::rule::opening_rule;
use crate::stage::Stage;
use crate::step::Step;
use opus_io::NoMemory;
use opus_packet::{Fault, Packet, Rule};
use std::alloc::Global;

/// Reads one packet from pieces of any size. All memory is taken by `new`.
#[derive(Drop)]
pub struct Feed {
    framing: Framing,
    padding: Padding,
    place: Place,
    head: Head,
    body: Body,
    ghost steady: { IsSteady framing padding place head body } by { IsSteady-prop framing padding place head body },
}

impl Feed {
    ghost use Rattle.std.specs.Prelude.{◌≡◌, ℕ, ◌+◌, ◌≤◌, ◌↔◌, List, [], ◌++◌, length, IfOk, IsTrue};
    ghost use Rattle.opus_feed.specs.Bodies.{memory_of};
    ghost use Rattle.opus_feed.specs.Holding.{held_of};
    ghost use Rattle.opus_feed.specs.Stands.{fault_at};
    ghost use Rattle.opus_feed.specs.Steps.{IsReading, IsWhole, IsOver, step_at};
    ghost use Rattle.opus_feed.specs.Feeds.{room_in, Stands, Ended, Again, Tells, AgainEnd, TellsEnd, StaysOver};
    ghost use Rattle.opus_feed.specs.declared.framing.Framing.TheVariants.{Whole};
    ghost use Rattle.opus_feed.specs.declared.place.Place.TheVariants.{Filling};
    ghost use Rattle.opus_feed.specs.Answers.{Answers, Ends, TakesSome, Finishes, IsRead, IsLongest};

    /// A feed that took no bytes. With `Drop` it takes 61,200 bytes of memory, with `Keep` 126,735.
    pub fn new(alloc: Global, framing: Framing, padding: Padding) -> Result<Feed, NoMemory>
        ensures stands { IfOk result (λ f. Stands f []) }
        ensures reading { IfOk result (λ f. IsReading f.place) }
        ensures framing { IfOk result (λ f. f.framing ≡ framing) }
        ensures padding { IfOk result (λ f. f.padding ≡ padding) }
        ensures room { IfOk result (λ f. room_in f ≡ memory_of padding) }
    {
        Ok(Feed {
            framing,
            padding,
            place: Place::Opening(Stage::Toc),
            head: Head::new(),
            body: Body::new(alloc, padding)?,
        })
    }

    /// Begins anew, with another framing. The choice of padding stays.
    #[inline(always)]
    pub fn reset(&mut self, framing: Framing)
        ensures stands { Stands self.new [] }
        ensures reading { IsReading self.new.place }
        ensures framing { self.new.framing ≡ framing }
        ensures padding { self.new.padding ≡ self.old.padding }
        ensures room { room_in self.new ≡ room_in self.old }
    {
        self.framing = framing;
        self.place = Place::Opening(Stage::Toc);
        self.body.clear();
    }

    /// Takes the next bytes. An empty piece changes nothing.
    #[inline(always)]
    pub fn feed(&mut self, piece: &[u8]) -> Step
        ensures stands { (bytes : List ℕ) → Stands self.old bytes → Stands self.new (bytes ++ piece.now) }
        ensures answer { (bytes : List ℕ) → Stands self.old bytes
            → Answers self.old.framing (bytes ++ piece.now) result }
        ensures ends { (bytes : List ℕ) → Stands self.old bytes → IsReading self.old.place
            → Ends (length bytes) (bytes ++ piece.now) result }
        ensures some { (bytes : List ℕ) → Stands self.old bytes → IsReading self.old.place → TakesSome result }
        ensures tells { Tells result self.new (length piece.now) }
        ensures ended { (bytes : List ℕ) → Ended self.old bytes → Ended self.new bytes }
        ensures again { Again self.old result self.new }
        ensures framing { self.new.framing ≡ self.old.framing }
        ensures padding { self.new.padding ≡ self.old.padding }
        ensures room { room_in self.new ≡ room_in self.old }
    {
        let moved = advance(
            self.framing,
            self.padding,
            self.place,
            &mut self.head,
            &mut self.body,
            piece,
        );
        self.place = moved.place;
        self.step(moved.used)
    }

    /// Says that no more bytes come. Ok where the bytes are a packet of the framing; a fault otherwise, which stays
    /// until the next `reset`.
    pub fn finish(&mut self) -> Result<(), Fault>
        ensures ended { (bytes : List ℕ) → Stands self.old bytes → Ended self.new bytes }
        ensures answer { (bytes : List ℕ) → Stands self.old bytes
            → Finishes self.old.framing bytes result }
        ensures tells { TellsEnd result self.new }
        ensures again { AgainEnd self.old result self.new }
        ensures framing { self.new.framing ≡ self.old.framing }
        ensures padding { self.new.padding ≡ self.old.padding }
        ensures room { room_in self.new ≡ room_in self.old }
    {
        self.end();
        match self.place {
            Place::Failed(rule) => Err(self.fault(rule)),
            _ => Ok(()),
        }
    }

    // Where it stands when no more bytes come.
    fn end(&mut self)
        ensures over { IsOver self.new.place }
        ensures ended { (bytes : List ℕ) → Stands self.old bytes → Ended self.new bytes }
        ensures stays { StaysOver self.old self.new }
        ensures framing { self.new.framing ≡ self.old.framing }
        ensures padding { self.new.padding ≡ self.old.padding }
        ensures room { room_in self.new ≡ room_in self.old }
    {
        match self.place {
            Place::Opening(stage) => {
                self.place = Place::Failed(opening_rule(self.framing, stage, &self.head));
            }
            Place::Filling => match self.framing {
                Framing::SelfDelimited => self.place = Place::Failed(Rule::Cut),
                Framing::Whole => self.end_whole(),
            },
            Place::Full | Place::Failed(_) => {}
        }
    }

    // The same behind the header of an undelimited packet, whose last frame takes what is left.
    fn end_whole(&mut self)
        requires place { self.old.place ≡ Filling }
        requires framing { self.old.framing ≡ Whole }
        ensures over { IsOver self.new.place }
        ensures ended { (bytes : List ℕ) → Stands self.old bytes → Ended self.new bytes }
        ensures framing { self.new.framing ≡ self.old.framing }
        ensures padding { self.new.padding ≡ self.old.padding }
        ensures room { room_in self.new ≡ room_in self.old }
    {
        match self
            .head
            .header(self.body.front)
            .last_length(self.body.came)
        {
            Some(last) => {
                self.head.last = last;
                self.place = Place::Full;
            }
            None => self.place = Place::Failed(self.head.part_rule()),
        }
    }

    // What `feed` says where it stands, when so many bytes of the piece came.
    #[inline(always)]
    fn step(&self, used: usize) -> Step
        ensures { result ≡ step_at self.now.place (self.now.body.front + self.now.body.came) used }
    {
        match self.place {
            Place::Opening(_) | Place::Filling => Step::More,
            Place::Full => Step::Done(used),
            Place::Failed(rule) => Step::Refused(self.fault(rule)),
        }
    }

    // The fault where this rule is broken.
    #[inline(always)]
    fn fault(&self, rule: Rule) -> Fault
        ensures { result ≡ fault_at rule self.now.body }
    {
        Fault {
            rule,
            place: self.len(),
        }
    }

    /// The length of the longest front of the bytes that a packet of the framing can have, of those fed since the
    /// last `reset` and before the first `finish`.
    #[inline(always)]
    pub fn len(&self) -> u64
        ensures sum { result ≡ self.now.body.front + self.now.body.came }
        ensures stands { (bytes : List ℕ) → Stands self.now bytes
            → IsLongest self.now.framing bytes result }
        ensures ended { (bytes : List ℕ) → Ended self.now bytes
            → IsLongest self.now.framing bytes result }
    {
        (self.body.front + self.body.came) as u64
    }

    /// Whether a packet is whole: from `Done`, or from a `finish` that answered Ok, up to the next `reset`.
    pub fn is_done(&self) -> bool
        ensures { IsTrue result ↔ IsWhole self.now.place }
    {
        matches!(self.place, Place::Full)
    }

    /// The packet that is whole. Frames and padding bytes are lent by the feed.
    #[inline(always)]
    pub fn packet(&self) -> Packet<'_>
        requires { IsWhole self.now.place }
        ensures ended { (bytes : List ℕ) → Ended self.now bytes
            → IsRead self.now.framing self.now.padding bytes result }
        ensures stands { (bytes : List ℕ) → Stands self.now bytes
            → IsRead self.now.framing self.now.padding bytes result }
    {
        packet_of(self.padding, &self.head, &self.body)
    }

    /// Bytes that are kept: frames, and with `Keep` padding behind them.
    pub fn held(&self) -> usize
        ensures kept { result ≡ self.now.body.kept }
        ensures stands { (bytes : List ℕ) → Stands self.now bytes
            → result ≡ held_of self.now.framing self.now.padding bytes }
        ensures ended { (bytes : List ℕ) → Ended self.now bytes
            → result ≡ held_of self.now.framing self.now.padding bytes }
        ensures most { result ≤ memory_of self.now.padding }
    {
        self.body.kept
    }
}
