//! How a feed moves on over a piece.
ghost use Rattle.std.specs.Prelude.{◌≡◌, ℕ, ◌+◌, ◌-◌, ◌≤◌, List, ◌++◌, length, vec_len, vec_capacity, min};
ghost use Rattle.opus_packet.specs.PacketPrefix.{AreBytes};
ghost use Rattle.opus_feed.specs.Bodies.{Fills, StandsBehind};
ghost use Rattle.opus_feed.specs.Holding.{held_of};
ghost use Rattle.opus_feed.specs.Places.{IsOpening, IsSteady};
ghost use Rattle.opus_feed.specs.Stands.{StandsAt};
ghost use Rattle.opus_feed.specs.Steps.{IsReading, IsWhole};
ghost use Rattle.opus_feed.specs.Advance.{StandsOn, Stays};
ghost use Rattle.opus_feed.specs.declared.place.Place.TheVariants.{Opening, Failed};

use crate::body::Body;
use crate::framing::Framing;
use crate::head::Head;
use crate::moved::Moved;
use crate::padding::Padding;
use crate::place::Place;
use crate::stage::Stage;
use opus_packet::Rule;

/// Moves on over `piece`.
#[inline(always)]
pub(crate) fn advance(
    framing: Framing,
    padding: Padding,
    place: Place,
    head: &mut Head,
    body: &mut Body,
    piece: &[u8],
) -> Moved
    requires { IsSteady framing padding place head.old body.old }
    ensures steady { IsSteady framing padding result.place head.new body.new }
    ensures stands { StandsOn framing place head.old body.old piece.now result head.new body.new }
    ensures held { (bytes : List ℕ) → AreBytes (bytes ++ piece.now)
        → StandsAt framing place head.old body.old bytes → body.old.kept ≡ held_of framing padding bytes
        → body.new.kept ≡ held_of framing padding (bytes ++ piece.now) }
    ensures moved { IsReading place → IsWhole result.place
        → body.new.front + body.new.came ≡ body.old.front + body.old.came + result.used }
    ensures within { result.used ≤ length piece.now }
    ensures room { vec_capacity body.new.bytes ≡ vec_capacity body.old.bytes }
    ensures stays { Stays place head.old body.old result head.new body.new }
{
    match place {
        Place::Opening(stage) => open(framing, padding, stage, head, body, piece),
        Place::Filling => fill(framing, body, piece),
        Place::Full | Place::Failed(_) => Moved { place, used: 0 },
    }
}

// Takes what is left of the header, and what follows it.
#[inline(always)]
fn open(
    framing: Framing,
    padding: Padding,
    stage: Stage,
    head: &mut Head,
    body: &mut Body,
    piece: &[u8],
) -> Moved
    requires { IsOpening framing padding stage head.old body.old }
    ensures steady { IsSteady framing padding result.place head.new body.new }
    ensures stands { StandsOn framing (Opening stage) head.old body.old piece.now result head.new body.new }
    ensures held { (bytes : List ℕ) → AreBytes (bytes ++ piece.now)
        → StandsAt framing (Opening stage) head.old body.old bytes
        → body.new.kept ≡ held_of framing padding (bytes ++ piece.now) }
    ensures moved { IsWhole result.place
        → body.new.front + body.new.came ≡ body.old.front + body.old.came + result.used }
    ensures within { result.used ≤ length piece.now }
    ensures room { vec_capacity body.new.bytes ≡ vec_capacity body.old.bytes }
{
    let taken = head.take(framing, stage, piece);
    body.front += taken.used;
    match taken.stage {
        Stage::Ready => {
            let header = head.header(body.front);
            body.start(padding, header.body_size(head.last), header.tail);
            let moved = fill(framing, body, &piece[taken.used..]);
            Moved {
                place: moved.place,
                used: taken.used + moved.used,
            }
        }
        Stage::BadCount => refuse(body, Rule::R5, taken.used),
        Stage::BadPadding => refuse(body, Rule::PadLimit, taken.used),
        stage => Moved {
            place: Place::Opening(stage),
            used: taken.used,
        },
    }
}

// The rule is broken by the last byte of the header that came: it doesn't count.
#[inline(always)]
fn refuse(body: &mut Body, rule: Rule, used: usize) -> Moved
    requires { 1 ≤ body.old.front }
    ensures place { result.place ≡ Failed rule }
    ensures used { result.used ≡ used }
    ensures front { body.new ≡ record body.old { front = body.old.front - 1 } }
{
    body.front -= 1;
    Moved {
        place: Place::Failed(rule),
        used,
    }
}

// Takes frames and padding.
#[inline(always)]
fn fill(framing: Framing, body: &mut Body, piece: &[u8]) -> Moved
    requires came { body.old.came ≤ body.old.limit }
    requires kept { body.old.kept ≡ min body.old.room body.old.came }
    requires room { body.old.room ≤ vec_len body.old.bytes }
    requires front { body.old.front ≤ 65891 }
    requires small { body.old.limit ≤ 16838415 }
    ensures fills { Fills body.old piece.now result.used body.new }
    ensures place { StandsBehind framing body.new (length piece.now) result.used result.place }
{
    let used = body.fill(piece);
    let place = match framing {
        Framing::Whole if used < piece.len() => Place::Failed(Rule::R2),
        Framing::SelfDelimited if body.came == body.limit => Place::Full,
        _ => Place::Filling,
    };
    Moved { place, used }
}
