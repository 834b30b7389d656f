//! Multistream packets in pieces, with their answers.
use crate::opus_multi_rows::{Answer, ROWS, result_of};
use opus_feed::Padding;
use opus_multi::{MultiFault, MultiFeed, Part, decode_multi, write_multi};
use opus_packet::{Rule, Tail};
use std::alloc::Global;
use std::test::Fail;

// What is said of bytes: how many streams there are, and a sum over all that is said of them; or the fault.
type Said = Result<(usize, u64), MultiFault>;

fn add(sum: u64, number: u64) -> u64 {
    sum.wrapping_mul(31).wrapping_add(number)
}

// A stream's size, padding total and dropped padding bytes, and its frames' and kept padding bytes.
fn add_stream(sum: u64, numbers: [u64; 3], body: &[u8], tail: &[u8]) -> u64 {
    let mut sum = sum;
    for number in numbers {
        sum = add(sum, number);
    }
    for bytes in [body, tail] {
        sum = add(sum, bytes.len() as u64);
        for byte in bytes {
            sum = add(sum, u64::from(*byte));
        }
    }
    sum
}

// What is kept of padding bytes, and how many aren't.
fn kept(padding: Padding, tail: Tail<'_>) -> (&[u8], u64) {
    match (padding, tail) {
        (Padding::Keep, Tail::Bytes(bytes)) => (bytes, 0),
        (Padding::Drop, Tail::Bytes(bytes)) => (&[], bytes.len() as u64),
        (_, Tail::Dropped(count)) => (&[], u64::from(count)),
    }
}

// What `decode_multi` says, with the padding bytes that are kept by this choice.
fn whole(alloc: Global, bytes: &[u8], streams: u8, padding: Padding) -> Said {
    if streams == 0 {
        return Ok((0, 0));
    }
    let multi = decode_multi(alloc, bytes, streams)?;
    let mut sum = 0;
    for k in 0..multi.count() {
        let packet = multi.stream(k);
        let (tail, dropped) = kept(padding, packet.tail());
        let numbers = [
            u64::from(packet.size()),
            u64::from(packet.shape().pad),
            dropped,
        ];
        sum = add_stream(sum, numbers, packet.body(), tail);
    }
    Ok((multi.count(), sum))
}

fn of_parts(parts: &[Part]) -> (usize, u64) {
    let mut sum = 0;
    for part in parts {
        let packet = part.held.view();
        let (tail, _) = kept(Padding::Keep, packet.tail());
        let numbers = [
            u64::from(part.size),
            u64::from(part.shape.pad),
            u64::from(part.dropped),
        ];
        sum = add_stream(sum, numbers, packet.body(), tail);
    }
    (parts.len(), sum)
}

// What a feed says at the end.
fn ended(feed: &mut MultiFeed) -> Said {
    feed.finish()?;
    Ok(of_parts(feed.parts()))
}

// What a feed says of the bytes in two pieces.
fn cut(feed: &mut MultiFeed, first: &[u8], rest: &[u8]) -> Said {
    feed.reset();
    let _ = feed.feed(first);
    let _ = feed.feed(rest);
    ended(feed)
}

// What a feed says of the bytes in pieces of `step` bytes.
fn stepped(feed: &mut MultiFeed, bytes: &[u8], step: usize) -> Said {
    feed.reset();
    let mut rest = bytes;
    for _ in 0..bytes.len() {
        if step < rest.len() {
            let _ = feed.feed(&rest[..step]);
            rest = &rest[step..];
        }
    }
    let _ = feed.feed(rest);
    ended(feed)
}

// Whether each cut of the bytes gives what `decode_multi` says.
fn each_cut_agrees(alloc: Global, bytes: &[u8], streams: u8) -> Result<bool, Fail> {
    if streams == 0 {
        return Ok(false);
    }
    let mut agrees = true;
    for padding in [Padding::Drop, Padding::Keep] {
        let mut feed = MultiFeed::new(alloc, streams, padding)?;
        let want = whole(alloc, bytes, streams, padding);
        for step in [1, 3, 1000] {
            agrees &= stepped(&mut feed, bytes, step) == want;
        }
        for at in 0..bytes.len() {
            agrees &= cut(&mut feed, &bytes[..at], &bytes[at..]) == want;
        }
    }
    Ok(agrees)
}

#[test]
fn each_cut_says_what_decode_multi_says(rt: HostRuntime) -> Result<(), Fail> {
    for row in ROWS {
        assert!(rt; each_cut_agrees(rt.alloc(), row.0, row.1)?, "{row:?}");
    }
    Ok(())
}

/// What is done with a feed, and what is said then.
#[derive(Clone, Copy, Debug)]
enum Call {
    Reset,
    Feed(&'static [u8], Answer),
    Finish(Answer),
    Parts(usize),
}

// How many streams there are, the choice of padding, and calls one after the other.
type Script = (u8, Padding, &'static [Call]);

const SCRIPTS: &[Script] = &[
    // Each front of a packet has its fault.
    (
        2,
        Padding::Drop,
        &[
            Call::Reset,
            Call::Feed(&[], Answer::Reads),
            Call::Parts(0),
            Call::Finish(Answer::Broken(0, Rule::Cut, 0)),
            Call::Reset,
            Call::Feed(&[0xF8], Answer::Reads),
            Call::Parts(0),
            Call::Finish(Answer::Broken(0, Rule::Cut, 1)),
            Call::Reset,
            Call::Feed(&[0xF8, 1], Answer::Reads),
            Call::Parts(0),
            Call::Finish(Answer::Broken(0, Rule::Cut, 2)),
            Call::Reset,
            Call::Feed(&[0xF8, 1, 0xAA], Answer::Reads),
            Call::Parts(1),
            Call::Finish(Answer::Broken(1, Rule::R1, 0)),
            Call::Reset,
            Call::Feed(&[0xF8, 1, 0xAA, 0xF8], Answer::Reads),
            Call::Parts(1),
            Call::Finish(Answer::Reads),
            Call::Reset,
            Call::Feed(&[0xF8, 1, 0xAA, 0xF8, 0xBB], Answer::Reads),
            Call::Parts(1),
            Call::Finish(Answer::Reads),
        ],
    ),
    // The byte after which no continuation reads is refused, and so is all behind it.
    (
        3,
        Padding::Keep,
        &[
            Call::Reset,
            Call::Feed(&[0xFB], Answer::Reads),
            Call::Feed(&[], Answer::Reads),
            Call::Feed(&[0], Answer::Broken(0, Rule::R5, 1)),
            Call::Feed(&[0xF8], Answer::Broken(0, Rule::R5, 1)),
            Call::Finish(Answer::Broken(0, Rule::R5, 1)),
            Call::Finish(Answer::Broken(0, Rule::R5, 1)),
            Call::Reset,
            Call::Feed(&[0xF8, 1, 0xAA, 0xFB], Answer::Reads),
            Call::Feed(&[], Answer::Reads),
            Call::Feed(&[7], Answer::Broken(1, Rule::R5, 1)),
            Call::Feed(&[0xF8], Answer::Broken(1, Rule::R5, 1)),
            Call::Finish(Answer::Broken(1, Rule::R5, 1)),
            Call::Finish(Answer::Broken(1, Rule::R5, 1)),
            Call::Reset,
            Call::Feed(&[0xF8, 0, 0xF0, 0, 0xFB], Answer::Reads),
            Call::Feed(&[], Answer::Reads),
            Call::Feed(&[0], Answer::Broken(2, Rule::R5, 1)),
            Call::Feed(&[0xF8], Answer::Broken(2, Rule::R5, 1)),
            Call::Finish(Answer::Broken(2, Rule::R5, 1)),
            Call::Finish(Answer::Broken(2, Rule::R5, 1)),
            Call::Reset,
            Call::Feed(&[0xF8, 0, 0xF0, 0, 0x83], Answer::Reads),
            Call::Feed(&[], Answer::Reads),
            Call::Feed(&[0x31], Answer::Broken(2, Rule::R5, 1)),
            Call::Feed(&[0xF8], Answer::Broken(2, Rule::R5, 1)),
            Call::Finish(Answer::Broken(2, Rule::R5, 1)),
            Call::Finish(Answer::Broken(2, Rule::R5, 1)),
            Call::Reset,
            Call::Parts(0),
            Call::Feed(&[0xF8, 0, 0xF8, 0, 0xF8], Answer::Reads),
            Call::Parts(2),
            Call::Finish(Answer::Reads),
            Call::Parts(3),
            Call::Feed(&[0xFB, 0], Answer::Reads),
            Call::Finish(Answer::Reads),
            Call::Parts(3),
        ],
    ),
    // A frame of 1,276 bytes in the last stream is one byte too long.
    (
        2,
        Padding::Drop,
        &[
            Call::Feed(&[0xF8, 0, 0xF8], Answer::Reads),
            Call::Feed(&[7; 1275], Answer::Reads),
            Call::Feed(&[9], Answer::Broken(1, Rule::R2, 1276)),
        ],
    ),
    // Which stream lasts 10 ms, and not 20 ms as stream 0, is told at the end. Where the last stream doesn't read, this
    // is told, and not that stream 1 lasts otherwise.
    (
        4,
        Padding::Drop,
        &[
            Call::Reset,
            Call::Feed(&[0xF8, 0, 0xF0, 0, 0xF8, 0, 0xF8], Answer::Reads),
            Call::Finish(Answer::Unequal(1)),
            Call::Parts(3),
            Call::Feed(&[0xF8], Answer::Unequal(1)),
            Call::Finish(Answer::Unequal(1)),
            Call::Reset,
            Call::Feed(&[0xF8, 0, 0xF8, 0, 0xF0, 0, 0xF8], Answer::Reads),
            Call::Finish(Answer::Unequal(2)),
            Call::Parts(3),
            Call::Feed(&[0xF8], Answer::Unequal(2)),
            Call::Finish(Answer::Unequal(2)),
            Call::Reset,
            Call::Feed(&[0xF8, 0, 0xF8, 0, 0xF8, 0, 0xF0], Answer::Reads),
            Call::Finish(Answer::Unequal(3)),
            Call::Parts(3),
            Call::Feed(&[0xF8], Answer::Unequal(3)),
            Call::Finish(Answer::Unequal(3)),
            Call::Reset,
            Call::Feed(&[0xF8, 0, 0xF0, 0, 0xF8, 0, 0xF9, 0xAA], Answer::Reads),
            Call::Finish(Answer::Broken(3, Rule::R3, 2)),
        ],
    ),
];

fn is_done(feed: &mut MultiFeed, call: Call) -> bool {
    match call {
        Call::Reset => {
            feed.reset();
            true
        }
        Call::Feed(piece, answer) => feed.feed(piece).err() == result_of(0, answer).err(),
        Call::Finish(answer) => feed.finish().err() == result_of(0, answer).err(),
        Call::Parts(count) => feed.parts().len() == count,
    }
}

fn is_followed(alloc: Global, script: &Script) -> Result<bool, Fail> {
    if script.0 == 0 {
        return Ok(false);
    }
    let mut feed = MultiFeed::new(alloc, script.0, script.1)?;
    let mut followed = true;
    for call in script.2 {
        followed &= is_done(&mut feed, *call);
    }
    Ok(followed)
}

#[test]
fn calls_have_their_answers(rt: HostRuntime) -> Result<(), Fail> {
    for script in SCRIPTS {
        assert!(rt; is_followed(rt.alloc(), script)?, "{script:?}");
    }
    Ok(())
}

// Padding bytes kept and dropped, of each part.
fn tails(feed: &MultiFeed) -> [(usize, u32); 3] {
    let mut found = [(0, 0); 3];
    for (k, part) in feed.parts().iter().enumerate() {
        let packet = part.held.view();
        let (tail, _) = kept(Padding::Keep, packet.tail());
        if let Some(place) = found.get_mut(k) {
            *place = (tail.len(), part.dropped);
        }
    }
    found
}

// The choice of padding, the last byte of the padding length, the padding bytes, and how many of them are kept and
// dropped. The second of three streams has them. The last has one, of which this is kept and dropped.
type Padded = (Padding, u8, usize, (usize, u32), (usize, u32));

const PADDINGS: &[Padded] = &[
    (Padding::Keep, 3, 65_535, (65_535, 0), (1, 0)),
    (Padding::Keep, 4, 65_536, (0, 65_536), (1, 0)),
    (Padding::Drop, 3, 65_535, (0, 65_535), (0, 1)),
    (Padding::Drop, 4, 65_536, (0, 65_536), (0, 1)),
];

fn padded(alloc: Global, last: u8, count: usize) -> Result<Vec<u8>, Fail> {
    let mut bytes = Vec::from_slice(alloc, &[0xF8, 1, 0xAA, 0xFB, 0x41])?;
    bytes.resize(5 + 258, 255)?;
    bytes.extend_from_slice(&[last, 1, 0xBB])?;
    for _ in 0..count {
        bytes.push(7)?;
    }
    bytes.extend_from_slice(&[0xFB, 0x41, 1, 0xCC, 9])?;
    Ok(bytes)
}

fn is_kept(alloc: Global, row: &Padded) -> Result<bool, Fail> {
    let bytes = padded(alloc, row.1, row.2)?;
    let want = whole(alloc, &bytes, 3, row.0);
    let mut feed = MultiFeed::new(alloc, 3, row.0)?;
    let mut agrees = true;
    for step in [1000, 100_000] {
        agrees &= stepped(&mut feed, &bytes, step) == want;
        agrees &= tails(&feed) == [(0, 0), row.3, row.4];
    }
    Ok(agrees)
}

#[test]
fn padding_is_kept_or_dropped_by_the_choice(rt: HostRuntime) -> Result<(), Fail> {
    for row in PADDINGS {
        assert!(rt; is_kept(rt.alloc(), row)?, "{row:?}");
    }
    Ok(())
}

// Bytes of two streams, and their canonical form.
const FORMS: &[(&[u8], &[u8])] = &[
    (
        &[0xFB, 0x41, 1, 1, 0xAA, 0, 0xFB, 1, 0xBB],
        &[0xF8, 1, 0xAA, 0xF8, 0xBB],
    ),
    (&[0xF8, 1, 0xAA, 0xF8], &[0xF8, 1, 0xAA, 0xF8]),
];

fn is_fed(feed: &mut MultiFeed, pieces: &[&[u8]]) -> bool {
    let mut fed = true;
    for piece in pieces {
        fed &= feed.feed(piece) == Ok(());
    }
    fed
}

fn is_written(alloc: Global, feed: &mut MultiFeed, row: &(&[u8], &[u8])) -> Result<bool, Fail> {
    feed.reset();
    let mut fed = true;
    for byte in row.0 {
        fed &= is_fed(feed, &[&[*byte]]);
    }
    let mut out = Vec::new(alloc);
    match feed.finish() {
        Ok(()) => write_multi(feed.parts(), &mut out)?,
        Err(_) => return Ok(false),
    }
    Ok(fed && out.as_slice() == row.1)
}

fn are_255_parts(parts: &[Part]) -> bool {
    let mut size: u64 = 0;
    let mut same = true;
    for part in parts {
        same &= part.held.view().body() == [0xAA].as_slice();
        size = size.wrapping_add(u64::from(part.size));
    }
    same && parts.len() == 255 && size == 254 * 3 + 2
}

fn reads_255_streams(alloc: Global) -> Result<bool, Fail> {
    let mut feed = MultiFeed::new(alloc, 255, Padding::Keep)?;
    let mut fed = true;
    for _ in 0..254 {
        fed &= is_fed(&mut feed, &[&[0xF8, 1], &[0xAA]]);
    }
    fed &= is_fed(&mut feed, &[&[0xF8, 0xAA]]) && feed.parts().len() == 254;
    Ok(fed && feed.finish() == Ok(()) && are_255_parts(feed.parts()))
}

#[test]
fn what_came_in_pieces_is_written(rt: HostRuntime) -> Result<(), Fail> {
    let mut feed = MultiFeed::new(rt.alloc(), 2, Padding::Drop)?;
    for row in FORMS {
        assert!(rt; is_written(rt.alloc(), &mut feed, row)?, "{row:?}");
    }
    assert!(rt; reads_255_streams(rt.alloc())?);
    Ok(())
}
