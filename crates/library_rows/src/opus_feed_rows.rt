//! Packets and faults in pieces of every size, beside what `decode` and `decode_self` say of them whole.
use crate::table::bytes_of;
use opus_feed::{Feed, Framing, Padding, Step};
use opus_packet::{Fault, Packet, Tail, decode};
use opus_self::decode_self;
use std::alloc::Global;
use std::test::Fail;

// What is said of a packet: size, number of frames, padding total, bytes of all frames and their sum.
fn said(alloc: Global, packet: &Packet<'_>) -> Result<String, Fail> {
    let body = packet.body();
    let mut sum: u64 = 0;
    for byte in body {
        sum = sum.wrapping_mul(31).wrapping_add(u64::from(*byte));
    }
    let (size, frames, pad) = (packet.size(), packet.count(), packet.shape().pad);
    let length = body.len();
    Ok(format!(in alloc; "{size} {frames} {pad} {length} {sum}")?)
}

fn fault_of(alloc: Global, fault: Fault) -> Result<String, Fail> {
    Ok(format!(in alloc; "{fault:?}")?)
}

// What `decode` or `decode_self` says.
fn whole(alloc: Global, framing: Framing, bytes: &[u8]) -> Result<String, Fail> {
    match framing {
        Framing::Whole => match decode(bytes) {
            Ok(packet) => said(alloc, &packet),
            Err(fault) => fault_of(alloc, fault),
        },
        Framing::SelfDelimited => match decode_self(bytes) {
            Ok(read) => said(alloc, &read.packet),
            Err(fault) => fault_of(alloc, fault),
        },
    }
}

// What a feed says at the end.
fn ended(alloc: Global, feed: &mut Feed) -> Result<String, Fail> {
    match feed.finish() {
        Ok(()) => said(alloc, &feed.packet()),
        Err(fault) => fault_of(alloc, fault),
    }
}

// What a feed says of the bytes in two pieces.
fn cut(
    alloc: Global,
    feed: &mut Feed,
    framing: Framing,
    first: &[u8],
    rest: &[u8],
) -> Result<String, Fail> {
    feed.reset(framing);
    let _ = feed.feed(first);
    let _ = feed.feed(rest);
    ended(alloc, feed)
}

// What a feed says of the bytes in pieces of `step` bytes.
fn stepped(
    alloc: Global,
    feed: &mut Feed,
    framing: Framing,
    bytes: &[u8],
    step: usize,
) -> Result<String, Fail> {
    feed.reset(framing);
    let mut rest = bytes;
    for _ in 0..bytes.len() {
        if step < rest.len() {
            let _ = feed.feed(&rest[..step]);
            rest = &rest[step..];
        }
    }
    let _ = feed.feed(rest);
    ended(alloc, feed)
}

// The first bytes, and bytes from 0 on behind them.
fn filled(alloc: Global, front: &[u8], more: usize) -> Result<Vec<u8>, Fail> {
    let mut bytes = Vec::from_slice(alloc, front)?;
    for k in 0..more {
        bytes.push((k % 251) as u8)?;
    }
    Ok(bytes)
}

// The same of a text such as `FB 07 + 3`.
fn bytes_in(alloc: Global, text: &str) -> Result<Vec<u8>, Fail> {
    let (front, more) = text.split_once(" + ").ok_or("how many more is missing")?;
    filled(alloc, &bytes_of(alloc, front)?, more.parse()?)
}

// The first bytes, and how many more there are.
const ROWS: &str = "\
08 + 0
 + 0
F8 + 1275
F8 + 1276
F8 02 AA BB F8 00 + 0
F9 + 2550
F9 AA BB CC + 0
FA + 0
FA FC + 0
FA 02 AA BB CC DD + 0
FA FF FF + 2550
FA FF FF + 2551
FB + 0
FB 00 + 3
FB 07 + 3
FB 06 + 6
FB 41 01 02 AA BB 00 + 0
FB 41 FF 00 AA + 254
FB 42 05 01 AA BB 01 02 03 04 + 0
FB C2 02 01 AA BB 00 00 + 0
FB C3 03 FC 01 FE 00 02 AA BB + 511
FB 83 FC 00 01 07 + 262
83 B0 + 47
FB 81 AA + 0
";

const STEPS: &[usize] = &[1, 2, 3, 7, 1000];

// Whether each cut of the bytes gives what is said of them whole.
fn each_cut_agrees(
    alloc: Global,
    feed: &mut Feed,
    framing: Framing,
    bytes: &[u8],
) -> Result<bool, Fail> {
    let want = whole(alloc, framing, bytes)?;
    let mut agrees = true;
    for step in STEPS {
        agrees &= stepped(alloc, feed, framing, bytes, *step)?.as_str() == want.as_str();
    }
    for at in 0..bytes.len() {
        let told = cut(alloc, feed, framing, &bytes[..at], &bytes[at..])?;
        agrees &= told.as_str() == want.as_str();
    }
    Ok(agrees)
}

const CHOICES: &[(Framing, Padding)] = &[
    (Framing::Whole, Padding::Drop),
    (Framing::Whole, Padding::Keep),
    (Framing::SelfDelimited, Padding::Drop),
    (Framing::SelfDelimited, Padding::Keep),
];

// Whether each cut of each row agrees, in one feed.
fn is_said(alloc: Global, feed: &mut Feed, framing: Framing, row: &str) -> Result<bool, Fail> {
    each_cut_agrees(alloc, feed, framing, &bytes_in(alloc, row)?)
}

#[test]
fn each_cut_says_what_decode_says(rt: HostRuntime) -> Result<(), Fail> {
    for choice in CHOICES {
        let mut feed = Feed::new(rt.alloc(), choice.0, choice.1)?;
        for row in ROWS.lines() {
            assert!(rt;
                is_said(rt.alloc(), &mut feed, choice.0, row)?,
                "{row} {choice:?}"
            );
        }
    }
    Ok(())
}

// What is done with a feed, and what is said then. The very byte is refused that is too many, and none behind a packet
// is taken.
const CALLS: &str = "\
feed F8 + 1275 = More
feed  + 0 = More
feed 09 + 0 = Refused(Fault { rule: R2, place: 1276 })
feed 09 + 0 = Refused(Fault { rule: R2, place: 1276 })
finish = Err(Fault { rule: R2, place: 1276 })
len = 1276
reset = SelfDelimited
feed F8 02 AA + 0 = More
feed BB F8 00 + 0 = Done(1)
feed BB + 0 = Done(0)
finish = Ok(())
len = 4
";

// What a call says.
fn answer(alloc: Global, feed: &mut Feed, call: &str) -> Result<String, Fail> {
    match call {
        "reset" => {
            let framing = Framing::SelfDelimited;
            feed.reset(framing);
            Ok(format!(in alloc; "{framing:?}")?)
        }
        "finish" => {
            let said = feed.finish();
            Ok(format!(in alloc; "{said:?}")?)
        }
        "len" => Ok(format!(in alloc; "{}", feed.len())?),
        _ => {
            let piece = call.strip_prefix("feed ").ok_or("no such call")?;
            let step = feed.feed(&bytes_in(alloc, piece)?);
            Ok(format!(in alloc; "{step:?}")?)
        }
    }
}

fn is_done(alloc: Global, feed: &mut Feed, row: &str) -> Result<bool, Fail> {
    let (call, want) = row.split_once(" = ").ok_or("a row has two parts")?;
    Ok(answer(alloc, feed, call)?.as_str() == want)
}

#[test]
fn calls_have_their_answers(rt: HostRuntime) -> Result<(), Fail> {
    let mut feed = Feed::new(rt.alloc(), Framing::Whole, Padding::Drop)?;
    for row in CALLS.lines() {
        assert!(rt; is_done(rt.alloc(), &mut feed, row)?, "{row}");
    }
    Ok(())
}

// The bytes 255 of a padding length, its last byte and how many padding bytes it tells; how many are dropped and kept.
const PADDINGS: &str = "\
0 0 0 = 0 0
0 1 1 = 0 1
258 3 65535 = 0 65535
258 4 65536 = 65536 0
";

fn padded(alloc: Global, text: &str) -> Result<Vec<u8>, Fail> {
    let mut words = text.split(' ');
    let full = words.next().ok_or("a count is missing")?.parse::<usize>()?;
    let last = words.next().ok_or("a last byte is missing")?.parse::<u8>()?;
    let padding = words.next().ok_or("a total is missing")?.parse::<usize>()?;
    let mut bytes = Vec::from_slice(alloc, &[0xFB, 0x41])?;
    bytes.resize(full.saturating_add(2), 255)?;
    bytes.extend_from_slice(&[last, 0xAA])?;
    bytes.resize(bytes.len().saturating_add(padding), 7)?;
    Ok(bytes)
}

// How many padding bytes of a packet are dropped, and how many are kept.
fn tail(alloc: Global, packet: &Packet<'_>) -> Result<String, Fail> {
    match packet.tail() {
        Tail::Bytes(bytes) => Ok(format!(in alloc; "0 {}", bytes.len())?),
        Tail::Dropped(count) => Ok(format!(in alloc; "{count} 0")?),
    }
}

fn has_tail(alloc: Global, feed: &Feed, want: &str) -> Result<bool, Fail> {
    if !feed.is_done() {
        return Ok(false);
    }
    let packet = feed.packet();
    let told = tail(alloc, &packet)?;
    Ok(told.as_str() == want && packet.body() == [0xAA].as_slice())
}

fn is_kept(alloc: Global, feed: &mut Feed, row: &str) -> Result<bool, Fail> {
    let (text, want) = row.split_once(" = ").ok_or("a row has two parts")?;
    feed.reset(Framing::Whole);
    let more = matches!(feed.feed(&padded(alloc, text)?), Step::More);
    Ok(more && feed.finish().is_ok() && has_tail(alloc, feed, want)?)
}

#[test]
fn a_tail_of_65535_bytes_is_kept(rt: HostRuntime) -> Result<(), Fail> {
    let mut feed = Feed::new(rt.alloc(), Framing::Whole, Padding::Keep)?;
    for row in PADDINGS.lines() {
        assert!(rt; is_kept(rt.alloc(), &mut feed, row)?, "{row}");
    }
    Ok(())
}

// Feeds a piece so often. Whether more is wanted after each, and the most bytes that are held.
fn fed(feed: &mut Feed, piece: &[u8], times: u32) -> (bool, usize) {
    let (mut more, mut most) = (true, 0);
    for _ in 0..times {
        more &= matches!(feed.feed(piece), Step::More);
        most = feed.held().max(most);
    }
    (more, most)
}

fn the_longest_padding_needs_little_memory(alloc: Global) -> Result<bool, Fail> {
    let mut feed = Feed::new(alloc, Framing::Whole, Padding::Drop)?;
    let length = fed(&mut feed, &[0xFB, 0x41], 1).0
        && fed(&mut feed, &[255; 1000], 65).0
        && fed(&mut feed, &[255; 792], 1).0
        && fed(&mut feed, &[254, 0xAA], 1).0;
    let (zeros, most) = fed(&mut feed, &[0; 1000], 16_711);
    let rest = fed(&mut feed, &[0; 422], 1).0;
    let read = length && zeros && rest && feed.finish().is_ok();
    Ok(read && feed.len() == 16_777_218 && most == 1275)
}

fn holds_48_frames_of_1275_bytes(alloc: Global) -> Result<bool, Fail> {
    let framing = Framing::SelfDelimited;
    let mut feed = Feed::new(alloc, framing, Padding::Drop)?;
    let bytes = filled(alloc, &[0x83, 0x30, 255, 255], 61_200)?;
    let told = stepped(alloc, &mut feed, framing, &bytes, 1000)?;
    let want = whole(alloc, framing, &bytes)?;
    Ok(told.as_str() == want.as_str() && feed.held() == 61_200)
}

#[test]
fn the_longest_packets_are_read(rt: HostRuntime) -> Result<(), Fail> {
    assert!(rt; the_longest_padding_needs_little_memory(rt.alloc())?);
    assert!(rt; holds_48_frames_of_1275_bytes(rt.alloc())?);
    Ok(())
}
