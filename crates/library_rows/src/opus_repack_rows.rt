//! Packets that are joined and parted.
use opus_packet::{Packet, decode};
use opus_repack::{CatFault, Repacketizer};
use std::alloc::{AllocError, Global};
use std::test::Fail;

// Whether both packets have one TOC byte, shape, size and list of frames.
fn are_same(left: &Packet<'_>, right: &Packet<'_>) -> bool {
    left.toc() == right.toc()
        && left.shape() == right.shape()
        && left.size() == right.size()
        && left.count() == right.count()
        && have_same_frames(left, right)
}

fn have_same_frames(left: &Packet<'_>, right: &Packet<'_>) -> bool {
    let mut same = true;
    let mut others = right.frames();
    for frame in left.frames() {
        same = same && others.next() == Some(frame);
    }
    same
}

// Whether the frames `from` to `to - 1` are there, and are those of the packet `want` in its shape and size.
fn is_part(frames: &Repacketizer, from: usize, to: usize, want: &[u8]) -> Result<bool, Fail> {
    if from < to && to <= frames.count() {
        return Ok(are_same(&frames.part(from, to), &decode(want)?));
    }
    Ok(false)
}

// Packets that are joined, a part of their frames, and the packet that it is.
type Part = (&'static [&'static [u8]], usize, usize, &'static [u8]);

const THREE: &[&[u8]] = &[&[0xF8, 0xAA], &[0xF8, 0xBB], &[0xF8, 0xCC]];

const ONE: &[&[u8]] = &[&[0xFB, 3, 0xAA, 0xBB, 0xCC]];

const OF_TWO_LENGTHS: &[&[u8]] = &[&[0xFA, 2, 0xAA, 0xBB, 0xCC, 0xDD], &[0xF8]];

const PADDED: &[&[u8]] = &[&[0xFB, 0x41, 1, 0xAA, 0], &[0xF9, 0xBB, 0xCC]];

const TWO_STEREO: &[&[u8]] = &[&[0xFC, 0xBB], &[0xFC]];

const PARTS: &[Part] = &[
    (THREE, 0, 3, &[0xFB, 3, 0xAA, 0xBB, 0xCC]),
    (ONE, 0, 2, &[0xF9, 0xAA, 0xBB]),
    (ONE, 2, 3, &[0xF8, 0xCC]),
    (
        OF_TWO_LENGTHS,
        0,
        3,
        &[0xFB, 0x83, 2, 2, 0xAA, 0xBB, 0xCC, 0xDD],
    ),
    (OF_TWO_LENGTHS, 0, 2, &[0xF9, 0xAA, 0xBB, 0xCC, 0xDD]),
    (OF_TWO_LENGTHS, 1, 3, &[0xFA, 2, 0xCC, 0xDD]),
    (OF_TWO_LENGTHS, 2, 3, &[0xF8]),
    (PADDED, 0, 1, &[0xF8, 0xAA]),
    (PADDED, 0, 3, &[0xFB, 3, 0xAA, 0xBB, 0xCC]),
    (PADDED, 1, 3, &[0xF9, 0xBB, 0xCC]),
    (TWO_STEREO, 0, 2, &[0xFE, 1, 0xBB]),
];

fn is_parted(frames: &mut Repacketizer, row: &Part) -> Result<bool, Fail> {
    frames.clear();
    let mut joined = true;
    for packet in row.0 {
        joined = joined && frames.cat(&decode(packet)?) == Ok(());
    }
    Ok(joined && is_part(frames, row.1, row.2, row.3)?)
}

// A packet that is joined so many times, another one, what is said of it, and the packet of all frames then.
type Row = (
    &'static [u8],
    usize,
    &'static [u8],
    Result<(), CatFault>,
    &'static [u8],
);

const MONO: &[u8] = &[0xF8, 0xAA];

const STEREO: &[u8] = &[0xFC, 0xAA];

const WIDE: &[u8] = &[0xE8, 0xAA];

const PAIR: &[u8] = &[0xF9, 0xAA, 0xBB];

const TWO_PAIRS: &[u8] = &[0xFB, 4, 0xAA, 0xBB, 0xAA, 0xBB];

const LONG: &[u8] = &[0x18, 0xAA];

const TWO_LONG: &[u8] = &[0x19, 0xAA, 0xAA];

const SIX: &[u8] = &[0xFB, 6, 0xAA, 0xAA, 0xAA, 0xAA, 0xAA, 0xAA];

const UNEQUAL: &[u8] = &[0xFB, 0x86, 1, 1, 1, 1, 0, 0xAA, 0xBB, 0xAA, 0xBB];

const ROWS: &[Row] = &[
    (MONO, 0, STEREO, Ok(()), STEREO),
    (MONO, 1, STEREO, Err(CatFault::MixedKind), MONO),
    (STEREO, 1, MONO, Err(CatFault::MixedKind), STEREO),
    (MONO, 1, WIDE, Err(CatFault::MixedKind), MONO),
    (MONO, 5, MONO, Ok(()), SIX),
    (MONO, 6, MONO, Err(CatFault::TooLong), SIX),
    (MONO, 6, STEREO, Err(CatFault::MixedKind), SIX),
    (MONO, 6, WIDE, Err(CatFault::MixedKind), SIX),
    (SIX, 1, &[0xF8], Err(CatFault::TooLong), SIX),
    (PAIR, 2, &[0xF9], Ok(()), UNEQUAL),
    (PAIR, 2, &[0xFB, 3], Err(CatFault::TooLong), TWO_PAIRS),
    (LONG, 2, LONG, Err(CatFault::TooLong), TWO_LONG),
    (LONG, 2, &[0x10], Err(CatFault::MixedKind), TWO_LONG),
];

fn is_said(frames: &mut Repacketizer, row: &Row) -> Result<bool, Fail> {
    frames.clear();
    let packet = decode(row.0)?;
    let mut joined = true;
    for _ in 0..row.1 {
        joined = joined && frames.cat(&packet) == Ok(());
    }
    let said = frames.cat(&decode(row.2)?) == row.3;
    Ok(joined && said && is_part(frames, 0, frames.count(), row.4)?)
}

#[test]
fn frames_are_joined_and_parted(rt: HostRuntime) -> Result<(), Fail> {
    let mut frames = Repacketizer::new(rt.alloc())?;
    for row in PARTS {
        assert!(rt; is_parted(&mut frames, row)?, "{row:?}");
    }
    for row in ROWS {
        assert!(rt; is_said(&mut frames, row)?, "{row:?}");
    }
    Ok(())
}

// The first byte, a frame's samples at 48 kHz, and how many such frames last 120 ms.
const LONGEST: &[(u8, u32, u8)] = &[
    (0x80, 120, 48),
    (0x88, 240, 24),
    (0x90, 480, 12),
    (0xF8, 960, 6),
    (0x10, 1920, 3),
    (0x18, 2880, 2),
];

// Whether there are so many frames, which have so many samples each.
fn lasts(frames: &Repacketizer, count: u8, samples: u32) -> bool {
    frames.count() == usize::from(count)
        && frames.duration() == u32::from(count).saturating_mul(samples)
}

fn has_all(frames: &Repacketizer, most: u8) -> bool {
    let count = frames.count();
    count == usize::from(most)
        && frames.duration() == 5760
        && count > 0
        && frames.part(0, count).count() == count
}

fn is_filled(frames: &mut Repacketizer, row: &(u8, u32, u8)) -> Result<bool, Fail> {
    frames.clear();
    let bytes = [row.0, 0xAA];
    let packet = decode(&bytes)?;
    let mut filled = true;
    for count in 0..row.2 {
        filled = filled && lasts(frames, count, row.1) && frames.cat(&packet) == Ok(());
    }
    Ok(
        filled
            && lasts(frames, row.2, row.1)
            && frames.cat(&packet) == Err(CatFault::TooLong)
            && has_all(frames, row.2),
    )
}

// How many frames a part has at most, how many bytes each frame has at least, where frame i has 26 * i, and the size
// of all frames as one packet where it is told.
type Lengths = (u8, u16, Option<u32>);

const LENGTHS: &[Lengths] = &[
    (1, 0, None),
    (5, 0, None),
    (47, 0, None),
    (48, 0, None),
    (48, 1275, Some(61_202)),
];

// A packet of one frame: its number, and zeros.
fn numbered(alloc: Global, number: u8, least: u16) -> Result<Vec<u8>, AllocError> {
    let mut bytes = Vec::from_slice(alloc, &[0x80])?;
    let len = u16::from(number).saturating_mul(26).max(least);
    if len > 0 {
        bytes.push(number)?;
    }
    bytes.resize(usize::from(len).saturating_add(1), 0)?;
    Ok(bytes)
}

fn are_joined(alloc: Global, frames: &mut Repacketizer, least: u16) -> Result<bool, Fail> {
    frames.clear();
    let mut joined = true;
    for number in 0..48u8 {
        let bytes = numbered(alloc, number, least)?;
        joined = joined && frames.cat(&decode(&bytes)?) == Ok(());
    }
    Ok(joined)
}

// Whether the part has the frames `from` to `to - 1` and no other one.
fn has_frames(
    alloc: Global,
    part: &Packet<'_>,
    from: u8,
    to: u8,
    least: u16,
) -> Result<bool, AllocError> {
    let mut same = true;
    let mut frames = part.frames();
    for number in from..to {
        let bytes = numbered(alloc, number, least)?;
        same = same && frames.next() == bytes.get(1..);
    }
    Ok(same && frames.next().is_none())
}

fn comes_back(
    alloc: Global,
    frames: &Repacketizer,
    from: u8,
    to: u8,
    least: u16,
) -> Result<bool, AllocError> {
    if from < to && usize::from(to) <= frames.count() {
        let part = frames.part(usize::from(from), usize::from(to));
        return has_frames(alloc, &part, from, to, least);
    }
    Ok(false)
}

fn has_size(frames: &Repacketizer, size: u32) -> bool {
    frames.count() == 48 && frames.part(0, 48).size() == size
}

fn come_back(alloc: Global, frames: &mut Repacketizer, row: &Lengths) -> Result<bool, Fail> {
    let (step, least, size) = *row;
    let mut same = are_joined(alloc, frames, least)?;
    for from in 0..48u8 {
        if step > 0 && from % step == 0 {
            let to = from.saturating_add(step).min(48);
            same = same && comes_back(alloc, frames, from, to, least)?;
        }
    }
    Ok(same && size.is_none_or(|size| has_size(frames, size)))
}

#[test]
fn as_many_are_joined_as_last_120_milliseconds(rt: HostRuntime) -> Result<(), Fail> {
    let mut frames = Repacketizer::new(rt.alloc())?;
    for row in LONGEST {
        assert!(rt; is_filled(&mut frames, row)?, "{row:?}");
    }
    for row in LENGTHS {
        assert!(rt; come_back(rt.alloc(), &mut frames, row)?, "{row:?}");
    }
    Ok(())
}
