//! Arrivals in rows: numbers, repeats, what is certain, and the report.
use super::{Told, all_told};
use rtp_ends::Arrival::{New, Repeat};
use rtp_ends::{Arrival, Event, Receiver};
use std::alloc::Global;
use std::test::Fail;

// Arrivals: each a sequence number, of which the stamp is its place in the row, the answer, and how many events are out
// after it; and all events at the end.
type Row = (&'static [(u16, Arrival, usize)], &'static [Told]);

const ROWS: &[Row] = &[
    (
        &[
            (65534, New(65534), 0),
            (0, New(65536), 0),
            (65535, New(65535), 0),
            (0, Repeat(65536), 0),
            (2, New(65538), 0),
        ],
        &[
            Told::Packet(65534, 0),
            Told::Packet(65535, 2),
            Told::Packet(65536, 1),
            Told::Gap(65537, 1),
            Told::Packet(65538, 4),
        ],
    ),
    (
        &[(5, New(5), 0), (4, New(4), 0), (65535, New(-1), 0)],
        &[
            Told::Packet(-1, 2),
            Told::Gap(0, 4),
            Told::Packet(4, 1),
            Told::Packet(5, 0),
        ],
    ),
    (
        &[(0, New(0), 0), (32768, New(32768), 1)],
        &[
            Told::Packet(0, 0),
            Told::Gap(1, 32767),
            Told::Packet(32768, 1),
        ],
    ),
    (
        &[
            (0, New(0), 0),
            (1, New(1), 0),
            (32769, New(32769), 2),
            (32768, New(32768), 2),
            (1, New(65537), 5),
        ],
        &[
            Told::Packet(0, 0),
            Told::Packet(1, 1),
            Told::Gap(2, 32766),
            Told::Packet(32768, 3),
            Told::Packet(32769, 2),
            Told::Gap(32770, 32767),
            Told::Packet(65537, 4),
        ],
    ),
    // The farthest below: 32,767 before the first.
    (
        &[
            (0, New(0), 0),
            (32769, New(-32767), 0),
            (1, New(1), 1),
            (32769, New(32769), 4),
        ],
        &[
            Told::Packet(-32767, 1),
            Told::Gap(-32766, 32766),
            Told::Packet(0, 0),
            Told::Packet(1, 2),
            Told::Gap(2, 32767),
            Told::Packet(32769, 3),
        ],
    ),
    (
        &[(7, New(7), 0), (7, Repeat(7), 0), (7, Repeat(7), 0)],
        &[Told::Packet(7, 0)],
    ),
    (&[], &[]),
];

// The answer to an arrival, or none where a thousand came.
fn answer(
    receiver: &mut Receiver,
    seq: u16,
    stamp: u32,
    out: &mut Vec<Event>,
) -> Result<Option<Arrival>, Fail> {
    if receiver.arrivals() >= 1000 {
        return Ok(None);
    }
    let payload = [(stamp % 256) as u8];
    Ok(Some(receiver.arrive(seq, stamp, &payload, out)?))
}

fn are_answered(receiver: &mut Receiver, row: &Row, out: &mut Vec<Event>) -> Result<bool, Fail> {
    let mut right = true;
    for (stamp, arrival) in (0..1000u32).zip(row.0) {
        let answer = answer(receiver, arrival.0, stamp, out)?;
        right &= answer == Some(arrival.1) && out.len() == arrival.2;
    }
    Ok(right && receiver.arrivals() == row.0.len() as u64)
}

fn is_told(alloc: Global, receiver: &mut Receiver, row: &Row) -> Result<bool, Fail> {
    let mut out = Vec::new(alloc);
    let right = are_answered(receiver, row, &mut out)?;
    receiver.close(&mut out)?;
    let all = all_told(alloc, &out)?;
    Ok(right && all.as_slice() == row.1 && (receiver.arrivals(), receiver.held()) == (0, 0))
}

#[test]
fn arrivals_are_told_in_order(rt: HostRuntime) -> Result<(), Fail> {
    let mut receiver = Receiver::new(rt.alloc())?;
    for row in ROWS {
        assert!(rt; is_told(rt.alloc(), &mut receiver, row)?, "{row:?}");
    }
    Ok(())
}

// Lets a sequence number arrive twice. What is held then: all but what is out, and repeats once.
fn is_held(receiver: &mut Receiver, seq: u16, out: &mut Vec<Event>) -> Result<bool, Fail> {
    for _ in 0..2 {
        if receiver.arrivals() < 200_000 {
            receiver.arrive(seq, u32::from(seq), &[(seq % 256) as u8], out)?;
        }
    }
    let number = usize::from(seq);
    let gone = number.saturating_sub(32_767);
    Ok((receiver.held(), out.len()) == (number.saturating_sub(gone).saturating_add(1), gone))
}

// Whether the events are one packet for each sequence number.
fn are_all_packets(alloc: Global, events: &[Event]) -> Result<bool, Fail> {
    let expected = (0..65_536).map(|number| Told::Packet(i64::from(number), number));
    Ok(all_told(alloc, events)?.into_iter().eq(expected))
}

#[test]
fn a_full_window_is_held(rt: HostRuntime) -> Result<(), Fail> {
    let mut receiver = Receiver::new(rt.alloc())?;
    let mut out = Vec::new(rt.alloc());
    for seq in 0..=u16::MAX {
        assert!(rt; is_held(&mut receiver, seq, &mut out)?, "{seq}");
    }
    receiver.close(&mut out)?;
    assert!(rt; are_all_packets(rt.alloc(), &out)?);
    Ok(())
}
