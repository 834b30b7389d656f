//! The caller that makes events of datagrams: datagrams of one stream, a repeat and a gap among them.
use example_gateway::Gateway;
use rtp_ends::Event;
use std::alloc::Global;
use std::test::Fail;

// Version 2, payload type 111, sequence number 1, timestamp 0, SSRC 1, and a packet of two bytes.
const FIRST: &[u8] = &[0x80, 0x6F, 0, 1, 0, 0, 0, 0, 0, 0, 0, 1, 0xF8, 0xAA];

// Sequence number 3, timestamp 1,920, and two padding bytes.
const THIRD: &[u8] = &[
    0xA0, 0x6F, 0, 3, 0, 0, 7, 0x80, 0, 0, 0, 1, 0xF8, 0xBB, 0, 2,
];

const VERSION_1: &[u8] = &[0x40, 0x6F, 0, 2, 0, 0, 3, 0xC0, 0, 0, 0, 1, 0xF8, 0xCC];

// A byte less than a header has.
const SHORT: &[u8] = &[0x80, 0x6F, 0, 1, 0, 0, 0, 0, 0, 0, 0];

// A datagram, and what is answered.
const ROWS: &[(&[u8], &str)] = &[
    (THIRD, "Ok(New(3))"),
    (VERSION_1, "Err(NotRtp(Version))"),
    (FIRST, "Ok(New(1))"),
    (SHORT, "Err(NotRtp(Short))"),
    (THIRD, "Ok(Repeat(3))"),
];

// A packet's number, timestamp and payload; or a gap's first number and count.
const EVENTS: &[(i64, u64, Option<&[u8]>)] = &[
    (1, 0, Some(&[0xF8, 0xAA])),
    (2, 1, None),
    (3, 1920, Some(&[0xF8, 0xBB])),
];

// Whether the datagram is answered so, and no event is given out.
fn is_answered(
    alloc: Global,
    gateway: &mut Gateway,
    row: &(&[u8], &str),
    events: &mut Vec<Event>,
) -> Result<bool, Fail> {
    let answer = gateway.take(row.0, events);
    let text = format!(in alloc; "{answer:?}")?;
    Ok(text.as_str() == row.1 && events.is_empty())
}

fn is_event(event: &Event, row: &(i64, u64, Option<&[u8]>)) -> bool {
    match event {
        Event::Packet {
            number,
            stamp,
            payload,
        } => { (*number, u64::from(*stamp)) == (row.0, row.1) && Some(payload.as_slice()) == row.2 }
        Event::Gap { first, count } => (*first, *count) == (row.0, row.1) && row.2.is_none(),
    }
}

#[test]
fn datagrams_become_events_in_order(rt: HostRuntime) -> Result<(), Fail> {
    let mut gateway = Gateway::new(rt.alloc())?;
    let mut events = Vec::new(rt.alloc());
    for row in ROWS {
        assert!(rt;
            is_answered(rt.alloc(), &mut gateway, row, &mut events)?,
            "{row:?}"
        );
    }
    gateway.close(&mut events)?;
    let same = events.len() == EVENTS.len();
    assert!(rt;
        same && events
            .iter()
            .zip(EVENTS)
            .all(|(event, row)| is_event(event, row))
    );
    Ok(())
}
