//! Records sent, arrivals in rows, and many generated arrivals.

mod arrivals;
mod generated;
mod sends;

use rtp_ends::Event;
use std::alloc::Global;
use std::test::Fail;

/// What an event tells, with the stamp of a packet.
#[derive(Clone, Copy, Debug, PartialEq, Eq)]
enum Told {
    Packet(i64, u32),
    Gap(i64, u64),
}

// What events tell. Each payload must be the lowest byte of its packet's stamp.
fn all_told(alloc: Global, events: &[Event]) -> Result<Vec<Told>, Fail> {
    let mut all = Vec::new(alloc);
    for event in events {
        match event {
            Event::Packet {
                number,
                stamp,
                payload,
            } => {
                let same = payload.as_slice() == &[(*stamp % 256) as u8][..];
                all.push(Told::Packet(if same { *number } else { i64::MIN }, *stamp))?;
            }
            Event::Gap { first, count } => all.push(Told::Gap(*first, *count))?,
        }
    }
    Ok(all)
}
