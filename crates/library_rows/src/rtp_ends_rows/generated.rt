//! Generated arrivals, compared with a plain program over an ordered map.
use super::{Told, all_told};
use rtp_ends::{Arrival, Event, Receiver};
use std::alloc::Global;
use std::collections::BTreeMap;
use std::test::Fail;

// The plain program adds this to each number, so that none is below 0.
const BASE: u32 = 1 << 30;

/// The stamp of the first arrival of each number, and the greatest number.
#[derive(Drop)]
struct Plain {
    stamps: BTreeMap<u32, u32>,
    greatest: u32,
}

impl Plain {
    // The number of a sequence number: the first one of its kind from 32,767 below the greatest on.
    fn number(&self, seq: u16) -> u32 {
        if self.stamps.is_empty() {
            return BASE.wrapping_add(u32::from(seq));
        }
        let least = self.greatest.wrapping_sub(32_767);
        least.wrapping_add(u32::from(seq).wrapping_sub(least) % 65_536)
    }

    // Takes an arrival, and gives the answer to it.
    fn arrive(&mut self, seq: u16, stamp: u32) -> Result<Arrival, Fail> {
        let number = self.number(seq);
        if self.stamps.contains_key(&number) {
            return Ok(Arrival::Repeat(number_of(number)));
        }
        self.stamps.insert(number, stamp)?;
        self.greatest = self.greatest.max(number);
        Ok(Arrival::New(number_of(number)))
    }

    // The report of the numbers that are at least so far below the greatest one.
    fn report(&self, alloc: Global, below: u32) -> Result<Vec<Told>, Fail> {
        let mut all = Vec::new(alloc);
        let mut next = None;
        for (number, stamp) in self.stamps.iter() {
            if number.wrapping_add(below) <= self.greatest {
                match next {
                    Some(next) if next < *number => {
                        all.push(Told::Gap(number_of(next), u64::from(*number - next)))?;
                    }
                    _ => {}
                }
                all.push(Told::Packet(number_of(*number), *stamp))?;
                next = Some(number.wrapping_add(1));
            }
        }
        Ok(all)
    }
}

fn number_of(number: u32) -> i64 {
    i64::from(number).wrapping_sub(i64::from(BASE))
}

// The next sequence number: mostly the next one, now and then some lost, a repeat, a late one, or a jump either way.
fn next_seq(state: u32, last: u16) -> u16 {
    let some = (state >> 8) % 40;
    match state % 16 {
        0..=8 => last.wrapping_add(1),
        9..=10 => last.wrapping_add(some as u16),
        11 => last,
        12..=13 => last.wrapping_sub(some as u16),
        14 => last.wrapping_add((state >> 8 & 0x7FFF) as u16),
        _ => last.wrapping_sub((state >> 10 & 0x3FFF) as u16),
    }
}

/// The receiver with its events, beside the plain program.
#[derive(Drop)]
struct Pair {
    receiver: Receiver,
    out: Vec<Event>,
    plain: Plain,
}

impl Pair {
    fn new(alloc: Global) -> Result<Pair, Fail> {
        let plain = Plain {
            stamps: BTreeMap::new(alloc),
            greatest: 0,
        };
        Ok(Pair {
            receiver: Receiver::new(alloc)?,
            out: Vec::new(alloc),
            plain,
        })
    }

    // Whether both answer the same to an arrival.
    fn answers_alike(&mut self, seq: u16, stamp: u32) -> Result<bool, Fail> {
        if self.receiver.arrivals() >= 5000 {
            return Ok(false);
        }
        let payload = [(stamp % 256) as u8];
        let answer = self.receiver.arrive(seq, stamp, &payload, &mut self.out)?;
        Ok(answer == self.plain.arrive(seq, stamp)?)
    }

    // Whether both tell the same of the numbers that are at least so far below the greatest one.
    fn tells_alike(&self, alloc: Global, below: u32) -> Result<bool, Fail> {
        let report = self.plain.report(alloc, below)?;
        Ok(all_told(alloc, &self.out)? == report)
    }
}

// The seed of the arrivals, and how many there are.
const ROWS: &[(u32, u32)] = &[(1, 3000), (2, 500), (3, 40), (4, 40), (5, 40)];

fn is_told_alike(alloc: Global, row: &(u32, u32)) -> Result<bool, Fail> {
    let mut pair = Pair::new(alloc)?;
    let mut alike = true;
    let (mut state, mut seq) = (row.0, 7);
    for stamp in 0..row.1 {
        state = state.wrapping_mul(1_664_525).wrapping_add(1_013_904_223);
        seq = next_seq(state >> 4, seq);
        alike &= pair.answers_alike(seq, stamp)?;
        if stamp % 16 == 0 || stamp < 100 {
            alike &= pair.tells_alike(alloc, 32_768)?;
        }
    }
    pair.receiver.close(&mut pair.out)?;
    Ok(alike && pair.tells_alike(alloc, 0)?)
}

#[test]
fn the_ring_tells_what_a_map_tells(rt: HostRuntime) -> Result<(), Fail> {
    for row in ROWS {
        assert!(rt; is_told_alike(rt.alloc(), row)?, "{row:?}");
    }
    Ok(())
}
