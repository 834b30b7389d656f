//! A capture of 500 records, read packet by packet.
use super::{max_input, words_of};
use crate::run::run;
use crate::status::Status;
use opus_io::{MemorySink, MemorySource};
use rtp_packet::read_rtp;
use std::alloc::Global;
use std::test::Fail;

// Payloads that come in turn, each with its canonical form and its duration in samples; an empty one is lost.
static TURNS: [(&[u8], &[u8], u32); 5] = [
    (b"", b"", 0),
    (b"\xf8\xaa", b"\xf8\xaa", 960),
    (b"\xe0", b"\xe0", 120),
    (b"\xfb\x42\x01\xaa\xbb\x00", b"\xf9\xaa\xbb", 1920),
    (b"\x19\x01\x02", b"\x19\x01\x02", 5760),
];

const SEND: &str = "send --pt=111 --seq=65300 --stamp=4294900000 --ssrc=7";

// The first numbers: both wrap.
const SEQ: u64 = 65_300;

const STAMP: u64 = 4_294_900_000;

// A store of 100 turns.
fn store(alloc: Global) -> Result<Vec<u8>, Fail> {
    let mut bytes = Vec::new(alloc);
    for _ in 0..100 {
        for (payload, _, _) in &TURNS {
            bytes.extend_from_slice(&[0, 0, 0, payload.len() as u8, 0, 0, 0, 0])?;
            bytes.extend_from_slice(payload)?;
        }
    }
    Ok(bytes)
}

// What send writes for a store.
fn sent(alloc: Global, store: &[u8], step: usize) -> Result<MemorySink, Fail> {
    let words = words_of(alloc, SEND)?;
    let mut source = MemorySource::new(alloc, store, step.max(1), &[]).map_err(|_| "memory")?;
    let mut out = MemorySink::new(alloc, 4096, &[]).map_err(|_| "memory")?;
    let mut note = MemorySink::new(alloc, 64, &[]).map_err(|_| "memory")?;
    let words = words.as_slice();
    let status = run(alloc, words, max_input(), &mut source, &mut out, &mut note);
    if status == Status::Ok {
        Ok(out)
    } else {
        Err("a store is sent".into())
    }
}

// The first `count` bytes, and those behind them.
fn parted(bytes: &[u8], count: usize) -> Option<(&[u8], &[u8])> {
    if bytes.len() < count {
        return None;
    }
    Some((&bytes[..count], &bytes[count..]))
}

// The number that bytes stand for, the highest first, modulo 2^32.
fn number(bytes: &[u8]) -> u64 {
    let mut number = 0;
    for byte in bytes {
        number = number % 16_777_216 * 256 + u64::from(*byte);
    }
    number
}

// The offset and the packet of the first record, and the bytes behind the record.
fn first_record(bytes: &[u8]) -> Option<(u64, &[u8], &[u8])> {
    let (length, rest) = parted(bytes, 2)?;
    let (size, rest) = parted(rest, 2)?;
    let (offset, rest) = parted(rest, 4)?;
    let (packet, rest) = parted(rest, number(size) as usize)?;
    if number(length).checked_sub(8) == Some(number(size)) {
        Some((number(offset), packet, rest))
    } else {
        None
    }
}

// Whether a packet has this number, this stamp and this payload.
fn is_packet(packet: &[u8], seq: u64, stamp: u64, payload: &[u8]) -> bool {
    let Ok(read) = read_rtp(packet) else {
        return false;
    };
    u64::from(read.seq) == seq % 65_536
        && u64::from(read.stamp) == stamp % 4_294_967_296
        && (read.ssrc, read.payload_type, read.marker) == (7, 111, false)
        && read.payload == payload
}

// Whether the records of a capture are those of 100 turns.
fn are_all_sent(records: &[u8]) -> Option<bool> {
    let mut rest = records;
    let mut last = 0u32;
    let mut elapsed = 0u64;
    for turn in 0..500u64 {
        let (_, payload, duration) = TURNS[(turn % 5) as usize];
        if !payload.is_empty() {
            let (offset, packet, behind) = first_record(rest)?;
            if offset != elapsed / 48
                || !is_packet(packet, SEQ + turn, STAMP.wrapping_add(elapsed), payload)
            {
                return None;
            }
            rest = behind;
            last = duration;
        }
        elapsed = elapsed.wrapping_add(u64::from(last));
    }
    Some(rest.is_empty())
}

// Whether all of the store is read from what send writes with reads of so many bytes.
fn is_read(alloc: Global, store: &[u8], step: usize) -> Result<bool, Fail> {
    let out = sent(alloc, store, step)?;
    match parted(out.contents(), 39) {
        Some((_, records)) => Ok(are_all_sent(records) == Some(true)),
        None => Ok(false),
    }
}

#[test]
fn each_packet_of_a_capture_is_read(rt: HostRuntime) -> Result<(), Fail> {
    let store = store(rt.alloc())?;
    for step in [1, 3, 4096] {
        assert!(rt; is_read(rt.alloc(), &store, step)?, "{step}");
    }
    Ok(())
}
