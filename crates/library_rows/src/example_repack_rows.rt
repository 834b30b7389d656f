//! The caller that joins packets up to 60 ms: packets of 20 ms, a stereo one and one of 120 ms.
use example_repack::Repacker;
use opus_packet::decode;
use std::test::Fail;

// Three frames in code 3; one mono frame; one stereo frame; and six: each with the length of its last frame.
const WRITTEN: &[u8] = &[
    0xFB, 3, 1, 0xAA, 0xBB, 0xCC, 0xF8, 1, 0xDD, 0xFC, 1, 0xEE, 0xFF, 6, 1, 1, 2, 3, 4, 5, 6,
];

// A packet, and how many bytes are written once it is taken.
const ROWS: &[(&[u8], usize)] = &[
    (&[0xF8, 0xAA], 0),
    (&[0xF8, 0xBB], 0),
    (&[0xF8, 0xCC], 0),
    (&[0xF8, 0xDD], 6),
    (&[0xFC, 0xEE], 9),
    (&[0xFF, 6, 1, 2, 3, 4, 5, 6], 12),
];

fn takes(repacker: &mut Repacker, row: &(&[u8], usize), out: &mut Vec<u8>) -> Result<bool, Fail> {
    repacker.take(&decode(row.0)?, out)?;
    Ok(Some(out.as_slice()) == WRITTEN.get(..row.1))
}

fn finishes(repacker: &mut Repacker, out: &mut Vec<u8>) -> Result<bool, Fail> {
    repacker.finish(out)?;
    Ok(out.as_slice() == WRITTEN)
}

#[test]
fn packets_are_joined_to_60_milliseconds(rt: HostRuntime) -> Result<(), Fail> {
    let mut repacker = Repacker::new(rt.alloc())?;
    let mut out = Vec::new(rt.alloc());
    for row in ROWS {
        assert!(rt; takes(&mut repacker, row, &mut out)?, "{row:?}");
    }
    // The last group is written once.
    for time in 0..2 {
        assert!(rt; finishes(&mut repacker, &mut out)?, "{time}");
    }
    Ok(())
}
