//! What some seeds make.
use opus_make::{Made, Maker};
use std::alloc::Global;
use std::test::Fail;

// The first two records of seed 0: the first packet, and the second one's size and first bytes.
fn are_first_two(alloc: Global) -> Result<bool, Fail> {
    let mut maker = Maker::new(0);
    let mut out = Vec::new(alloc);
    let first = maker.next(&mut out)? == Made::Packet
        && out.as_slice() == [0x80, 0, 1, 2, 3, 4, 5, 6, 7].as_slice();
    let second = maker.next(&mut out)? == Made::Packet
        && out.len() == 9 + 292
        && out.get(9..16) == Some([0x93, 0x4B, 3, 0, 1, 2, 3].as_slice());
    Ok(first && second)
}

// Seed, lost ones of the first 200 records, bytes of the packets, and the sum of these bytes, as another program made
// of the same rule has them.
const ROWS: &[(u32, u32, usize, u32)] = &[
    (0, 12, 108_538, 10_468_362),
    (7, 10, 108_245, 10_347_760),
    (12_345, 15, 121_457, 11_813_879),
    (4_294_967_295, 5, 130_421, 13_175_600),
];

fn sum(bytes: &[u8]) -> u32 {
    let mut sum = 0u32;
    for byte in bytes {
        sum = sum.wrapping_add(u32::from(*byte));
    }
    sum
}

fn are_made(alloc: Global, row: &(u32, u32, usize, u32)) -> Result<bool, Fail> {
    let mut maker = Maker::new(row.0);
    let mut out = Vec::new(alloc);
    let mut lost = 0u32;
    for _ in 0..200 {
        if maker.next(&mut out)? == Made::Lost {
            lost = lost.wrapping_add(1);
        }
    }
    Ok((lost, out.len(), sum(&out)) == (row.1, row.2, row.3))
}

#[test]
fn seeds_make_their_records(rt: HostRuntime) -> Result<(), Fail> {
    assert!(rt; are_first_two(rt.alloc())?);
    for row in ROWS {
        assert!(rt; are_made(rt.alloc(), row)?, "{row:?}");
    }
    Ok(())
}
