//! make: stores of made records. The expected bytes are those of another program, made of the same rule.
use super::{Around, is_met_in, unfailing};
use opus_make::Maker;
use rec_store::demo_record;
use std::alloc::Global;
use std::test::Fail;

pub(crate) const ROWS: &str = r"
make --seed 0 --count 1 | 00000009 00000000 800001020304050607
make --count=0 |
make --seed 4294967295 --count 0 |
make --seed 109 --count 2 | 00000000 00000000 00000000 00000001
make --seed 1665 --count 2 | 00000000 00000000 00000007 00000001 d3c10200010000
--count 2 make --seed=319 | 00000009 00000000 5b4206000000000000 00000000 00000001
";

// The store of the first records of seed 0.
fn store_of(alloc: Global, count: u32) -> Result<Vec<u8>, Fail> {
    let mut maker = Maker::new(0);
    let mut store = Vec::new(alloc);
    for number in 0..count {
        let mut payload = Vec::new(alloc);
        maker.next(&mut payload)?;
        if payload.len() < 1 << 20 {
            demo_record(number, &payload, &mut store)?;
        }
    }
    Ok(store)
}

// The words that make so many records of seed 0, their number, the write that fails where any other takes all it is
// given, how many bytes are written where not all are, and the note.
type Buffered = (&'static str, u32, u64, Option<usize>, &'static str);

// 12 records, of 7,095 bytes, go by one write. The bytes of the next one find no room behind its head, so there are
// two.
const BUFFERED: &[Buffered] = &[
    ("make --count 12", 12, 2, None, ""),
    ("make --count 13", 13, 3, None, ""),
    ("make --count 13", 13, 2, Some(7103), "write fault"),
];

fn is_buffered(alloc: Global, row: &Buffered) -> Result<bool, Fail> {
    let (words, count, fails, written, note) = *row;
    let store = store_of(alloc, count)?;
    let Some(output) = store.get(..written.unwrap_or(store.len())) else {
        return Ok(false);
    };
    let around = Around {
        room: 8192,
        writes: &[fails],
        ..unfailing(1)
    };
    is_met_in(alloc, &around, &(words, b"", output, note))
}

#[test]
fn make_writes_once_a_filled_buffer(rt: HostRuntime) -> Result<(), Fail> {
    for row in BUFFERED {
        assert!(rt; is_buffered(rt.alloc(), row)?, "{row:?}");
    }
    Ok(())
}
