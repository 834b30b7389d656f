//! Texts and what they write.
use text_numbers::read_number;

// A text, the bounds, and the number.
type Row = (&'static [u8], u32, u32, Option<u32>);

const ROWS: &[Row] = &[
    (b"0", 0, 127, Some(0)),
    (b"127", 0, 127, Some(127)),
    (b"128", 0, 127, None),
    (b"0", 1, 48, None),
    (b"", 0, 127, None),
    (b"007", 0, 127, None),
    (b"00", 0, 127, None),
    (b"+7", 0, 127, None),
    (b"-7", 0, 127, None),
    (b" 7", 0, 127, None),
    (b"7\xff", 0, 127, None),
    (b"4294967295", 0, u32::MAX, Some(u32::MAX)),
    (b"4294967296", 0, u32::MAX, None),
    (b"99999999999999999999999", 0, u32::MAX, None),
];

#[test]
fn reads_digits_alone_within_the_bounds(rt: HostRuntime) {
    for row in ROWS {
        assert!(rt; read_number(row.0, row.1, row.2) == row.3, "{row:?}");
    }
}
