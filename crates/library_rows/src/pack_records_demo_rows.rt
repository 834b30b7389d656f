//! Stores in pieces of 1, 3 and 4,096 bytes: each record with its bytes, and the cut.

use crate::pack_records_rows::{Held, Input, Row, STEPS, says};
use opus_feed::{Framing, Padding};
use opus_packet::Rule;
use pack_records::DemoForm;
use std::alloc::Global;
use std::test::Fail;

const DROP: Padding = Padding::Drop;

const KEEP: Padding = Padding::Keep;

const GOOD_LOST: &[u8] = b"\0\0\0\x03\0\0\0\x07\xF8\xAA\xBB\0\0\0\0\0\0\0\x09";

const EARLY_GOOD: &[u8] = b"\0\0\0\x05\0\0\0\x01\xFB\0\xAA\xBB\xCC\0\0\0\x02\0\0\0\x03\xF8\xAA";

const AT_END_LOST: &[u8] = b"\0\0\0\x02\0\0\0\x02\xF9\xAA\0\0\0\0\xFF\xFF\xFF\xFF";

const PADDED: &[u8] = b"\0\0\0\x07\0\0\0\x04\xFB\xC1\x02\xAA\xBB\x11\x22";

const KEPT: &[u8] = b"\0\0\0\x07\0\0\0\x04\xFB\x41\x02\xAA\xBB\x11\x22";

const KEPT_FORM: &[u8] = b"\xFB\x41\x02\xAA\xBB\x11\x22";

const GOOD: Row = (8, 11, 7, Ok((0, false, 0, 3)), b"\xF8\xAA\xBB");

const LOST: Row = (19, 19, 9, Err(None), b"");

const NO_FRAMES: Held = Err(Some((Rule::R5, 1)));

// Whole stores, and then stores that are cut in a head or a payload.
const ROWS: &[Input] = &[
    (b"", DROP, &[], None),
    (GOOD_LOST, DROP, &[GOOD, LOST], None),
    (GOOD_LOST, KEEP, &[GOOD, LOST], None),
    (
        EARLY_GOOD,
        DROP,
        &[
            (8, 10, 1, NO_FRAMES, b""),
            (21, 23, 3, Ok((0, false, 0, 2)), b"\xF8\xAA"),
        ],
        None,
    ),
    (
        AT_END_LOST,
        DROP,
        &[
            (8, 10, 2, Err(Some((Rule::R3, 2))), b""),
            (18, 18, u32::MAX, Err(None), b""),
        ],
        None,
    ),
    (
        PADDED,
        DROP,
        &[(8, 15, 4, Ok((3, true, 3, 7)), b"\xF8\xAA\xBB")],
        None,
    ),
    (
        PADDED,
        KEEP,
        &[(8, 15, 4, Ok((3, true, 3, 7)), KEPT_FORM)],
        None,
    ),
    (
        KEPT,
        KEEP,
        &[(8, 15, 4, Ok((3, false, 3, 7)), KEPT_FORM)],
        None,
    ),
    (
        b"\0\0\0\x01\0\0\0\x07\xFA",
        DROP,
        &[(8, 9, 7, Err(Some((Rule::R4, 1))), b"")],
        None,
    ),
    (b"\0", DROP, &[], Some(1)),
    (
        b"\0\0\0\x03\0\0\0\x07\xF8\xAA\xBB\0\0\0",
        DROP,
        &[GOOD],
        Some(14),
    ),
    (b"\0\0\0\x03\0\0\0\x07", DROP, &[], Some(8)),
    (b"\0\0\0\x05\0\0\0\x07\xF8\xAA", DROP, &[], Some(10)),
    (
        b"\0\0\0\x05\0\0\0\x07\xFB\0\xAA",
        DROP,
        &[(8, 10, 7, NO_FRAMES, b"")],
        Some(11),
    ),
    (
        b"\0\0\0\x05\0\0\0\x07\xFB\0",
        DROP,
        &[(8, 10, 7, NO_FRAMES, b"")],
        Some(10),
    ),
];

fn is_said(alloc: Global, row: &Input, step: usize) -> Result<bool, Fail> {
    says(&mut DemoForm::new(alloc, row.1)?, Framing::Whole, step, row)
}

#[test]
fn records_are_shown_with_their_bytes(rt: HostRuntime) -> Result<(), Fail> {
    for row in ROWS {
        for step in STEPS {
            assert!(rt; is_said(rt.alloc(), row, step)?, "{row:?} by {step}");
        }
    }
    Ok(())
}
