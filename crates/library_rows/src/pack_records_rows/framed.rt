//! One undelimited packet, and self-delimited packets one after another.

use super::{Input, Row, STEPS, says};
use opus_feed::{Framing, Padding};
use opus_packet::Rule;
use pack_records::{RawForm, SelfForm};
use std::alloc::Global;
use std::test::Fail;

const DROP: Padding = Padding::Drop;

const KEEP: Padding = Padding::Keep;

// Inputs that are one undelimited packet, and inputs of self-delimited packets.
const INPUTS: &[(Framing, &[Input])] = &[
    (Framing::Whole, UNDELIMITED),
    (Framing::SelfDelimited, DELIMITED),
];

const PAIR: &[u8] = b"\xF9\xAA\xBB\xCC\xDD";

const UNDELIMITED: &[Input] = &[
    (
        b"\xFA\x02\xAA\xBB\xCC\xDD",
        DROP,
        &[(0, 6, 0, Ok((2, false, 0, 6)), PAIR)],
        None,
    ),
    (PAIR, DROP, &[(0, 5, 0, Ok((1, false, 0, 5)), PAIR)], None),
    (
        b"\x08",
        DROP,
        &[(0, 1, 0, Ok((0, false, 0, 1)), b"\x08")],
        None,
    ),
    (b"", DROP, &[(0, 0, 0, Err(Some((Rule::R1, 0))), b"")], None),
    (
        b"\xF9\xAA",
        DROP,
        &[(0, 2, 0, Err(Some((Rule::R3, 2))), b"")],
        None,
    ),
    (
        b"\xFB\x00",
        DROP,
        &[(0, 2, 0, Err(Some((Rule::R5, 1))), b"")],
        None,
    ),
    (
        b"\xFB\x00\x01\xAA\xFB\x00",
        KEEP,
        &[(0, 2, 0, Err(Some((Rule::R5, 1))), b"")],
        None,
    ),
    (
        b"\xFB\x41\x01\xAA\x07",
        DROP,
        &[(0, 5, 0, Ok((3, false, 2, 5)), b"\xF8\xAA")],
        None,
    ),
    (
        b"\xFB\x41\x01\xAA\x07",
        KEEP,
        &[(0, 5, 0, Ok((3, false, 2, 5)), b"\xFB\x41\x01\xAA\x07")],
        None,
    ),
    (
        b"\xFB\x41\x00\xAA",
        KEEP,
        &[(0, 4, 0, Ok((3, false, 1, 4)), b"\xF8\xAA")],
        None,
    ),
];

const FIRST: Row = (0, 4, 0, Ok((0, false, 0, 4)), b"\xF8\x02\xAA\xBB");

const BARE: Row = (0, 7, 0, Ok((3, false, 2, 7)), b"\xF8\x02\xAA\xBB");

const FULL: Row = (
    0,
    7,
    0,
    Ok((3, false, 2, 7)),
    b"\xFB\x41\x01\x02\xAA\xBB\x00",
);

const DELIMITED: &[Input] = &[
    (b"", DROP, &[], None),
    (
        b"\xF8\x02\xAA\xBB\xF8\x00",
        DROP,
        &[FIRST, (4, 6, 0, Ok((0, false, 0, 2)), b"\xF8\x00")],
        None,
    ),
    (b"\xFB\x41\x01\x02\xAA\xBB\x00", DROP, &[BARE], None),
    (b"\xFB\x41\x01\x02\xAA\xBB\x00", KEEP, &[FULL], None),
    (
        b"\xFB\x41\x01\x02\xAA\xBB\x00\xF8\x00",
        DROP,
        &[BARE, (7, 9, 0, Ok((0, false, 0, 2)), b"\xF8\x00")],
        None,
    ),
    (
        b"\xF8\x02\xAA",
        DROP,
        &[(0, 3, 0, Err(Some((Rule::Cut, 3))), b"")],
        None,
    ),
    (
        b"\xF8\x02\xAA\xBB\xF8\x02\xAA",
        DROP,
        &[FIRST, (4, 7, 0, Err(Some((Rule::Cut, 3))), b"")],
        None,
    ),
    (
        b"\xF8\x02\xAA\xBB\xFB\x00\xF8\x00",
        DROP,
        &[FIRST, (4, 6, 0, Err(Some((Rule::R5, 1))), b"")],
        None,
    ),
];

fn is_said(alloc: Global, framing: Framing, row: &Input, step: usize) -> Result<bool, Fail> {
    match framing {
        Framing::Whole => says(&mut RawForm::new(alloc, row.1)?, framing, step, row),
        Framing::SelfDelimited => says(&mut SelfForm::new(alloc, row.1)?, framing, step, row),
    }
}

fn are_said(alloc: Global, framing: Framing, row: &Input) -> Result<bool, Fail> {
    let mut all = true;
    for step in STEPS {
        all = all && is_said(alloc, framing, row, step)?;
    }
    Ok(all)
}

#[test]
fn each_packet_is_a_record(rt: HostRuntime) -> Result<(), Fail> {
    for (framing, inputs) in INPUTS {
        for row in *inputs {
            assert!(rt; are_said(rt.alloc(), *framing, row)?, "{framing:?} {row:?}");
        }
    }
    Ok(())
}
