//! Long inputs, and runs that the outside ends.
use super::{EACH_STEP, Long, Parts, Way, Work, ends_so, is_long};
use opus_words::{Ending, Form};
use std::alloc::Global;
use std::test::Fail;

const NORM: Work = Work::Norm(Form::Raw);

const KEEP: Work = Work::Keep(Form::Raw);

const LONGEST: Parts = &[(b"\xf8", 1), (b"\0", 1275)];

const ONE_PADDED: Parts = &[(b"\xfb\x41\xfe\xaa", 1), (b"\0", 254)];

// One byte of padding length more.
const ONE_PADDED_LONGER: Parts = &[(b"\xfb\x41\xff\0\xaa", 1), (b"\0", 254)];

const LONG: &[Long<Work>] = &[
    (
        NORM,
        &[(b"\xf8", 1), (b"\0", 1276)],
        Some((0, 1276, "R2 at 1276")),
        &[],
    ),
    (NORM, LONGEST, None, LONGEST),
    (NORM, ONE_PADDED, None, &[(b"\xf8\xaa", 1)]),
    (NORM, ONE_PADDED_LONGER, None, &[(b"\xf8\xaa", 1)]),
    (
        NORM,
        &[(b"\xfb\x41", 1), (b"\xff", 65_793)],
        Some((0, 65_794, "PadLimit at 65794")),
        &[],
    ),
    (KEEP, ONE_PADDED_LONGER, None, ONE_PADDED),
    (
        KEEP,
        &[
            (b"\xfb\x41", 1),
            (b"\xff", 258),
            (b"\x04\xaa", 1),
            (b"\0", 65_536),
        ],
        Some((0, 65_798, "padding long")),
        &[],
    ),
];

#[test]
fn long_inputs_end_so(rt: HostRuntime) -> Result<(), Fail> {
    for row in LONG {
        assert!(rt; is_long(rt.alloc(), row, &EACH_STEP)?, "{row:?}");
    }
    Ok(())
}

// Two records, of which one alone is whole within 11 bytes.
const STORE: &[u8] = b"\0\0\0\x02\0\0\0\x01\xf8\xaa\0\0\0\x02\0\0\0\x02\xf8\xbb";

const FIRST: &[u8] = b"\0\0\0\x02\0\0\0\x01\xf8\xaa";

const FIRST_AND_A_BYTE: &[u8] = b"\0\0\0\x02\0\0\0\x01\xf8\xaa\0";

// A limit with the reads and the writes that fail, how norm ends over these records, and what it writes.
type Around = (Way<'static>, Ending, &'static [u8]);

const AROUND: [Around; 6] = [
    ((20, &[(1, 1)], &[], &[]), Ending::Ok, STORE),
    ((19, &[(1, 1)], &[], &[]), Ending::InputLimit, FIRST),
    ((9, &[(1, 1)], &[], &[]), Ending::InputLimit, b""),
    ((20, &[(1, 1)], &[1], &[]), Ending::ReadFault, b""),
    ((20, &[(1, 1)], &[12], &[]), Ending::ReadFault, FIRST),
    (
        (20, &[(1, 1)], &[], &[12]),
        Ending::WriteFault,
        FIRST_AND_A_BYTE,
    ),
];

fn is_around(alloc: Global, row: &Around) -> Result<bool, Fail> {
    ends_so(
        alloc,
        &Work::Norm(Form::Demo),
        STORE,
        &row.0,
        (&row.1, row.2),
    )
}

#[test]
fn the_outside_ends_a_run_so(rt: HostRuntime) -> Result<(), Fail> {
    for row in &AROUND {
        assert!(rt; is_around(rt.alloc(), row)?, "{row:?}");
    }
    Ok(())
}
