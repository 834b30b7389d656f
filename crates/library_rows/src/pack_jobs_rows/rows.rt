//! Inputs, how a job ends over each, and what it writes.
use super::{Row, Work, is_row};
use opus_words::Form;
use std::test::Fail;

const NORM: Work = Work::Norm(Form::Raw);

const NORM_SELF: Work = Work::Norm(Form::SelfDelimited);

const NORM_DEMO: Work = Work::Norm(Form::Demo);

const KEEP: Work = Work::Keep(Form::Raw);

const KEEP_SELF: Work = Work::Keep(Form::SelfDelimited);

const CHECK: Work = Work::Check(Form::Raw);

const CHECK_SELF: Work = Work::Check(Form::SelfDelimited);

const CHECK_DEMO: Work = Work::Check(Form::Demo);

const ROWS: &[Row<Work>] = &[
    (
        NORM,
        b"\xfa\x02\xaa\xbb\xcc\xdd",
        None,
        b"\xf9\xaa\xbb\xcc\xdd",
    ),
    (NORM, b"", Some((0, 0, "R1 at 0")), b""),
    (NORM, b"\x08", None, b"\x08"),
    (
        NORM,
        b"\xfb\xc2\x02\x01\xaa\xbb\x00\x00",
        None,
        b"\xf9\xaa\xbb",
    ),
    (NORM, b"\xfb\x00", Some((0, 1, "R5 at 1")), b""),
    (NORM, b"\xfb\x06", None, b"\xfb\x06"),
    (NORM, b"\xfb\x07", Some((0, 1, "R5 at 1")), b""),
    (NORM, b"\xf9\xaa", Some((0, 2, "R3 at 2")), b""),
    (NORM, b"\xf9", None, b"\xf9"),
    (NORM, b"\xfa", Some((0, 1, "R4 at 1")), b""),
    (NORM, b"\xfa\xfc", Some((0, 2, "R4 at 2")), b""),
    (NORM, b"\xfa\x05\xaa", Some((0, 3, "R4 at 3")), b""),
    (NORM, b"\xfb", Some((0, 1, "R6 at 1")), b""),
    (NORM, b"\xfb\x02\xaa", Some((0, 3, "R6 at 3")), b""),
    (NORM, b"\xfb\x42", Some((0, 2, "R6 at 2")), b""),
    (NORM, b"\xfb\x41\x05\x00", Some((0, 4, "R6 at 4")), b""),
    (NORM, b"\xfb\x82\x03\xaa", Some((0, 4, "R7 at 4")), b""),
    (
        NORM_SELF,
        b"\xf8\x02\xaa\xbb\xf8\x00",
        None,
        b"\xf8\x02\xaa\xbb\xf8\x00",
    ),
    (
        NORM_SELF,
        b"\xfb\x41\x01\x02\xaa\xbb\x00",
        None,
        b"\xf8\x02\xaa\xbb",
    ),
    (NORM_SELF, b"\xf8\x02\xaa", Some((0, 3, "Cut at 3")), b""),
    (
        NORM_DEMO,
        b"\0\0\0\x03\0\0\0\0\xf8\xaa",
        Some((0, 10, "store cut")),
        b"",
    ),
    (
        NORM_DEMO,
        b"\0\0\0\x03\0\0\0\0\xfb\x07",
        Some((0, 9, "R5 at 1")),
        b"",
    ),
    (
        NORM_DEMO,
        b"\0\0\0\0\0\0\0\x07",
        None,
        b"\0\0\0\0\0\0\0\x07",
    ),
    (
        NORM_DEMO,
        b"\0\0\0\x05\0\0\0\x09\xfb\x41\x01\xaa\x00",
        None,
        b"\0\0\0\x02\0\0\0\x09\xf8\xaa",
    ),
    (
        KEEP,
        b"\xfb\xc2\x02\x01\xaa\xbb\x11\x22",
        None,
        b"\xfb\x42\x02\xaa\xbb\x11\x22",
    ),
    (KEEP, b"\xfb\x41\x00\xaa", None, b"\xf8\xaa"),
    (
        KEEP_SELF,
        b"\xfb\x41\x01\x02\xaa\xbb\x00",
        None,
        b"\xfb\x41\x01\x02\xaa\xbb\x00",
    ),
    (CHECK, b"\x08", None, b"0 ok\n"),
    (CHECK, b"", Some((0, 0, "R1 at 0")), b"0 R1 at 0\n"),
    (CHECK, b"\xfb\x00", Some((0, 1, "R5 at 1")), b"0 R5 at 1\n"),
    (
        CHECK_SELF,
        b"\xf8\x02\xaa\xbb\xf8\x00",
        None,
        b"0 ok\n1 ok\n",
    ),
    (
        CHECK_SELF,
        b"\xf8\x00\xfb\x07\xf8\x00",
        Some((1, 3, "R5 at 1")),
        b"0 ok\n1 R5 at 1\n",
    ),
    (
        CHECK_DEMO,
        b"\0\0\0\x02\0\0\0\0\xf8\xaa\0\0\0\0\0\0\0\0\0\0\0\x02\0\0\0\0\xfb\x07",
        Some((2, 27, "R5 at 1")),
        b"0 ok\n1 lost\n2 R5 at 1\n",
    ),
    (
        CHECK_DEMO,
        b"\0\0\0\x02\0\0\0\0\xfb\x07\0\0\0\x02\0\0\0\0\xf9\xaa\0\0\0\x01",
        Some((0, 9, "R5 at 1")),
        b"0 R5 at 1\n1 R3 at 2\n",
    ),
    (
        CHECK_DEMO,
        b"\0\0\0\0\0\0\0\0\0\0\0\x01",
        Some((1, 12, "store cut")),
        b"0 lost\n",
    ),
];

#[test]
fn each_row_ends_so(rt: HostRuntime) -> Result<(), Fail> {
    for row in ROWS {
        assert!(rt; is_row(rt.alloc(), row)?, "{row:?}");
    }
    Ok(())
}
