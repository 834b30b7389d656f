//! Inputs, and the lines that show writes for each.
use super::{Row, Work, is_row};
use opus_words::Form;
use std::test::Fail;

const RAW: Work = Work::Show(Form::Raw);

const SELF: Work = Work::Show(Form::SelfDelimited);

const DEMO: Work = Work::Show(Form::Demo);

const ROWS: &[Row<Work>] = &[
    (
        RAW,
        b"\x08\x40",
        None,
        b"0.0: config 1 silk nb 960 samples mono, code 0, 1 frames, pad 0, 2 bytes\n\
        0.0.0: 1 bytes mid 0/1\n",
    ),
    (
        RAW,
        b"\x1c\x11",
        None,
        b"0.0: config 3 silk nb 2880 samples stereo, code 0, 1 frames, pad 0, 2 bytes\n\
        0.0.0: 1 bytes mid 000/1 side 000/1\n",
    ),
    (
        RAW,
        b"\xfc",
        None,
        b"0.0: config 31 celt fb 960 samples stereo, code 0, 1 frames, pad 0, 1 bytes\n\
        0.0.0: 0 bytes\n",
    ),
    (
        RAW,
        b"\x31\x80\x20",
        None,
        b"0.0: config 6 silk mb 1920 samples mono, code 1, 2 frames, pad 0, 3 bytes\n\
        0.0.0: 1 bytes mid 10/0\n\
        0.0.1: 1 bytes mid 00/1\n",
    ),
    (
        RAW,
        b"\x6a\x01\x80\x40\x00",
        None,
        b"0.0: config 13 hybrid swb 960 samples mono, code 2, 2 frames, pad 0, 5 bytes\n\
        0.0.0: 1 bytes mid 1/0\n\
        0.0.1: 2 bytes mid 0/1\n",
    ),
    (
        RAW,
        b"\x57\x83\x01\x00\x6b\x9f\x00",
        None,
        b"0.0: config 10 silk wb 1920 samples stereo, code 3, 3 frames, pad 0, 7 bytes\n\
        0.0.0: 1 bytes mid 01/1 side 01/0\n\
        0.0.1: 0 bytes\n\
        0.0.2: 2 bytes mid 10/0 side 11/1\n",
    ),
    (
        RAW,
        b"\xfb\xc2\x02\x01\xaa\xbb\x00\x00",
        None,
        b"0.0: config 31 celt fb 960 samples mono, code 3, 2 frames, pad 3, 8 bytes\n\
        0.0.0: 1 bytes\n\
        0.0.1: 1 bytes\n",
    ),
    (RAW, b"\xfb\x07", Some((0, 1, "R5 at 1")), b""),
    (RAW, b"", Some((0, 0, "R1 at 0")), b""),
    (
        SELF,
        b"\xf8\x01\xaa\x0c\x01\x40",
        None,
        b"0.0: config 31 celt fb 960 samples mono, code 0, 1 frames, pad 0, 3 bytes\n\
        0.0.0: 1 bytes\n\
        1.0: config 1 silk nb 960 samples stereo, code 0, 1 frames, pad 0, 3 bytes\n\
        1.0.0: 1 bytes mid 0/1 side 0/0\n",
    ),
    (
        SELF,
        b"\xfb\x41\x01\x02\xaa\xbb\x00",
        None,
        b"0.0: config 31 celt fb 960 samples mono, code 3, 1 frames, pad 2, 7 bytes\n\
        0.0.0: 2 bytes\n",
    ),
    (SELF, b"\xf8\x02\xaa", Some((0, 3, "Cut at 3")), b""),
    (
        DEMO,
        b"\0\0\0\x01\0\0\0\x05\xfc\0\0\0\0\0\0\0\x07",
        None,
        b"0.0: config 31 celt fb 960 samples stereo, code 0, 1 frames, pad 0, 1 bytes\n\
        0.0.0: 0 bytes\n\
        1: lost\n",
    ),
    (
        DEMO,
        b"\0\0\0\0\0\0\0\0\0\0\0\x02\0\0\0\0\xfb\x07\0\0\0\0\0\0\0\0",
        Some((1, 17, "R5 at 1")),
        b"0: lost\n",
    ),
    (
        DEMO,
        b"\0\0\0\0\0\0\0\0\0\0\0\x01",
        Some((1, 12, "store cut")),
        b"0: lost\n",
    ),
];

#[test]
fn each_row_is_shown_so(rt: HostRuntime) -> Result<(), Fail> {
    for row in ROWS {
        assert!(rt; is_row(rt.alloc(), row)?, "{row:?}");
    }
    Ok(())
}
