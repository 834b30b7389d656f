//! First bytes and the flags of frames.
use opus_toc::{Band, Flags, Mode, Toc, flags};

// A first byte, its configuration, channels and code, and what the configuration says.
type Example = (u8, (u8, bool, u8), Mode, Band, u32);

// The first bytes of the standard's examples (RFC 6716, 3.3).
const EXAMPLES: &[Example] = &[
    (8, (1, false, 0), Mode::Silk, Band::Narrow, 960),
    (233, (29, false, 1), Mode::Celt, Band::Full, 240),
    (123, (15, false, 3), Mode::Hybrid, Band::Full, 960),
    (255, (31, true, 3), Mode::Celt, Band::Full, 960),
];

fn is_example(toc: Toc, row: &Example) -> bool {
    Toc::of_byte(row.0) == toc
        && toc.to_byte() == row.0
        && (toc.mode(), toc.bandwidth(), toc.samples()) == (row.2, row.3, row.4)
}

fn is_read(row: &Example) -> bool {
    let (config, stereo, code) = row.1;
    config < 32 && code < 4 && is_example(Toc::new(config, stereo, code), row)
}

// SILK frames, then VAD and LBRR flags of the middle channel, and of the side channel.
type Given = (u8, (u8, bool), (u8, bool));

// Configuration, channels, the frame, its flags.
type Row = (u8, bool, &'static [u8], Option<Given>);

const ROWS: &[Row] = &[
    (1, false, &[0x40], Some((1, (0, true), (0, false)))),
    (0, false, &[0xBF, 1], Some((1, (1, false), (0, false)))),
    (2, false, &[0x9F], Some((2, (2, false), (0, false)))),
    (3, true, &[0x11], Some((3, (0, true), (0, true)))),
    (7, true, &[0x9C], Some((3, (4, true), (6, false)))),
    (10, true, &[0x6B], Some((2, (1, true), (1, false)))),
    (15, true, &[0xA0], Some((1, (1, false), (1, false)))),
    (16, true, &[0xFF], None),
    (0, true, &[], None),
];

fn given(read: Flags) -> Given {
    (
        read.silk_frames,
        (read.vad_mid, read.lbrr_mid),
        (read.vad_side, read.lbrr_side),
    )
}

fn has_flags(row: &Row) -> bool {
    row.0 < 32 && flags(Toc::new(row.0, row.1, 0), row.2).map(given) == row.3
}

#[test]
fn first_bytes_and_flags_are_read(rt: HostRuntime) {
    for row in EXAMPLES {
        assert!(rt; is_read(row), "{row:?}");
    }
    for row in ROWS {
        assert!(rt; has_flags(row), "{row:?}");
    }
}
