//! head: heads of each mapping family, and what is refused.
use super::{is_met_in, unfailing};
use std::alloc::Global;
use std::test::Fail;

pub(crate) const ROWS: &str = r"
head | 'OpusHead' 01 02 3801 80bb0000 0000 00 | 'version 1\nchannels 2\npreskip 312\nrate 48000\ngain 0\nfamily 0\nstreams 1\ncoupled 1\nchannel 0: stream 0 left\nchannel 1: stream 0 right\n' |
# Bytes behind the head, in another version; a gain below 0.
head | 'OpusHead' 00 01 ffff ffffffff ffff 00 6d6f7265 | 'version 0\nchannels 1\npreskip 65535\nrate 4294967295\ngain -1\nfamily 0\nstreams 1\ncoupled 0\nchannel 0: stream 0\n' |
head | 'OpusHead' 0f 01 0000 00000000 0080 00 | 'version 15\nchannels 1\npreskip 0\nrate 0\ngain -32768\nfamily 0\nstreams 1\ncoupled 0\nchannel 0: stream 0\n' |
head | 'OpusHead' 01 06 0000 80bb0000 ff7f 01 0402000401020305 | 'version 1\nchannels 6\npreskip 0\nrate 48000\ngain 32767\nfamily 1\nstreams 4\ncoupled 2\nchannel 0: stream 0 left\nchannel 1: stream 2\nchannel 2: stream 0 right\nchannel 3: stream 1 left\nchannel 4: stream 1 right\nchannel 5: stream 3\n' |
head | 'OpusHead' 01 01 0000 00000000 0000 01 0100ff | 'version 1\nchannels 1\npreskip 0\nrate 0\ngain 0\nfamily 1\nstreams 1\ncoupled 0\nchannel 0: silence\n' |
head | 'OpusHead' 01 04 0000 80bb0000 0000 02 040000010203 | 'version 1\nchannels 4\npreskip 0\nrate 48000\ngain 0\nfamily 2\nstreams 4\ncoupled 0\nchannel 0: stream 0\nchannel 1: stream 1\nchannel 2: stream 2\nchannel 3: stream 3\n' |
head | 'OpusHead' 01 01 0000 80bb0000 0000 03 0100ff7f | 'version 1\nchannels 1\npreskip 0\nrate 48000\ngain 0\nfamily 3\nstreams 1\ncoupled 0\nchannel 0: matrix\nmatrix: 32767\n' |
head | 'OpusHead' 02 03 0000 00000000 0000 03 01010080ffff000001000001feff09 | 'version 2\nchannels 3\npreskip 0\nrate 0\ngain 0\nfamily 3\nstreams 1\ncoupled 1\nchannel 0: matrix\nchannel 1: matrix\nchannel 2: matrix\nmatrix: -32768 -1 0 1 256 -2\n' |
# 255 decoded channels, in a family that is read as 255 is.
head | 'OpusHead' 01 01 0000 00000000 0000 c8 807ffe | 'version 1\nchannels 1\npreskip 0\nrate 0\ngain 0\nfamily 200\nstreams 128\ncoupled 127\nchannel 0: stream 127\n' |
head | | | refused: record 0 at 0: cut
head | 'OpusHea' | | refused: record 0 at 7: cut
head | 'OpusTags' | | refused: record 0 at 4: magic
head | 'opusHead' | | refused: record 0 at 0: magic
head | 'OpusHead' 10 | | refused: record 0 at 8: version
head | 'OpusHead' 01 00 0000 | | refused: record 0 at 9: channels
head | 'OpusHead' 01 09 0000 | | refused: record 0 at 12: cut
head | 'OpusHead' 01 02 3801 80bb0000 0000 00 00 | | refused: record 0 at 19: extra
head | 'OpusHead' 01 02 3801 80bb0000 0000 02 | | refused: record 0 at 9: channels
head | 'OpusHead' 01 03 3801 80bb0000 0000 00 | | refused: record 0 at 9: channels
head | 'OpusHead' 01 05 0000 80bb0000 0000 02 040000010203 | | refused: record 0 at 9: channels
head | 'OpusHead' 01 01 0000 00000000 0000 01 00 | | refused: record 0 at 19: streams
head | 'OpusHead' 01 01 0000 00000000 0000 ff 8080 | | refused: record 0 at 20: coupled
head | 'OpusHead' 01 06 0000 80bb0000 0000 01 0402000401020306 | | refused: record 0 at 26: mapping 5
head | 'OpusHead' 01 01 0000 80bb0000 0000 03 0100ff | | refused: record 0 at 22: cut
head | 'OpusHead' 01 01 0000 80bb0000 0000 03 0100ff7f00 | | refused: record 0 at 23: extra
";

// A version, a byte behind the largest table of that version and how often it stands there, and the note. In version 1
// nothing may follow; in another one anything may, however long.
type Largest = (u8, u8, usize, &'static str);

const LARGEST: &[Largest] = &[
    (1, 0, 0, ""),
    (1, 0, 1, "refused: record 0 at 115791: extra"),
    (1, 0, 2, "refused: record 0 at 115791: extra"),
    (3, 1, 20_000, ""),
];

// The head of the largest table, 227 channels in family 3, 255 streams, and all factors 0; and what follows it.
fn largest(alloc: Global, row: &Largest) -> Result<Vec<u8>, Fail> {
    let mut bytes = Vec::from_slice(alloc, b"OpusHead")?;
    bytes.push(row.0)?;
    bytes.extend_from_slice(b"\xe3\x00\x00\x00\x00\x00\x00\x00\x00\x03\xff\x00")?;
    for _ in 0..115_770u32 {
        bytes.push(0)?;
    }
    for _ in 0..row.2 {
        bytes.push(row.1)?;
    }
    Ok(bytes)
}

// The lines of that head.
fn its_lines(alloc: Global, version: u8) -> Result<String, Fail> {
    let mut lines = format!(in alloc;
        "version {version}\nchannels 227\npreskip 0\nrate 0\ngain 0\nfamily 3\n"
    )?;
    lines.push_str("streams 255\ncoupled 0\n")?;
    for channel in 0..227u32 {
        let line = format!(in alloc; "channel {channel}: matrix\n")?;
        lines.push_str(line.as_str())?;
    }
    lines.push_str("matrix:")?;
    for _ in 0..57_885u32 {
        lines.push_str(" 0")?;
    }
    lines.push('\n')?;
    Ok(lines)
}

fn is_judged(alloc: Global, row: &Largest) -> Result<bool, Fail> {
    let input = largest(alloc, row)?;
    if !row.3.is_empty() {
        return is_met_in(
            alloc,
            &unfailing(4096),
            &("head", input.as_slice(), b"", row.3),
        );
    }
    let lines = its_lines(alloc, row.0)?;
    let run = ("head", input.as_slice(), lines.as_str().as_bytes(), "");
    is_met_in(alloc, &unfailing(4096), &run)
}

#[test]
fn what_follows_the_largest_table_is_judged_by_the_version(rt: HostRuntime) -> Result<(), Fail> {
    for row in LARGEST {
        assert!(rt; is_judged(rt.alloc(), row)?, "{row:?}");
    }
    Ok(())
}
