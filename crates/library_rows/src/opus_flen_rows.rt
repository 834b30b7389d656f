//! Lengths of frames and of padding.
use opus_flen::{LenRead, PadRead, len_bytes, read_len, read_pad, write_pad};
use std::alloc::Global;

// A frame's length, bytes that begin with it, and how many these are.
const LENGTHS: &[(u16, [u8; 2], usize)] = &[
    (0, [0, 9], 1),
    (251, [251, 9], 1),
    (252, [252, 0], 2),
    (256, [252, 1], 2),
    (1023, [255, 192], 2),
    (1275, [255, 255], 2),
];

fn is_length(row: &(u16, [u8; 2], usize)) -> bool {
    let (value, bytes, used) = *row;
    value <= 1275
        && Some(len_bytes(value).as_slice()) == bytes.get(..used)
        && read_len(&bytes) == LenRead::Len { value, used }
}

// A total of padding, bytes that begin with its length, and how many these are.
const PADDINGS: &[(u32, [u8; 3], usize)] = &[
    (1, [0, 9, 9], 1),
    (255, [254, 9, 9], 1),
    (256, [255, 0, 9], 2),
    (510, [255, 254, 9], 2),
    (511, [255, 255, 0], 3),
];

fn is_padding(alloc: Global, row: &(u32, [u8; 3], usize)) -> bool {
    let (total, bytes, used) = *row;
    let mut out = Vec::new(alloc);
    0 < total
        && total < 16_777_216
        && write_pad(total, &mut out) == Ok(())
        && Some(out.as_slice()) == bytes.get(..used)
        && read_pad(&bytes) == PadRead::Pad { total, used }
}

#[test]
fn lengths_are_read_as_written(rt: HostRuntime) {
    assert!(rt; read_len(&[]) == LenRead::Cut && read_len(&[252]) == LenRead::Cut);
    assert!(rt; read_pad(&[255, 255]) == PadRead::Cut);
    for row in LENGTHS {
        assert!(rt; is_length(row), "{row:?}");
    }
    for row in PADDINGS {
        assert!(rt; is_padding(rt.alloc(), row), "{row:?}");
    }
}
