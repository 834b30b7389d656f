//! Frame lengths (RFC 6716, 3.2.1).
ghost use Rattle.std.specs.Prelude.{◌≡◌, ◌≤◌};
ghost use Rattle.opus_flen.specs.FrameLength.{ReadsLength, length_read, length_bytes};

use arrayvec::ArrayVec;

/// What the front of some bytes says as a frame length.
#[derive(Clone, Copy, Debug, PartialEq, Eq)]
pub enum LenRead {
    /// A whole length.
    Len {
        /// Bytes of the frame, 0 to 1,275.
        value: u16,
        /// Bytes that the length itself takes, 1 or 2.
        used: usize,
    },
    /// The bytes end before the length does.
    Cut,
}

/// Reads the frame length at the front of `bytes`.
pub fn read_len(bytes: &[u8]) -> LenRead
    ensures reads { ReadsLength bytes.now result }
    ensures exact { result ≡ length_read bytes.now }
{
    match bytes {
        [first @ 0..=251, ..] => LenRead::Len {
            value: u16::from(*first),
            used: 1,
        },
        [first, second, ..] => LenRead::Len {
            value: 4 * u16::from(*second) + u16::from(*first),
            used: 2,
        },
        _ => LenRead::Cut,
    }
}

/// The bytes that spell a frame of `value` bytes.
pub fn len_bytes(value: u16) -> ArrayVec<u8, 2>
    requires { value ≤ 1275 }
    ensures { result.items ≡ length_bytes value }
{
    let mut bytes = ArrayVec::new();
    if value < 252 {
        bytes.push(value as u8);
    } else {
        let first = 252 + value % 4;
        bytes.push(first as u8);
        bytes.push(((value - first) / 4) as u8);
    }
    bytes
}
