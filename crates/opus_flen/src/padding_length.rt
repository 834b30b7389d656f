//! Padding lengths of code 3 packets (RFC 6716, 3.2.5).
ghost use Rattle.std.specs.Prelude.{◌≡◌, ◌+◌, ◌-◌, ◌*◌, ◌<◌, ◌≤◌, ◌++◌, length, vec_len, vec_capacity, OnOk, OnErr};
ghost use Rattle.opus_flen.specs.PaddingLength.{padding_limit, ReadsPadding, padding_read, padding_bytes};

use opus_io::NoMemory;

/// Most bytes 255 of a padding length: a total is at most 2^24 - 1 bytes, which is 255 * 65,793.
const MOST_FULL: usize = 65_792;

/// What the front of some bytes says as a padding length.
#[derive(Clone, Copy, Debug, PartialEq, Eq)]
pub enum PadRead {
    /// A whole padding length.
    Pad {
        /// Padding bytes and length bytes together, at least 1.
        total: u32,
        /// Bytes that the length itself takes.
        used: usize,
    },
    /// The bytes end before the length does.
    Cut,
    /// No total within the limit goes on so.
    Limit {
        /// Index of the first byte that no length within the limit has.
        place: usize,
    },
}

/// Reads the padding length at the front of `bytes`, and looks at no byte after it.
pub fn read_pad(bytes: &[u8]) -> PadRead
    ensures reads { ReadsPadding bytes.now result }
    ensures exact { result ≡ padding_read bytes.now }
{
    for (place, byte) in bytes.iter().enumerate() {
        if *byte < 255 {
            return PadRead::Pad {
                total: 255 * place as u32 + u32::from(*byte) + 1,
                used: place + 1,
            };
        }
        if place == MOST_FULL {
            return PadRead::Limit { place };
        }
    }
    PadRead::Cut
}

/// A padding total in the parts of its spelling.
#[derive(Clone, Copy, Debug, PartialEq, Eq)]
pub struct PadParts {
    /// How many length bytes 255 stand first.
    pub full: u32,
    /// The last length byte, 0 to 254.
    pub last: u8,
    /// Padding bytes at the packet's end.
    pub data_bytes: u32,
}

/// The parts of a padding total, which counts padding bytes and length bytes together.
pub fn pad_parts(total: u32) -> PadParts
    requires at_least_one { 1 ≤ total }
    requires within_limit { total < padding_limit }
    ensures total { total ≡ 255 * result.full + result.last + 1 }
    ensures last { result.last ≤ 254 }
    ensures data { result.data_bytes ≡ total - result.full - 1 }
{
    let full = (total - 1) / 255;
    PadParts {
        full,
        last: ((total - 1) % 255) as u8,
        data_bytes: total - full - 1,
    }
}

/// Appends the length bytes of a padding total, and no padding bytes.
pub fn write_pad(total: u32, out: &mut Vec<u8>) -> Result<(), NoMemory>
    requires at_least_one { 1 ≤ total }
    requires within_limit { total < padding_limit }
    ensures ok { OnOk result (out.new.items ≡ out.old.items ++ padding_bytes total) }
    ensures err { OnErr result (out.new.items ≡ out.old.items) }
    ensures full { OnErr result
        (vec_capacity out.old < vec_len out.old + length (padding_bytes total)) }
    ensures capacity { vec_capacity out.old ≤ vec_capacity out.new }
{
    let parts = pad_parts(total);
    let full = parts.full as usize;
    out.reserve(full + 1)?;
    out.resize(out.len() + full, 255)?;
    out.push_reserved(parts.last);
    Ok(())
}
