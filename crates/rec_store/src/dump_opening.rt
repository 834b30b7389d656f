//! What stands between the first line of a capture and its records.
ghost use Rattle.std.specs.Prelude.{◌≡◌, length};
ghost use Rattle.rec_store.specs.DumpStore.{IsDumpHead};

use crate::numbers::{read_number, read_short};

/// When and where a capture was made.
#[derive(Clone, Copy, Debug, PartialEq, Eq)]
pub struct DumpHead {
    /// Seconds since 1970, modulo 2^32.
    pub seconds: u32,
    /// Microseconds behind these seconds.
    pub micros: u32,
    /// The address of IPv4 that packets came to.
    pub address: u32,
    /// The port that packets came to.
    pub port: u16,
}

/// How many bytes a capture's head has, two of padding included.
pub const DUMP_HEAD_LEN: usize = 16;

impl DumpHead {
    /// The head that 16 bytes spell.
    pub fn read(bytes: &[u8]) -> DumpHead
        requires { length bytes.now ≡ 16 }
        ensures { IsDumpHead result bytes.now }
    {
        DumpHead {
            seconds: read_number(&bytes[..4]),
            micros: read_number(&bytes[4..8]),
            address: read_number(&bytes[8..12]),
            port: read_short(&bytes[12..14]),
        }
    }
}
