//! What bytes that are no head break, and where.
ghost use Rattle.std.specs.Prelude.{◌≡◌};

use crate::checks::head_size;
use opus_io::NoMemory;

/// Why bytes aren't an OpusHead: the first check that fails, in the order of these variants, where a field that isn't
/// whole comes in place of the check that looks at it.
#[derive(Clone, Copy, Debug, PartialEq, Eq)]
pub enum HeadFault {
    /// The byte at this place isn't that of `OpusHead`.
    Magic(u8),
    /// The bytes end, after so many, inside a field.
    Cut(u64),
    /// The version is above 15.
    Version,
    /// The family doesn't allow this channel count.
    Channels,
    /// There is no stream.
    Streams,
    /// More streams are coupled than there are, or more than 255 channels are decoded.
    Coupled,
    /// The mapping byte of this channel is neither a decoded channel nor silence.
    MapByte(u8),
    /// Bytes follow a head of version 1.
    Extra,
    /// There was no memory for the table or for what follows it.
    NoMemory,
}

impl From<NoMemory> for HeadFault {
    ghost use Rattle.opus_head.specs.declared.fault.HeadFault.TheVariants.{NoMemory as OutOfMemory};

    ghost from_gives = { λ _ fault. fault ≡ OutOfMemory };

    fn from(_: NoMemory) -> HeadFault {
        HeadFault::NoMemory
    }
}

impl HeadFault {
    ghost use Rattle.std.specs.Prelude.{◌≡◌, Some};
    ghost use Rattle.opus_head.specs.HeadFault.{head_fault, fault_place};

    /// Index in `bytes`, which have this fault, of the field that is wrong, of their end, or of the first byte too
    /// many. 0 for want of memory.
    pub fn place(self, bytes: &[u8]) -> u64
        ensures { result ≡ fault_place bytes.now self }
    {
        match self {
            HeadFault::Magic(place) => u64::from(place),
            HeadFault::Cut(place) => place,
            HeadFault::Version => 8,
            HeadFault::Channels => 9,
            HeadFault::Streams => 19,
            HeadFault::Coupled => 20,
            HeadFault::MapByte(channel) => 21 + u64::from(channel),
            HeadFault::Extra => head_size(bytes) as u64,
            HeadFault::NoMemory => 0,
        }
    }
}
