//! What is wrong with a line, and where.
use opus_io::NoMemory;

/// Why a line isn't one: its first fault from left to right. A place is an index from the line's first byte.
#[derive(Clone, Copy, Debug, PartialEq, Eq)]
pub enum SdpFault {
    /// The line doesn't begin as one of this kind. Its place is 0.
    Prefix,
    /// No number from 0 to 127 follows, or neither a blank nor the end comes behind it. Where it is to begin.
    PayloadType(u64),
    /// The codec isn't `opus/48000/2`. Where the payload type's digits end.
    Codec(u64),
    /// A parameter has no `=`, or no name in front of it that is one. The parameter's first byte.
    Name(u64),
    /// A parameter before it has the same name, letters in any case. The parameter's first byte.
    Repeat(u64),
    /// The name is known, and doesn't allow the value. The value's first byte, or the parameter's end where it is
    /// empty.
    Value(u64),
    /// There was no memory for the parameters.
    NoMemory,
}

impl From<NoMemory> for SdpFault {
    ghost use Rattle.std.specs.Prelude.{◌≡◌};
    ghost use Rattle.opus_sdp.specs.declared.fault.SdpFault.TheVariants.{NoMemory as OutOfMemory};

    ghost from_gives = { λ _ fault. fault ≡ OutOfMemory };

    fn from(_: NoMemory) -> SdpFault {
        SdpFault::NoMemory
    }
}
