//! The bytes that frames are cut from.
ghost use Rattle.std.specs.Prelude.{◌≡◌};
ghost use Rattle.opus_make.specs.Ramp.{ramp_bytes};

/// Bytes that any frame is a part of: there are at most 48 frames of at most 299 bytes.
pub(crate) const RAMP_LEN: usize = 347;

/// The numbers from 0 on, modulo 256.
pub(crate) fn ramp() -> [u8; RAMP_LEN]
    ensures { result ≡ ramp_bytes }
{
    let mut bytes = [0; RAMP_LEN];
    for i in 0..RAMP_LEN {
        bytes[i] = (i % 256) as u8;
    }
    bytes
}
