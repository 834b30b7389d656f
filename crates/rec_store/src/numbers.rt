//! Numbers of a store, the highest byte first.
ghost use Rattle.std.specs.Prelude.{◌≡◌, length};
ghost use Rattle.std.specs.Int.{w16, w32, to_be_bytes};

use byteorder::{BigEndian, ByteOrder};

/// The number that two bytes spell.
#[inline(always)]
pub(crate) fn read_short(bytes: &[u8]) -> u16
    requires { length bytes.now ≡ 2 }
    ensures { to_be_bytes w16 result ≡ bytes.now }
{
    BigEndian::read_u16(bytes)
}

/// The number that four bytes spell.
#[inline(always)]
pub(crate) fn read_number(bytes: &[u8]) -> u32
    requires { length bytes.now ≡ 4 }
    ensures { to_be_bytes w32 result ≡ bytes.now }
{
    BigEndian::read_u32(bytes)
}
