//! The first bytes of a store's record: its head, read in registers.
ghost use Rattle.std.specs.Prelude.{◌≡◌, length};
ghost use Rattle.std.specs.Int.{w32, to_be_bytes};
ghost use Rattle.rec_store.specs.DemoStore.{demo_head};

use byteorder::{BigEndian, ByteOrder};
use rec_store::DemoHead;

/// The head that eight bytes spell.
#[inline(always)]
pub(crate) fn head_of(bytes: &[u8]) -> DemoHead
    requires { length bytes.now ≡ 8 }
    ensures { demo_head result.len result.range ≡ bytes.now }
{
    DemoHead {
        len: read_number(&bytes[..4]),
        range: read_number(&bytes[4..]),
    }
}

// The number that four bytes spell.
#[inline(always)]
fn read_number(bytes: &[u8]) -> u32
    requires { length bytes.now ≡ 4 }
    ensures { to_be_bytes w32 result ≡ bytes.now }
{
    BigEndian::read_u32(bytes)
}
