//! Lists that are filled where they lie.
ghost use Rattle.std.specs.Prelude.{◌≡◌, ◌+◌, ◌≤◌, ◌++◌, length, take};

use opus_packet::Lens;

/// Most frames of a packet: 120 ms in frames of 2.5 ms (RFC 6716, 3.2.5).
pub(crate) const MAX_FRAMES: usize = 48;

/// Puts `more` behind the first `at` bytes.
#[inline(always)]
pub(crate) fn put(bytes: &mut [u8], at: usize, more: &[u8])
    requires { at + length more.now ≤ length bytes.old }
    ensures put { take (at + length more.now) bytes.new ≡ take at bytes.old ++ more.now }
    ensures size { length bytes.new ≡ length bytes.old }
{
    bytes[at..at + more.len()].copy_from_slice(more);
}

/// Puts `more` behind the first `at` lengths, and says how many there are then.
#[inline(always)]
pub(crate) fn put_lens(lens: &mut [u16; MAX_FRAMES], at: usize, more: Lens<'_>) -> usize
    requires { at + length more ≤ 48 }
    ensures count { result ≡ at + length more.entry }
    ensures put { take result lens.new ≡ take at lens.old ++ more.entry }
{
    let mut count = at;
    for len in more {
        lens[count] = len;
        count += 1;
    }
    count
}
