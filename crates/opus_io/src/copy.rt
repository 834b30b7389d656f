//! A copy between two slices, as far as both reach.
ghost use Rattle.std.specs.Prelude.{◌≡◌, ◌<◌, ◌≤◌, [], ◌++◌, take, drop, length};

// Copies as many bytes as both have to the front of `to`, and tells how many.
pub fn copy_front(from: &[u8], to: &mut [u8]) -> usize
    ensures from { result ≤ length from.now }
    ensures to { result ≤ length to.old }
    ensures bytes { from.now ≡ take result to.new ++ drop result from.now }
    ensures end { result ≡ 0 → 0 < length to.old → from.now ≡ [] }
{
    let count = from.len().min(to.len());
    to[..count].copy_from_slice(&from[..count]);
    count
}
