//! A part of some frames, as a packet.
ghost use Rattle.std.specs.Prelude.{◌≡◌, ◌*◌, ◌<◌, ◌≤◌, [], All, length, map, sum};
ghost use Rattle.std.specs.List.{slice_range};
ghost use Rattle.opus_toc.specs.Configuration.{samples_of};
ghost use Rattle.opus_packet.specs.Value.{max_frame, max_duration};
ghost use Rattle.opus_packet.specs.Cut.{cut};
ghost use Rattle.opus_packet.specs.Tail.{kept};
ghost use Rattle.opus_packet.specs.Canonical.{canonical_shape, canonical};

use opus_packet::Packet;

/// The frames `from` to `to - 1` of those that fill `body`.
#[inline(always)]
pub(crate) fn part_of<'a>(
    config: u8,
    stereo: bool,
    body: &'a [u8],
    lens: &'a [u16],
    from: usize,
    to: usize,
) -> Packet<'a>
    requires config { config < 32 }
    requires some { from < to }
    requires within { to ≤ length lens.now }
    requires most { length lens.now ≤ 48 }
    requires each { All (λ n. n ≤ max_frame) lens.now }
    requires whole { sum lens.now ≡ length body.now }
    requires lasts { length lens.now * samples_of config ≤ max_duration }
    ensures config { result.value.config ≡ config }
    ensures stereo { result.value.stereo ≡ stereo }
    ensures frames { result.value.frames ≡ slice_range (cut body.now lens.now) from to }
    ensures shape { result.shape ≡ canonical_shape (map length result.value.frames) }
    ensures size { result.size ≡ length (canonical result.value) }
    ensures tail { result.tail ≡ kept [] }
{
    let start = size_of(&lens[..from]);
    let lens = &lens[from..to];
    let body = &body[start..start + size_of(lens)];
    Packet::of_frames(config, stereo, body, lens)
}

// Bytes of frames with these lengths.
#[inline(always)]
fn size_of(lens: &[u16]) -> usize
    requires { length lens.now ≤ 48 }
    ensures { result ≡ sum lens.now }
{
    lens.iter().map(|&len| usize::from(len)).sum()
}
