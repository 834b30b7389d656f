//! How many channels a mapping family allows.
ghost use Rattle.std.specs.Prelude.{◌≡◌};
ghost use Rattle.opus_head.specs.ChannelCount.{is_channel_count, is_ambisonic_count};

// The squares of 1 to 15, and two more than each: ambisonic channels, and two that aren't.
const AMBISONIC_COUNTS: [u8; 30] = [
    1, 3, 4, 6, 9, 11, 16, 18, 25, 27, 36, 38, 49, 51, 64, 66, 81, 83, 100, 102, 121, 123, 144,
    146, 169, 171, 196, 198, 225, 227,
];

/// Whether heads of a family can have so many channels, which are at least 1.
pub(crate) fn is_channel_count(family: u8, channels: u8) -> bool
    ensures { result ≡ is_channel_count family channels }
{
    match family {
        0 => channels <= 2,
        1 => channels <= 8,
        2 | 3 => is_ambisonic_count(channels),
        _ => true,
    }
}

// Whether an ambisonic family can have so many (RFC 8486, 3.1).
fn is_ambisonic_count(channels: u8) -> bool
    ensures { result ≡ is_ambisonic_count channels }
{
    AMBISONIC_COUNTS.contains(&channels)
}
