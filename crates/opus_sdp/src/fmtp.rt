//! What the two lines say.
use crate::Params;

/// What an `a=rtpmap:` line of Opus says.
#[derive(Clone, Copy, Debug, PartialEq, Eq)]
pub struct Rtpmap {
    /// The RTP payload type, 0 to 127.
    pub payload_type: u8,
}

/// What an `a=fmtp:` line of Opus says (RFC 7587, 6.1). A parameter that the line doesn't have is None.
#[derive(Drop)]
pub struct Fmtp {
    /// The RTP payload type, 0 to 127.
    pub payload_type: u8,
    /// `maxplaybackrate`: the highest sampling rate that the receiver plays, 8000 to 48,000 Hz.
    pub max_playback_rate: Option<u32>,
    /// `sprop-maxcapturerate`: the highest sampling rate that the sender captures, 8000 to 48,000 Hz.
    pub max_capture_rate: Option<u32>,
    /// `maxaveragebitrate`: 6000 to 510,000 bits per second.
    pub max_average_bitrate: Option<u32>,
    /// `stereo`: the receiver prefers stereo.
    pub stereo: Option<bool>,
    /// `sprop-stereo`: the sender is likely to send stereo.
    pub sprop_stereo: Option<bool>,
    /// `cbr`: the receiver prefers a constant bit rate.
    pub cbr: Option<bool>,
    /// `useinbandfec`: the receiver makes use of forward error correction in packets.
    pub in_band_fec: Option<bool>,
    /// `usedtx`: the receiver prefers discontinuous transmission.
    pub dtx: Option<bool>,
    /// All other parameters, in the order of the line.
    pub others: Params,
}
