//! The packets of a multistream packet's streams, one after another (RFC 7845, section 3).
ghost use Rattle.std.specs.Prelude.{◌≡◌, ◌≤◌, ◌∷◌, [], None, IfSome, length, drop, slice_get};
ghost use Rattle.std.specs.Option.{option_map};
ghost use Rattle.stream_jobs.specs.StreamsIn.{framing_before, first_size, first_value, streams_in};

use opus_packet::{Packet, decode};
use opus_self::{SelfRead, decode_self};
use std::marker::Model;

/// The packets of the streams whose packets stand in some bytes: self-delimited ones, and then an undelimited one. They
/// borrow from the bytes, and nothing is copied.
#[derive(Drop)]
pub(crate) struct StreamPackets<'a> {
    // How many are left.
    left: u8,
    // Their bytes.
    rest: &'a [u8],
}

impl<'a> Model for StreamPackets<'a> {
    ghost use Rattle.std.specs.Prelude.{List};
    ghost use Rattle.opus_packet.specs.Value.{PacketValue};
    ghost use Rattle.stream_jobs.specs.StreamsIn.{streams_in};

    ghost Value = { List PacketValue };

    ghost view = { λ s. streams_in s.left s.rest.now };
}

impl<'a> StreamPackets<'a> {
    /// The packets of so many streams.
    pub(crate) fn new(streams: u8, bytes: &'a [u8]) -> StreamPackets<'a>
        ensures { result ≡ streams_in streams bytes.now }
    {
        StreamPackets {
            left: streams,
            rest: bytes,
        }
    }

    /// The next packet. There is none behind the last one, nor where the bytes spell none.
    pub(crate) fn next(&mut self) -> Option<Packet<'a>>
        ensures next { IfSome result (λ p. self.old ≡ p.value ∷ self.new) }
        ensures none { result ≡ None → self.old ≡ [] }
    {
        if self.left == 0 {
            return None;
        }
        let behind = self.left - 1;
        match first_stream(behind, self.rest) {
            Some(read) => {
                self.left = behind;
                self.rest = past(self.rest, read.used);
                Some(read.packet)
            }
            None => None,
        }
    }

    /// The packet of this stream, counted from 0.
    pub(crate) fn nth(&mut self, stream: u8) -> Option<Packet<'a>>
        ensures { option_map (λ p. p.value) result ≡ slice_get self.old stream }
    {
        'passed: for _ in 0..stream {
            if self.next().is_none() {
                return None;
            }
        }
        self.next()
    }
}

// The bytes behind the first so many.
#[inline(always)]
fn past(bytes: &[u8], used: usize) -> &[u8]
    requires { used ≤ length bytes.now }
    ensures { result.now ≡ drop used bytes.now }
{
    &bytes[used..]
}

// The packet that stands first in the bytes, of a stream behind which so many stand.
#[inline(always)]
fn first_stream(behind: u8, bytes: &[u8]) -> Option<SelfRead<'_>>
    ensures value { option_map (λ r. r.packet.value) result ≡ first_value (framing_before behind) bytes.now }
    ensures used { IfSome result (λ r. r.used ≡ first_size (framing_before behind) bytes.now) }
    ensures within { IfSome result (λ r. r.used ≤ length bytes.now) }
{
    if behind > 0 {
        return decode_self(bytes).ok();
    }
    match decode(bytes) {
        Ok(packet) => Some(SelfRead {
            packet,
            used: bytes.len(),
        }),
        Err(_) => None,
    }
}
