//! What a record of a capture is to a receiver of one stream.
ghost use Rattle.std.specs.Prelude.{◌≡◌};
ghost use Rattle.rtp_packet.specs.RtpRead.{rtp_value};
ghost use Rattle.rtp_packet.specs.RtpFault.{rtp_fault};
ghost use Rattle.net_jobs.specs.Arrive.{is_chosen, is_wanted, is_packet, stream_of, packet_sort, rtp_sort, record_sort};
ghost use Rattle.net_jobs.specs.Sorts.{sort_value};

use opus_feed::Framing;
use pack_records::lent_packet;
use rec_store::DumpKind;
use rtp_packet::{Rtp, read_rtp};

/// A stream of RTP packets.
#[derive(Clone, Copy, Debug, PartialEq, Eq)]
pub struct Stream {
    /// The payload type, 0 to 127.
    pub payload_type: u8,
    /// The source.
    pub ssrc: u32,
}

/// Which streams may be chosen: None allows any.
#[derive(Clone, Copy, Debug, PartialEq, Eq)]
pub struct Asked {
    /// The payload type, 0 to 127.
    pub payload_type: Option<u8>,
    /// The source.
    pub ssrc: Option<u32>,
}

/// What a record is that is passed over.
#[derive(Clone, Copy, Debug, PartialEq, Eq)]
pub(crate) enum Passed {
    /// A packet of RTCP.
    Rtcp,
    /// A packet that was cut when it was recorded.
    Cut,
    /// No RTP packet, or one whose payload is no Opus packet.
    Bad,
    /// A packet of another stream.
    Other,
}

/// What a record is.
#[derive(Clone, Copy, Debug, PartialEq, Eq)]
pub(crate) enum Sort<'a> {
    /// None that arrives.
    Passed(Passed),
    /// A packet of the stream.
    Arrival(Rtp<'a>),
}

/// The stream of a packet.
pub(crate) fn stream_of(packet: Rtp<'_>) -> Stream
    ensures { result ≡ stream_of (rtp_value packet.entry) }
{
    Stream {
        payload_type: packet.payload_type,
        ssrc: packet.ssrc,
    }
}

/// What a record is whose packet has these bytes, where this stream was chosen before.
#[tactic(auto, unfolding(crate::specs::Arrive::record_sort))]
pub(crate) fn sort_record<'a>(
    asked: Asked,
    chosen: Option<Stream>,
    kind: DumpKind,
    bytes: &'a [u8],
) -> Sort<'a>
    ensures { sort_value result ≡ record_sort asked chosen kind bytes.now }
{
    match kind {
        DumpKind::Rtcp => Sort::Passed(Passed::Rtcp),
        DumpKind::Cut => Sort::Passed(Passed::Cut),
        DumpKind::Rtp => sort_rtp(asked, chosen, bytes),
    }
}

fn sort_rtp<'a>(asked: Asked, chosen: Option<Stream>, bytes: &'a [u8]) -> Sort<'a>
    ensures { sort_value result ≡ rtp_sort asked chosen bytes.now (rtp_fault bytes.now) }
{
    match read_rtp(bytes) {
        Ok(packet) => sort_packet(asked, chosen, packet),
        Err(_) => Sort::Passed(Passed::Bad),
    }
}

fn sort_packet<'a>(asked: Asked, chosen: Option<Stream>, packet: Rtp<'a>) -> Sort<'a>
    ensures { sort_value result ≡ packet_sort asked chosen (rtp_value packet.entry) }
{
    if !is_wanted(asked, chosen, stream_of(packet)) {
        return Sort::Passed(Passed::Other);
    }
    if is_packet(packet.payload) {
        Sort::Arrival(packet)
    } else {
        Sort::Passed(Passed::Bad)
    }
}

// Whether a packet of this stream is taken.
fn is_wanted(asked: Asked, chosen: Option<Stream>, stream: Stream) -> bool
    ensures { result ≡ is_wanted asked chosen stream }
{
    asked
        .payload_type
        .is_none_or(|asked| asked == stream.payload_type)
        && asked.ssrc.is_none_or(|asked| asked == stream.ssrc)
        && is_chosen(chosen, stream)
}

// Whether this is the stream that was chosen, if one was.
fn is_chosen(chosen: Option<Stream>, stream: Stream) -> bool
    ensures { result ≡ is_chosen chosen stream }
{
    match chosen {
        Some(chosen) => chosen.payload_type == stream.payload_type && chosen.ssrc == stream.ssrc,
        None => true,
    }
}

// Whether a payload is one undelimited packet (RFC 7587, 4.2).
fn is_packet(payload: &[u8]) -> bool
    ensures { result ≡ is_packet payload.now }
{
    lent_packet(Framing::Whole, payload).is_some()
}
