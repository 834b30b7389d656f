//! Why a job over packets of several streams refuses an input, in numbers, and the text of it.
ghost use Rattle.std.specs.Prelude.{◌≡◌, ◌≤◌, ◌+◌, ◌++◌, length};
ghost use Rattle.arrayvec.specs.ArrayString.{array_string_len};
ghost use Rattle.stream_jobs.specs.Refusal.{why_text, stream_text};

use arrayvec::ArrayString;
use job_ends::{Answer, CutReason, Reason, Refusal, text_of};
use opus_packet::Fault;
use pack_jobs::{decimal_text, fault_text};
use pack_records::Cut;

/// Why an input is refused. A stream is told by its index in its packet, from 0.
#[derive(Clone, Copy, Debug, PartialEq, Eq)]
pub enum StreamWhy {
    /// A record holds no packet of one stream, for this fault.
    Fault(Fault),
    /// A record holds no multistream packet: this is the first stream that doesn't read, and its fault.
    StreamFault { stream: u8, fault: Fault },
    /// The packet of this stream is the first that doesn't last as long as that of stream 0.
    Unequal(u8),
    /// Of the records of a group one is lost, and another is not.
    LostPart,
    /// The input ends where a group has too few records.
    ShortGroup,
    /// The store ends within a record.
    StoreCut,
    /// A packet of one stream has more padding bytes than are kept: 65,535.
    PaddingLong,
    /// The packet of this stream has.
    StreamPaddingLong(u8),
}

/// A refused input of packets of several streams.
pub type StreamRefusal = Refusal<StreamWhy>;

/// What a job over packets of several streams answers.
pub(crate) type StreamAnswer = Answer<StreamWhy>;

impl Reason for StreamWhy {
    ghost words = { why_text };

    fn text(self) -> ArrayString<64> {
        match self {
            StreamWhy::Fault(fault) => fault_text(fault),
            StreamWhy::StreamFault { stream, fault } => {
                let mut text = stream_text("", stream, " ");
                text.push_str(fault_text(fault).as_str());
                text
            }
            StreamWhy::Unequal(stream) => stream_text("unequal ", stream, ""),
            StreamWhy::LostPart => text_of("lost part"),
            StreamWhy::ShortGroup => text_of("short group"),
            StreamWhy::StoreCut => text_of("store cut"),
            StreamWhy::PaddingLong => text_of("padding long"),
            StreamWhy::StreamPaddingLong(stream) => stream_text("", stream, " padding long"),
        }
    }
}

impl CutReason<Cut> for StreamWhy {
    ghost use Rattle.stream_jobs.specs.Refusal.{cut_refusal};

    ghost cut_refusal = { cut_refusal };

    fn cut(index: u64, cut: &Cut) -> StreamRefusal {
        StreamRefusal::new(index, cut.place, StreamWhy::StoreCut)
    }
}

// The words that name a stream, between others.
fn stream_text(before: &str, stream: u8, behind: &str) -> ArrayString<64>
    requires before { length before.now ≤ 8 }
    requires behind { length behind.now ≤ 13 }
    ensures text { result.bytes ≡ before.now ++ stream_text stream ++ behind.now }
    ensures most { array_string_len result ≤ length before.now + length behind.now + 27 }
{
    let mut text = text_of(before);
    text.push_str("stream ");
    text.push_str(decimal_text(u64::from(stream)).as_str());
    text.push_str(behind);
    text
}
