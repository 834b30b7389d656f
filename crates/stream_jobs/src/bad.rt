//! Why a record that holds no multistream packet is refused, or one whose padding bytes aren't kept.
ghost use Rattle.std.specs.Prelude.{◌≡◌};
ghost use Rattle.job_ends.specs.Refusal.{refusal_of};
ghost use Rattle.stream_jobs.specs.Bad.{fault_why, long_why, bad_place};
ghost use Rattle.stream_jobs.specs.declared.refusal.StreamWhy.TheVariants as why;

use crate::refusal::{StreamRefusal, StreamWhy};
use opus_packet::Fault;

/// Why a record of so many streams is refused of which this one doesn't read.
pub(crate) fn fault_why(streams: u8, stream: u8, fault: Fault) -> StreamWhy
    ensures { result ≡ fault_why streams stream fault }
{
    if streams == 1 {
        StreamWhy::Fault(fault)
    } else {
        StreamWhy::StreamFault { stream, fault }
    }
}

/// Why a record of so many streams is refused of which this one has more padding bytes than are kept.
pub(crate) fn long_why(streams: u8, stream: u8) -> StreamWhy
    ensures { result ≡ long_why streams stream }
{
    if streams == 1 {
        StreamWhy::PaddingLong
    } else {
        StreamWhy::StreamPaddingLong(stream)
    }
}

/// The place of a fault in the input, where its packet begins at `start`.
pub(crate) fn bad_place(start: u64, fault: Fault) -> u64
    ensures { result ≡ bad_place start fault }
{
    start.saturating_add(fault.place)
}

/// The refusal for a record of so many streams of which this one doesn't read.
#[cold]
pub(crate) fn broken(
    number: u64,
    streams: u8,
    stream: u8,
    start: u64,
    fault: Fault,
) -> StreamRefusal
    ensures { result ≡ refusal_of number (bad_place start fault) (fault_why streams stream fault) }
{
    StreamRefusal::new(
        number,
        bad_place(start, fault),
        fault_why(streams, stream, fault),
    )
}

/// The refusal for a record of which this stream is the first that lasts other than stream 0.
#[cold]
pub(crate) fn unequal(number: u64, stream: u8, start: u64) -> StreamRefusal
    ensures { result ≡ refusal_of number start (why.Unequal stream) }
{
    StreamRefusal::new(number, start, StreamWhy::Unequal(stream))
}
