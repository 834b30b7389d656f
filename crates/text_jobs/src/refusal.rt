//! Why the job sdp refuses an input.
ghost use Rattle.std.specs.Prelude.{◌≡◌};
ghost use Rattle.text_jobs.specs.Telling.{fault_place, sdp_fault_text};

use arrayvec::ArrayString;
use job_ends::{Told, text_of};
use opus_sdp::SdpFault;
use opus_words::JobFault;

/// A refused input of lines.
#[derive(Clone, Copy, Debug, PartialEq, Eq)]
pub struct SdpRefusal {
    /// The line's number, from 0. Lines of blanks count.
    pub index: u64,
    /// The place, in bytes from the input's beginning.
    pub place: u64,
    /// What is wrong there. It is never want of memory.
    pub fault: SdpFault,
}

impl Told for SdpRefusal {
    ghost use Rattle.text_jobs.specs.Sdp.{TellsSdp};

    ghost tells = { TellsSdp };

    #[cold]
    #[inline(never)]
    fn fault(self) -> JobFault {
        JobFault {
            index: self.index,
            place: self.place,
            text: fault_text(self.fault),
        }
    }
}

/// Where a fault points, from the line's first byte.
pub(crate) fn fault_place(fault: SdpFault) -> u64
    ensures { result ≡ fault_place fault }
{
    match fault {
        SdpFault::Prefix | SdpFault::NoMemory => 0,
        SdpFault::PayloadType(place) => place,
        SdpFault::Codec(place) => place,
        SdpFault::Name(place) => place,
        SdpFault::Repeat(place) => place,
        SdpFault::Value(place) => place,
    }
}

fn fault_text(fault: SdpFault) -> ArrayString<64>
    ensures { result.bytes ≡ sdp_fault_text fault }
{
    match fault {
        SdpFault::Prefix => text_of("prefix"),
        SdpFault::PayloadType(_) => text_of("payload type"),
        SdpFault::Codec(_) => text_of("codec"),
        SdpFault::Name(_) => text_of("name"),
        SdpFault::Repeat(_) => text_of("repeat"),
        SdpFault::Value(_) => text_of("value"),
        SdpFault::NoMemory => ArrayString::new(),
    }
}
