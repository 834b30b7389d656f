//! Why a capture is refused.
ghost use Rattle.std.specs.Prelude.{◌≡◌};
ghost use Rattle.net_jobs.specs.CaptureRefusal.{fault_place, fault_text, TellsCapture};

use arrayvec::ArrayString;
use job_ends::{Told, text_of};
use opus_words::JobFault;
use rec_store::StoreFault;

/// A refused capture. Its text is made at the end of the run alone.
#[derive(Clone, Copy, Debug, PartialEq, Eq)]
pub struct CaptureRefusal {
    /// How many records were taken before.
    pub index: u64,
    /// Where the capture goes wrong or ends, and why.
    pub fault: StoreFault,
}

impl Told for CaptureRefusal {
    ghost tells = { TellsCapture };

    #[cold]
    #[inline(never)]
    fn fault(self) -> JobFault {
        JobFault {
            index: self.index,
            place: fault_place(self.fault),
            text: fault_text(self.fault),
        }
    }
}

fn fault_place(fault: StoreFault) -> u64
    ensures { result ≡ fault_place fault }
{
    match fault {
        StoreFault::StoreCut(place) => place,
        StoreFault::DumpLine(place) => place,
        StoreFault::DumpLength(place) => place,
    }
}

fn fault_text(fault: StoreFault) -> ArrayString<64>
    ensures { result.bytes ≡ fault_text fault }
{
    match fault {
        StoreFault::StoreCut(_) => text_of("store cut"),
        StoreFault::DumpLine(_) => text_of("dump line"),
        StoreFault::DumpLength(_) => text_of("dump length"),
    }
}
