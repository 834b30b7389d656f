//! The job sdp: each line in its printed form (RFC 7587, 6 and 7).
ghost use Rattle.std.specs.Prelude.{◌≡◌, ℕ};

use crate::line::{Line, NoCut};
use crate::print::{are_blank, print_line};
use crate::refusal::{SdpRefusal, fault_place};
use job_loop::{InputEnd, JobStop, Lent, RecordJob};
use opus_io::{Sink, SinkStop, write_all};
use opus_sdp::SdpFault;
use std::alloc::Global;

// What the job answers to a line or to the end.
type Answer = Result<(), JobStop<SdpRefusal>>;

/// Writes each line in its printed form, and passes over lines of blanks alone.
#[derive(Drop)]
pub struct Sdp {
    alloc: Global,
    // How many lines were taken.
    count: u64,
    // The printed line, for which memory is taken once where it serves.
    text: Vec<u8>,
}

impl Sdp {
    ghost use Rattle.text_jobs.specs.Sdp.{sdp_refusal};
    ghost use Rattle.text_jobs.specs.SdpStands.{SdpStands};

    /// The job before its first line.
    pub fn new(alloc: Global) -> Sdp
        ensures { SdpStands result 0 }
    {
        Sdp {
            alloc,
            count: 0,
            text: Vec::new(alloc),
        }
    }

    // The refusal for a fault of the next line.
    fn refuse(&self, line: &Line, fault: SdpFault) -> SdpRefusal
        ensures { (number : ℕ) → SdpStands self.now number → result ≡ sdp_refusal number line.now.start fault }
    {
        SdpRefusal {
            index: self.count,
            place: line.start.saturating_add(fault_place(fault)),
            fault,
        }
    }
}

impl RecordJob<Line, NoCut> for Sdp {
    ghost use Rattle.text_jobs.specs.Sdp.{sdp};
    ghost use Rattle.text_jobs.specs.SdpStands.{SdpStands};

    type Refusal = SdpRefusal;

    ghost Kept = { ℕ };

    ghost meaning = { λ _. sdp };

    ghost stands = { SdpStands };

    ghost lacks = { λ _. Unit {0} };

    fn opening(&self) -> &[u8] {
        &[]
    }

    fn take<O: Sink>(&mut self, item: &Lent<'_, Line>, out: &mut O) -> Answer {
        let line = item.bytes();
        if !are_blank(line) {
            self.text.clear();
            match print_line(self.alloc, line, &mut self.text) {
                Ok(()) => write_all(out, self.text.as_slice())?,
                Err(SdpFault::NoMemory) => return Err(JobStop::Sink(SinkStop::NoMemory)),
                Err(fault) => return Err(JobStop::Refused(self.refuse(item.item(), fault))),
            }
        }
        self.count = self.count.saturating_add(1);
        Ok(())
    }

    fn finish<O: Sink>(&mut self, _: &InputEnd<NoCut>, _: &mut O) -> Answer {
        Ok(())
    }
}
