//! Why a job refuses an input, in numbers.
ghost use Rattle.std.specs.Prelude.{◌≡◌};
ghost use Rattle.pack_jobs.specs.Refusal.{refusal_at};

use job_ends::CutReason;
use opus_packet::Fault;
use pack_records::{Cut, Item};

/// Why an input is refused.
#[derive(Clone, Copy, Debug, PartialEq, Eq)]
pub enum Why {
    /// A record holds no packet, for this fault.
    Fault(Fault),
    /// A packet has more padding bytes than are kept: 65,535.
    PaddingLong,
    /// The store ends within a record.
    StoreCut,
    /// A packet has another configuration or other channels than those of its group before it.
    MixedKind,
    /// A packet and those of its group before it last more than 120 ms.
    TooLong,
    /// A packet has no padded form of the size: its canonical form is longer.
    TooSmall,
    /// The padding of a packet's padded form would have 2^24 bytes or more.
    PadLimit,
}

/// A refused input of packets.
pub type Refusal = job_ends::Refusal<Why>;

impl CutReason<Cut> for Why {
    ghost use Rattle.pack_jobs.specs.Refusal.{cut_refusal};

    ghost cut_refusal = { cut_refusal };

    fn cut(index: u64, cut: &Cut) -> Refusal {
        Refusal::new(index, cut.place, Why::StoreCut)
    }
}

/// The refusal for a record of this number that holds no packet, for this fault.
pub fn refusal_at(index: u64, item: &Item, fault: Fault) -> Refusal
    ensures { result ≡ refusal_at index item.now fault }
{
    let place = item.start.saturating_add(fault.place);
    Refusal::new(index, place, Why::Fault(fault))
}
