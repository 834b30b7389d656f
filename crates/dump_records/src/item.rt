//! What is found out about a record of a capture.
ghost use Rattle.std.specs.Prelude.{◌≡◌};
ghost use Rattle.dump_records.specs.Fits.{ItemFits};

use job_loop::Numbers;
use rec_store::{DumpItem, DumpTold, StoreFault};

/// What stands in a capture.
#[derive(Clone, Copy, Debug, PartialEq, Eq)]
pub enum Found {
    /// A record: when its packet came, and what it holds. The bytes lent with it are the packet's, 65,527 at most.
    Record(DumpItem),
    /// No capture goes on so: its first line goes wrong, or the length of a record. No record follows.
    Bad(StoreFault),
}

/// What is found out about a record.
#[derive(Clone, Copy, Debug, PartialEq, Eq)]
pub struct Item {
    /// How many bytes of the input were there when the record was decided.
    pub place: u64,
    /// What it is.
    pub found: Found,
}

impl Numbers for Item {
    ghost fits = { ItemFits };
}

/// A record that ends at this place.
#[inline(always)]
pub(crate) fn record_at(place: u64, told: DumpTold) -> Item
    ensures { result ≡ record { place = place; found = Found.Record told.item } }
{
    Item {
        place,
        found: Found::Record(told.item),
    }
}

/// Where a capture goes wrong, decided behind so many bytes.
#[cold]
#[inline(never)]
pub(crate) fn bad(place: u64, fault: StoreFault) -> Item
    ensures { result ≡ record { place = place; found = Found.Bad fault } }
{
    Item {
        place,
        found: Found::Bad(fault),
    }
}
