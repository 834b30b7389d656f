//! A capture as an input of records.
ghost use Rattle.std.specs.Prelude.{◌≡◌, ◌+◌, ◌<◌, ◌≤◌, List, [], length, IfOk, vec_capacity};
ghost use Rattle.opus_io.specs.Reader.{max_input};
ghost use Rattle.dump_records.specs.Wants.{Wants};
ghost use Rattle.dump_records.specs.declared.mode.Mode.TheVariants as modes;

mod steps;

use crate::item::{Found, Item};
use crate::mode::Mode;
use job_loop::{Close, Fed, Form, Lent};
use opus_io::NoMemory;
use rec_store::StoreFault;
use std::alloc::Global;

// Bytes of the longest record, the eight before its packet's included.
const MOST: usize = 65_535;

/// The records of a capture in the rtpdump layout: a first line, a head of 16 bytes, and records, each of which has its
/// length, its packet's length, an offset in milliseconds and bytes.
///
/// A record that lies whole in what is fed is lent from there, any other from memory that `new` takes.
#[derive(Drop)]
pub struct DumpForm {
    mode: Mode,
    // Of the first line, or of the head: how many bytes came.
    seen: usize,
    // Of a record that is read in pieces: where it starts, how many bytes it has, and those that came.
    start: u64,
    want: usize,
    kept: Vec<u8>,
    // Of the record that stands: what it is, and how many bytes its packet has.
    item: Item,
    size: usize,
    ghost line: { seen ≤ 255 },
    ghost head: { mode ≡ modes.Head → seen < 16 },
    ghost first: { mode ≡ modes.First → length kept.items ≡ 1 },
    ghost part: { mode ≡ modes.Part → Wants want kept.items },
    ghost room: { 65535 ≤ vec_capacity kept },
}

impl DumpForm {
    ghost use Rattle.dump_records.specs.DumpForm.{DumpStands};

    /// A form that was fed nothing. It takes all memory that it needs: 65,535 bytes.
    pub fn new(alloc: Global) -> Result<DumpForm, NoMemory>
        ensures { IfOk result (λ f. DumpStands f [] []) }
    {
        Ok(DumpForm {
            mode: Mode::Line,
            seen: 0,
            start: 0,
            want: 2,
            kept: Vec::with_capacity(alloc, MOST)?,
            item: Item {
                place: 0,
                found: Found::Bad(StoreFault::StoreCut(0)),
            },
            size: 0,
        })
    }
}

impl Form for DumpForm {
    ghost use Rattle.dump_records.specs.Capture.{DumpSettles, DumpEnds};
    ghost use Rattle.dump_records.specs.CaptureLaws.{dump_grows, dump_ends_grow, dump_ends_once};
    ghost use Rattle.dump_records.specs.DumpForm.{DumpStands, IsReady, shown_by};
    ghost use Rattle.dump_records.specs.Settled.{dump_settled};

    type Record = Item;

    type Cut = StoreFault;

    ghost Layout = { Unit {0} };

    ghost layout = { λ _. tt };

    ghost settles = { λ _. DumpSettles };

    ghost ends = { λ _. DumpEnds };

    ghost place = { λ r. r.item.place };

    ghost stands = { DumpStands };

    ghost current = { shown_by };

    ghost ready = { IsReady };

    ghost lacks = { λ _. ⊥ };

    #[inline(always)]
    fn feed(&mut self, at: u64, piece: &[u8]) -> Result<Fed, NoMemory> {
        match self.mode {
            Mode::Fresh | Mode::Kept if piece.len() >= 2 => Ok(self.front(at, piece)),
            Mode::Fresh | Mode::Kept => Ok(self.first(at, piece)),
            Mode::First => Ok(self.second(at, piece)),
            Mode::Part => Ok(self.more(at, piece)),
            Mode::Line => Ok(self.more_line(at, piece)),
            Mode::Head => Ok(self.more_head(piece)),
            Mode::Bad => Ok(Fed {
                count: piece.len(),
                whole: false,
            }),
        }
    }

    #[inline(always)]
    fn record<'a>(&'a self, own: &'a [u8]) -> Lent<'a, Item> {
        let bytes = match self.mode {
            Mode::Fresh => &own[8..8 + self.size],
            Mode::Kept => &self.kept[8..8 + self.size],
            _ => &own[..0],
        };
        Lent::new(&self.item, bytes)
    }

    fn end(&mut self, at: u64) -> Close<StoreFault> {
        Close {
            whole: false,
            cut: if self.mode.is_within() {
                Some(StoreFault::StoreCut(at))
            } else {
                None
            },
        }
    }

    ghost settled = { λ s h rs stands. dump_settled s h rs stands };

    ghost grows = { λ _. dump_grows };

    ghost ends_grow = { λ _. dump_ends_grow };

    ghost ends_once = { λ _. dump_ends_once };
}
