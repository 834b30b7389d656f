//! The records of a seed, made one after another and lent.
ghost use Rattle.std.specs.Prelude.{◌≡◌, ◌+◌, ◌-◌, ◌^◌, ◌<◌, ◌≤◌, IfOk, vec_capacity};
ghost use Rattle.opus_make.specs.Generated.{StandsFor};
ghost use Rattle.opuspack.specs.Made.{IsMade, made_bytes, made_shown};

use job_loop::{Lent, Numbers};
use opus_io::NoMemory;
use opus_make::Maker;
use std::alloc::Global;

// The most bytes of a record: 97 of a header, 48 frames of at most 299, and 6 of padding.
const MOST: usize = 14_455;

/// A made record.
#[derive(Clone, Copy, Debug, PartialEq, Eq)]
pub(crate) struct MadeRecord {
    /// What it is made from.
    pub(crate) seed: u32,
    /// Its number among the records of the seed, from 0.
    pub(crate) number: u32,
}

impl Numbers for MadeRecord {
    ghost fits = { IsMade };
}

/// Makes the records of a seed, one after another, in memory that is taken once.
#[derive(Drop)]
pub(crate) struct MadeRecords {
    maker: Maker,
    // How many records were made.
    count: u32,
    // The last one, and its bytes.
    item: MadeRecord,
    payload: Vec<u8>,
    ghost stands: { StandsFor maker item.seed count },
    ghost room: { 14455 ≤ vec_capacity payload },
}

impl MadeRecords {
    /// No record was made yet. All memory is taken here.
    pub(crate) fn new(alloc: Global, seed: u32) -> Result<MadeRecords, NoMemory>
        ensures seed { IfOk result (λ m. m.item.seed ≡ seed) }
        ensures count { IfOk result (λ m. m.count ≡ 0) }
    {
        Ok(MadeRecords {
            maker: Maker::new(seed),
            count: 0,
            item: MadeRecord { seed, number: 0 },
            payload: Vec::with_capacity(alloc, MOST)?,
        })
    }

    /// Makes the next record.
    pub(crate) fn next(&mut self)
        requires { self.old.count < 2 ^ 32 - 1 }
        ensures count { self.new.count ≡ self.old.count + 1 }
        ensures seed { self.new.item.seed ≡ self.old.item.seed }
        ensures number { self.new.item.number ≡ self.old.count }
        ensures payload { self.new.payload.items ≡ made_bytes self.old.item.seed self.old.count }
    {
        self.payload.clear();
        self.maker.next(&mut self.payload).unwrap();
        self.item.number = self.count;
        self.count += 1;
    }

    /// The record that was made last.
    pub(crate) fn record(&self) -> Lent<'_, MadeRecord>
        ensures item { result.item ≡ self.now.item }
        ensures bytes { result.bytes ≡ self.now.payload.items }
    {
        Lent::new(&self.item, self.payload.as_slice())
    }
}
