//! An undelimited packet (RFC 6716, 3.2) as the payload of a record.
ghost use Rattle.std.specs.Prelude.{◌≡◌};
ghost use Rattle.opus_feed.specs.declared.framing.Framing.TheVariants.{Whole as WholeFraming};

use crate::item::Item;
use crate::payload::PayloadReader;
use crate::piece_taken::PieceTaken;
use crate::pieces::Pieces;
use job_loop::Lent;
use opus_feed::{Framing, Padding};
use opus_io::NoMemory;
use std::alloc::Global;

/// Reads payloads that are undelimited packets. One that lies whole in its kept form is lent from where it lies, any
/// other from memory that `new` takes.
#[derive(Drop)]
pub struct Undelimited {
    pieces: Pieces,
    ghost framing: { pieces.framing ≡ WholeFraming },
}

impl Undelimited {
    ghost use Rattle.std.specs.Prelude.{◌≡◌, [], IfOk};
    ghost use Rattle.pack_records.specs.Pieces.{PieceStands};

    /// No byte came.
    pub(crate) fn new(alloc: Global, padding: Padding) -> Result<Undelimited, NoMemory>
        ensures stands { IfOk result (λ p. PieceStands p.pieces []) }
        ensures padding { IfOk result (λ p. p.pieces.padding ≡ padding) }
    {
        Ok(Undelimited {
            pieces: Pieces::new(alloc, Framing::Whole, padding)?,
        })
    }
}

impl PayloadReader for Undelimited {
    ghost use Rattle.opus_feed.specs.declared.padding.Padding.{Padding};
    ghost use Rattle.pack_records.specs.Raw.{RawSettles};
    ghost use Rattle.pack_records.specs.RawLaws.{raw_says};
    ghost use Rattle.pack_records.specs.Undelimited.{packet_reading};
    ghost use Rattle.pack_records.specs.UndelimitedLaws.{packet_lawful};

    type Record = Item;

    ghost Layout = { Padding };

    ghost reads = { packet_reading };

    ghost settles = { λ _. RawSettles };

    #[inline(always)]
    fn here(&mut self, start: u64, range: u32, before: usize, own: &[u8]) -> bool {
        self.pieces.here(start, range, before, own)
    }

    #[inline(always)]
    fn begin(&mut self, start: u64) {
        self.pieces.begin();
    }

    #[inline(always)]
    fn take(&mut self, start: u64, range: u32, at: u64, piece: &[u8]) -> Option<usize> {
        match self.pieces.take(start, range, at, piece) {
            PieceTaken::More => None,
            // An undelimited packet never ends within a piece.
            PieceTaken::Packet(count) => Some(count),
            PieceTaken::Bad(count) => Some(count),
        }
    }

    #[inline(always)]
    fn end(&mut self, start: u64, range: u32, at: u64) {
        self.pieces.end(start, range, at);
    }

    #[inline(always)]
    fn lose(&mut self, start: u64, range: u32) {
        self.pieces.lose(start, range);
    }

    #[inline(always)]
    fn record<'a>(&'a self, own: &'a [u8]) -> Lent<'a, Item> {
        self.pieces.record(own)
    }

    ghost lawful = { packet_lawful };

    ghost says = { λ _. raw_says };
}
