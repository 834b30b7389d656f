//! Self-delimited packets one after another (RFC 6716, Appendix B).
ghost use Rattle.std.specs.Prelude.{◌≡◌, ◌+◌, ◌<◌, ◌≤◌, ℕ, List, [], ◌++◌, true, false, length, take, IfOk};
ghost use Rattle.opus_io.specs.Reader.{max_input};
ghost use Rattle.job_loop.specs.Shown.{Shown};
ghost use Rattle.opus_feed.specs.declared.framing.Framing.TheVariants.{SelfDelimited};
ghost use Rattle.opus_feed.specs.declared.padding.Padding.{Padding as PaddingChoice};
ghost use Rattle.pack_records.specs.declared.self_form.Mode.TheVariants.{Within as WithinMode};
ghost use Rattle.pack_records.specs.Pieces.{shown_by, PieceStands, IsReady};
ghost use Rattle.pack_records.specs.Framed.{SelfSettles, SelfEnds, SelfStands, HasRead};
ghost use Rattle.pack_records.specs.FramedLaws.{self_settled, self_grows, self_ends_grow, self_ends_once};

use crate::cut::Cut;
use crate::item::Item;
use crate::piece_taken::PieceTaken;
use crate::pieces::Pieces;
use job_loop::{Close, Fed, Form, Lent};
use opus_feed::{Framing, Padding};
use opus_io::NoMemory;
use std::alloc::Global;

/// Where a form of self-delimited packets stands.
#[derive(Clone, Copy)]
pub(crate) enum Mode {
    /// Behind a packet, or at the first byte.
    Fresh,
    /// Within a packet.
    Within,
    /// Behind bytes that no packet begins with: nothing behind them is read.
    Over,
}

/// Self-delimited packets one after another, up to the first bytes that no packet begins with. Their fault is decided
/// by the very byte behind which no packet can follow; the bytes behind that one are passed over. A packet that isn't
/// whole where the input ends is a record of its own, with its fault.
#[derive(Drop)]
pub struct SelfForm {
    pieces: Pieces,
    // The place of the first byte of the packet that was begun.
    start: u64,
    mode: Mode,
    ghost framing_is: { pieces.framing ≡ SelfDelimited },
}

impl SelfForm {
    /// No byte came. All memory is taken here.
    ///
    /// # Errors
    ///
    /// No memory.
    pub fn new(alloc: Global, padding: Padding) -> Result<SelfForm, NoMemory>
        ensures stands { IfOk result (λ f. SelfStands f.mode f.pieces f.start [] []) }
        ensures padding { IfOk result (λ f. f.pieces.padding ≡ padding) }
    {
        Ok(SelfForm {
            pieces: Pieces::new(alloc, Framing::SelfDelimited, padding)?,
            start: 0,
            mode: Mode::Fresh,
        })
    }

    // Begins with a packet that doesn't lie whole in `piece` in its kept form.
    #[cold]
    #[inline(never)]
    fn begin(&mut self, at: u64, piece: &[u8]) -> Fed
        requires some { 0 < length piece.now }
        requires fits { at + length piece.now ≤ max_input }
        ensures some { 1 ≤ result.count }
        ensures most { result.count ≤ length piece.now }
        ensures padding { self.new.pieces.padding ≡ self.old.pieces.padding }
        ensures read { HasRead self.new.mode self.new.pieces self.new.start at (take result.count piece.now)
            (take result.count piece.now) result.whole }
        ensures ready { result.whole ≡ true → IsReady self.new.pieces (take result.count piece.now) }
    {
        self.pieces.begin();
        self.start = at;
        self.mode = Mode::Within;
        self.go_on(at, piece)
    }

    // Goes on with the packet that was begun.
    #[cold]
    #[inline(never)]
    fn go_on(&mut self, at: u64, piece: &[u8]) -> Fed
        requires some { 0 < length piece.now }
        requires fits { at + length piece.now ≤ max_input }
        requires mode { self.old.mode ≡ WithinMode }
        ensures some { 1 ≤ result.count }
        ensures most { result.count ≤ length piece.now }
        ensures padding { self.new.pieces.padding ≡ self.old.pieces.padding }
        ensures read { (rest : List ℕ) → PieceStands self.old.pieces rest → self.old.start + length rest ≡ at
            → HasRead self.new.mode self.new.pieces self.new.start self.old.start (rest ++ take result.count piece.now)
            (take result.count piece.now) result.whole }
        ensures ready { result.whole ≡ true → IsReady self.new.pieces (take result.count piece.now) }
    {
        match self.pieces.take(self.start, 0, at, piece) {
            PieceTaken::More => Fed {
                count: piece.len(),
                whole: false,
            },
            PieceTaken::Packet(count) => {
                self.mode = Mode::Fresh;
                Fed { count, whole: true }
            }
            PieceTaken::Bad(count) => {
                self.mode = Mode::Over;
                Fed { count, whole: true }
            }
        }
    }
}

impl Form for SelfForm {
    type Record = Item;

    type Cut = Cut;

    ghost Layout = { PaddingChoice };

    ghost layout = { λ f. f.pieces.padding };

    ghost settles = { SelfSettles };

    ghost ends = { SelfEnds };

    ghost place = { λ r. r.item.place };

    ghost stands = { λ f. SelfStands f.mode f.pieces f.start };

    ghost current = { λ f own. shown_by f.pieces own };

    ghost ready = { λ f own. IsReady f.pieces own };

    ghost lacks = { λ _. ⊥ };

    #[inline(always)]
    fn feed(&mut self, at: u64, piece: &[u8]) -> Result<Fed, NoMemory> {
        match self.mode {
            Mode::Fresh => match self.pieces.here_first(at, piece) {
                Some(count) => Ok(Fed { count, whole: true }),
                None => Ok(self.begin(at, piece)),
            },
            Mode::Within => Ok(self.go_on(at, piece)),
            Mode::Over => Ok(Fed {
                count: piece.len(),
                whole: false,
            }),
        }
    }

    #[inline(always)]
    fn record<'a>(&'a self, own: &'a [u8]) -> Lent<'a, Item> {
        self.pieces.record(own)
    }

    fn end(&mut self, at: u64) -> Close<Cut> {
        let whole = match self.mode {
            Mode::Within => {
                self.pieces.end(self.start, 0, at);
                true
            }
            Mode::Fresh | Mode::Over => false,
        };
        Close { whole, cut: None }
    }

    ghost settled = { λ f h rs stands. self_settled f.mode f.pieces f.start h rs stands };

    ghost grows = { self_grows };

    ghost ends_grow = { self_ends_grow };

    ghost ends_once = { self_ends_once };
}
