//! Taking the bytes of a header from a piece.
ghost use Rattle.std.specs.Prelude.{◌≡◌, ℕ, List, ◌≤◌, ◌++◌, ◌∷◌, [], length, take};

use crate::framing::Framing;
use crate::head::Head;
use crate::stage::Stage;

/// What was taken of a piece.
#[derive(Clone, Copy)]
pub(crate) struct Taken {
    /// How far the header was taken.
    pub stage: Stage,
    /// How many bytes.
    pub used: usize,
}

impl Head {
    ghost use Rattle.opus_feed.specs.Stage.{IsOpen};
    ghost use Rattle.opus_feed.specs.Heads.{IsSound, spelling};
    ghost use Rattle.opus_feed.specs.Taking.{IsTaking, TakesOn};

    /// Takes bytes of the header from the front of `piece`.
    #[inline(always)]
    pub fn take(&mut self, framing: Framing, stage: Stage, piece: &[u8]) -> Taken
        requires open { IsOpen stage }
        requires sound { IsSound framing stage self.old }
        ensures sound { IsSound framing result.stage self.new }
        ensures within { result.used ≤ length piece.now }
        ensures spelled { spelling framing result.stage self.new
            ≡ spelling framing stage self.old ++ take result.used piece.now }
        ensures all { IsOpen result.stage → result.used ≡ length piece.now }
    {
        // Where the next byte is known to be of one kind it is taken as that; then any byte is.
        let taken = self.take_first(framing, Taken { stage, used: 0 }, piece);
        let taken = self.take_run(framing, Stage::PadLength, taken, piece);
        let taken = self.take_lengths(framing, taken, piece);
        let mut stage = taken.stage;
        let mut at = taken.used;
        'any: while at < piece.len() && stage.is_open() {
            stage = self.next(framing, stage, piece[at]);
            at += 1;
        }
        Taken { stage, used: at }
    }

    // Takes the TOC byte and the count byte, where these come next.
    #[inline(always)]
    fn take_first(&mut self, framing: Framing, taken: Taken, piece: &[u8]) -> Taken
        requires { IsTaking framing piece.now self.old taken }
        ensures { TakesOn framing piece.now self.old taken self.new result }
    {
        match taken.stage {
            Stage::Toc if taken.used < piece.len() => {
                let stage = self.take_toc(framing, piece[taken.used]);
                let used = taken.used + 1;
                if used < piece.len() {
                    if let Stage::Count = stage {
                        let stage = self.take_count(framing, piece[used]);
                        return Taken {
                            stage,
                            used: used + 1,
                        };
                    }
                }
                Taken { stage, used }
            }
            _ => taken,
        }
    }

    // Takes frame lengths of one byte each, where these come next.
    #[inline(always)]
    fn take_lengths(&mut self, framing: Framing, taken: Taken, piece: &[u8]) -> Taken
        requires { IsTaking framing piece.now self.old taken }
        ensures { TakesOn framing piece.now self.old taken self.new result }
    {
        let taken = self.take_run(framing, Stage::Length, taken, piece);
        match taken.stage {
            Stage::Last if taken.used < piece.len() => Taken {
                stage: self.take_last(piece[taken.used]),
                used: taken.used + 1,
            },
            _ => taken,
        }
    }

    // Takes bytes as long as the next one is of this stage.
    #[inline(always)]
    fn take_run(&mut self, framing: Framing, of: Stage, mut taken: Taken, piece: &[u8]) -> Taken
        requires open { IsOpen of }
        requires taking { IsTaking framing piece.now self.old taken }
        ensures { TakesOn framing piece.now self.old taken self.new result }
    {
        'run: while taken.used < piece.len() && taken.stage == of {
            taken.stage = self.next(framing, of, piece[taken.used]);
            taken.used += 1;
        }
        taken
    }

    // Takes the byte that comes next.
    #[inline(always)]
    fn next(&mut self, framing: Framing, stage: Stage, byte: u8) -> Stage
        requires open { IsOpen stage }
        requires sound { IsSound framing stage self.old }
        ensures sound { IsSound framing result self.new }
        ensures spelled { spelling framing result self.new ≡ spelling framing stage self.old ++ byte ∷ [] }
    {
        match stage {
            Stage::Toc => self.take_toc(framing, byte),
            Stage::Count => self.take_count(framing, byte),
            Stage::PadLength => self.take_padding(framing, byte),
            Stage::Length => self.take_length(framing, byte),
            Stage::LengthEnd => self.end_length(framing, byte),
            Stage::Last => self.take_last(byte),
            Stage::LastEnd => self.end_last(byte),
            Stage::Ready | Stage::BadCount | Stage::BadPadding => stage,
        }
    }
}
