//! A byte that gives a length, and so many bytes.
ghost use Rattle.std.specs.Prelude.{◌≡◌, ◌+◌, ◌-◌, true, false, ◌<◌, ◌≤◌, ℕ, List, [], ◌++◌, length, take, drop, min};
ghost use Rattle.opus_io.specs.Reader.{max_input};
ghost use Rattle.job_loop.specs.Shown.{Shown};
ghost use Rattle.job_loop.specs.Samples.{LengthSettles, LengthEnds, LengthStands, lent_from, lent_record};
ghost use Rattle.job_loop.specs.SampleLaws.{length_grows, length_ends_grow, length_ends_once, length_settled};

use job_loop::{Close, Fed, Form, Lent};
use opus_io::NoMemory;

/// Lends a record that lies whole in what it is fed, and keeps one that doesn't.
#[derive(Drop)]
pub struct LengthForm {
    kept: [u8; 256],
    count: usize,
    // How many bytes the record has that is kept; 0 where none is.
    need: usize,
    end: u64,
    ghost within: { count ≤ need },
    ghost most: { need ≤ 256 },
}

impl LengthForm {
    pub fn new() -> LengthForm
        ensures { LengthStands (take result.count result.kept) result.need [] [] }
    {
        LengthForm {
            kept: [0; 256],
            count: 0,
            need: 0,
            end: 0,
        }
    }

    // Keeps more bytes of a record.
    fn keep(&mut self, piece: &[u8])
        requires { self.old.count + length piece.now ≤ self.old.need }
        ensures kept { take self.new.count self.new.kept ≡ take self.old.count self.old.kept ++ piece.now }
        ensures count { self.new.count ≡ self.old.count + length piece.now }
        ensures need { self.new.need ≡ self.old.need }
    {
        self.kept[self.count..self.count + piece.len()].copy_from_slice(piece);
        self.count += piece.len();
    }

    // Goes on with the record that is kept.
    fn go_on(&mut self, at: u64, piece: &[u8]) -> Fed
        requires some { 0 < length piece.now }
        requires open { self.old.count < self.old.need }
        requires fits { at + length piece.now ≤ max_input }
        ensures count { result.count ≡ min (length piece.now) (self.old.need - self.old.count) }
        ensures kept { take self.new.count self.new.kept
            ≡ take self.old.count self.old.kept ++ take result.count piece.now }
        ensures now { self.new.count ≡ self.old.count + result.count }
        ensures need { self.new.need ≡ self.old.need }
        ensures whole { result.whole ≡ true → (self.new.count ≡ self.new.need) × (self.new.end ≡ at + result.count) }
        ensures part { result.whole ≡ false → self.new.count < self.new.need }
    {
        let count = piece.len().min(self.need - self.count);
        self.keep(&piece[..count]);
        let whole = self.count == self.need;
        if whole {
            self.end = at + count as u64;
        }
        Fed { count, whole }
    }
}

impl Form for LengthForm {
    type Record = u64;

    type Cut = u64;

    ghost Layout = { Unit {0} };

    ghost layout = { λ _. tt };

    ghost settles = { λ _. LengthSettles };

    ghost ends = { λ _. LengthEnds };

    ghost place = { λ r. r.item };

    ghost stands = { λ s h rs. LengthStands (take s.count s.kept) s.need h rs };

    ghost current = { λ s own. lent_record s.end s.need (take s.count s.kept) own };

    ghost lacks = { λ _. ⊥ };

    ghost ready = { λ s own. 1 ≤ length (lent_from s.need (take s.count s.kept) own) };

    fn feed(&mut self, at: u64, piece: &[u8]) -> Result<Fed, NoMemory> {
        if self.count < self.need {
            return Ok(self.go_on(at, piece));
        }
        let need = usize::from(piece[0]) + 1;
        self.count = 0;
        if need > piece.len() {
            self.need = need;
            self.keep(piece);
            return Ok(Fed {
                count: piece.len(),
                whole: false,
            });
        }
        self.need = 0;
        self.end = at + need as u64;
        Ok(Fed {
            count: need,
            whole: true,
        })
    }

    fn record<'a>(&'a self, own: &'a [u8]) -> Lent<'a, u64> {
        let bytes = if self.need > 0 {
            &self.kept[..self.count]
        } else {
            own
        };
        Lent::new(&self.end, &bytes[1..])
    }

    fn end(&mut self, _: u64) -> Close<u64> {
        let missing = (self.need - self.count) as u64;
        Close {
            whole: false,
            cut: if missing > 0 { Some(missing) } else { None },
        }
    }

    ghost settled = { λ s h rs stands. length_settled (take s.count s.kept) s.need h rs stands };

    ghost grows = { λ _. length_grows };

    ghost ends_grow = { λ _. length_ends_grow };

    ghost ends_once = { λ _. length_ends_once };
}
