//! An input as lines.
ghost use Rattle.std.specs.Prelude.{◌≡◌, ◌+◌, ◌-◌, ◌<◌, ◌≤◌, ◌∷◌, ◌++◌, [], ℕ, List, IsTrue, OnOk, length, take};
ghost use Rattle.opus_sdp.specs.Text.{is_line};
ghost use Rattle.text_jobs.specs.declared.lines.Mode.TheVariants as modes;

use crate::line::{Line, NoCut};
use job_loop::{Close, Fed, Form, Lent};
use memchr::memchr;
use opus_io::NoMemory;
use std::alloc::Global;

// Where the machine stands in an input.
#[derive(Clone, Copy)]
pub(crate) enum Mode {
    /// Between two lines. The last one, if any, lies in the bytes taken last.
    Fresh,
    /// Within a line, whose first bytes are kept.
    Part,
    /// Between two lines. The last one is kept.
    Kept,
}

/// The lines of an input, each with a newline behind it. The last one may lack it.
///
/// A line that lies whole in what is fed is lent from there. Any other is kept, and takes as much memory as it is long.
#[derive(Drop)]
pub struct LineForm {
    mode: Mode,
    kept: Vec<u8>,
    // Where the line begins that isn't decided.
    start: u64,
    // The line that stands.
    line: Line,
    ghost one_line: { IsTrue (is_line kept.items) },
    ghost part: { mode ≡ modes.Part → 0 < length kept.items },
}

impl LineForm {
    ghost use Rattle.text_jobs.specs.LineForm.{lent_in, rest_in, shown_by, LineStands};

    /// A form that was fed nothing. It has no memory yet.
    pub fn new(alloc: Global) -> LineForm
        ensures { LineStands result.start (rest_in result.mode result.kept.items) [] [] }
    {
        LineForm {
            mode: Mode::Fresh,
            kept: Vec::new(alloc),
            start: 0,
            line: Line { start: 0, place: 0 },
        }
    }

    // Keeps more bytes of a line.
    fn keep(&mut self, text: &[u8]) -> Result<(), NoMemory>
        requires line { IsTrue (is_line text.now) }
        ensures kept { OnOk result (self.new.kept.items ≡ rest_in self.old.mode self.old.kept.items ++ text.now) }
        ensures mode { self.new.mode ≡ self.old.mode }
        ensures start { self.new.start ≡ self.old.start }
    {
        match self.mode {
            Mode::Part => {}
            Mode::Fresh | Mode::Kept => self.kept.clear(),
        }
        self.kept.extend_from_slice(text)?;
        Ok(())
    }

    // More bytes of a line, behind which no newline came yet.
    #[cold]
    #[inline(never)]
    fn go_on(&mut self, text: &[u8]) -> Result<(), NoMemory>
        requires some { 0 < length text.now }
        requires line { IsTrue (is_line text.now) }
        ensures rest { OnOk result (rest_in self.new.mode self.new.kept.items
            ≡ rest_in self.old.mode self.old.kept.items ++ text.now) }
        ensures start { self.new.start ≡ self.old.start }
    {
        self.keep(text)?;
        self.mode = Mode::Part;
        Ok(())
    }

    // The last bytes of a line.
    fn close(&mut self, text: &[u8]) -> Result<(), NoMemory>
        requires line { IsTrue (is_line text.now) }
        ensures rest { OnOk result (rest_in self.new.mode self.new.kept.items ≡ []) }
        ensures lent { OnOk result ((own : List ℕ) → take (length own - 1) own ≡ text.now
            → lent_in self.new.mode self.new.kept.items own ≡ rest_in self.old.mode self.old.kept.items ++ text.now) }
        ensures line { OnOk result ((own : List ℕ) → take (length own - 1) own ≡ text.now
            → IsTrue (is_line (lent_in self.new.mode self.new.kept.items own))) }
        ensures start { self.new.start ≡ self.old.start }
    {
        match self.mode {
            Mode::Part => {
                self.keep(text)?;
                self.mode = Mode::Kept;
            }
            Mode::Fresh | Mode::Kept => self.mode = Mode::Fresh,
        }
        Ok(())
    }

    // The line is decided where so many bytes are there.
    fn decide(&mut self, place: u64)
        ensures line { self.new.line ≡ record { start = self.old.start; place = place } }
        ensures start { self.new.start ≡ place }
        ensures mode { self.new.mode ≡ self.old.mode }
        ensures kept { self.new.kept ≡ self.old.kept }
    {
        self.line = Line {
            start: self.start,
            place,
        };
        self.start = place;
    }
}

impl Form for LineForm {
    ghost use Rattle.text_jobs.specs.Lines.{place_of, LineSettles, LineEnds};
    ghost use Rattle.text_jobs.specs.LineLaws.{line_settled, line_grows, line_ends_grow, line_ends_once};
    ghost use Rattle.text_jobs.specs.LineForm.{LineStands, lent_in, rest_in, shown_by};

    type Record = Line;

    type Cut = NoCut;

    ghost Layout = { Unit {0} };

    ghost layout = { λ _. tt };

    ghost settles = { λ _. LineSettles };

    ghost ends = { λ _. LineEnds };

    ghost place = { place_of };

    ghost stands = { λ f. LineStands f.start (rest_in f.mode f.kept.items) };

    ghost current = { shown_by };

    ghost ready = { λ f own. IsTrue (is_line (lent_in f.mode f.kept.items own)) };

    ghost lacks = { λ _. Unit {0} };

    #[inline(always)]
    fn feed(&mut self, at: u64, piece: &[u8]) -> Result<Fed, NoMemory> {
        let Some(size) = memchr(b'\n', piece) else {
            self.go_on(piece)?;
            return Ok(Fed {
                count: piece.len(),
                whole: false,
            });
        };
        self.close(&piece[..size])?;
        let count = size + 1;
        self.decide(at + count as u64);
        Ok(Fed { count, whole: true })
    }

    #[inline(always)]
    fn record<'a>(&'a self, own: &'a [u8]) -> Lent<'a, Line> {
        let text = match self.mode {
            Mode::Fresh => &own[..own.len().saturating_sub(1)],
            Mode::Part | Mode::Kept => self.kept.as_slice(),
        };
        Lent::new(&self.line, text)
    }

    fn end(&mut self, at: u64) -> Close<NoCut> {
        let whole = match self.mode {
            Mode::Part => true,
            Mode::Fresh | Mode::Kept => false,
        };
        if whole {
            self.decide(at);
        }
        Close { whole, cut: None }
    }

    ghost settled = { λ f h rs stands. line_settled f.start (rest_in f.mode f.kept.items) h rs stands };

    ghost grows = { λ _. line_grows };

    ghost ends_grow = { λ _. line_ends_grow };

    ghost ends_once = { λ _. line_ends_once };
}
