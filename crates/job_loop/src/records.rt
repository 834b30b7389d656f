//! The records of an input, read one after the other.
ghost use Rattle.std.specs.Prelude.{◌≡◌, ◌<◌, ◌≤◌, [], true, false, take, length, ◌-◌, OnOk, OnErr};
ghost use Rattle.opus_io.specs.Reader.{max_input};
ghost use Rattle.std.specs.Io.KnownBytes.{IsAtEnd};
ghost use Rattle.opus_io.specs.Source.{SourceCause};
ghost use Rattle.opus_io.specs.Reader.{Stays};
ghost use Rattle.job_loop.specs.Turns.{Turned};

use crate::{Form, Lent};
use opus_io::{Failed, NoMemory, Reader, Source};

/// What comes next of an input.
#[derive(Clone, Copy)]
pub(crate) enum Turn<C> {
    /// Bytes were passed that decide nothing yet.
    Part,
    /// A record stands, decided by the byte passed last.
    Record,
    /// All bytes taken were passed: a read has to follow.
    Needs,
    /// The input goes on past the limit.
    Past,
    /// The input is over, with this cut if there is one.
    End(Option<C>),
    /// The input is over likewise, and its end decides one more record.
    Last(Option<C>),
    /// The form has no memory to go on.
    NoMemory,
}

/// A form over a reader. It hands no byte twice to the form, and reads only where it is told to.
#[derive(Drop)]
pub(crate) struct Records<F> {
    reader: Reader,
    form: F,
    // The source was found at its end.
    over: bool,
}

impl<F: Form> Records<F> {
    /// The records of what this reader reads.
    pub(crate) fn new(reader: Reader, form: F) -> Records<F>
        ensures reader { result.reader ≡ reader }
        ensures form { result.form ≡ form }
        ensures over { result.over ≡ false }
    {
        Records {
            reader,
            form,
            over: false,
        }
    }

    /// Goes on in the bytes that were taken, as far as the next one that decides something.
    #[inline(always)]
    pub(crate) fn next(&mut self) -> Turn<F::Cut>
        ensures { Turned F.layout F.stands F.ends F.place F.current F.ready F.lacks result self.old self.new }
    {
        let shown = self.reader.shown();
        if shown.is_empty() {
            return self.idle();
        }
        match self.form.feed(self.reader.passed(), shown) {
            Ok(fed) => {
                self.reader.pass(fed.count);
                if fed.whole { Turn::Record } else { Turn::Part }
            }
            Err(NoMemory) => Turn::NoMemory,
        }
    }

    // Where nothing is shown.
    #[cold]
    #[inline(never)]
    fn idle(&mut self) -> Turn<F::Cut>
        requires nothing { take (self.old.reader.limit - self.old.reader.passed) self.old.reader.bytes ≡ [] }
        requires in_limit { self.old.reader.passed ≤ self.old.reader.limit }
        requires most { self.old.reader.passed ≤ max_input }
        ensures { Turned F.layout F.stands F.ends F.place F.current F.ready F.lacks result self.old self.new }
    {
        if self.reader.is_filled() {
            return Turn::Past;
        }
        if !self.over {
            return Turn::Needs;
        }
        let close = self.form.end(self.reader.passed());
        if close.whole {
            Turn::Last(close.cut)
        } else {
            Turn::End(close.cut)
        }
    }

    /// The record that stands, until the next read.
    #[inline(always)]
    pub(crate) fn record(&self) -> Lent<'_, F::Record>
        requires { F.ready self.now.form self.now.reader.last }
        ensures is { result ≡ F.current self.now.form self.now.reader.last }
        ensures fits { F.Record.fits result.item result.bytes }
    {
        self.form.record(self.reader.last())
    }

    /// Reads the source, once.
    pub(crate) fn read<S: Source>(&mut self, source: &mut S) -> Result<(), Failed>
        requires { self.old.reader.bytes ≡ [] }
        ensures stays { Stays self.old.reader self.new.reader (S.left source.old) (S.left source.new) }
        ensures form { self.new.form ≡ self.old.form }
        ensures filled { OnOk result (self.new.over ≡ false → 0 < length self.new.reader.bytes) }
        ensures end { OnOk result (self.new.over ≡ true → (self.new.reader.bytes ≡ []) × IsAtEnd (S.left source.new)) }
        ensures failed { OnErr result (self.new.reader.bytes ≡ []) }
        ensures cause { SourceCause (S.faults source.old) (S.faults source.new) result }
    {
        match self.reader.fill(source) {
            Ok(()) => {
                self.over = !self.reader.is_filled();
                Ok(())
            }
            Err(_) => Err(Failed),
        }
    }
}
