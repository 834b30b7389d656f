//! The reader: a source up to a limit, 4,096 bytes at a time.
ghost use Rattle.std.specs.Prelude.{◌≡◌, ◌≢◌, ◌+◌, ◌-◌, ◌≤◌, ◌<◌, ℕ, [], IfOk, OnOk, OnErr, IsErrOf, true, false, min, length, slice_range, vec_len, take, drop};
ghost use Rattle.std.specs.Io.KnownBytes.{ReadConsumes};
ghost use Rattle.std.specs.Io.BufRead.{Rests};
ghost use Rattle.std.specs.Borrow.{sem};
ghost use Rattle.opus_io.specs.Source.{SourceCause};
ghost use Rattle.opus_io.specs.Reader.{ReaderState, max_input, Fits, Filled, Looked, LookedAt, LookCause};

use crate::{Failed, NoMemory, Source};
use std::alloc::Global;
use std::marker::Model;

// How many bytes the reader keeps at most.
const BUFFER: usize = 4096;

/// Why a reader shows no more bytes.
#[derive(Clone, Copy, Debug, PartialEq, Eq)]
pub enum InStop {
    /// A read of the source failed. The call may be made again.
    Read,
    /// The input is longer than the limit.
    Limit,
}

/// Reads a source up to a limit, 4,096 bytes at a time at most.
///
/// It doesn't keep the source: each call that may read is handed it.
#[derive(Drop)]
pub struct Reader {
    buffer: Vec<u8>,
    // The bytes taken and not passed are `buffer[start..end]`.
    start: usize,
    end: usize,
    // How many bytes the last call of `pass` passed, 0 after a read: these stand before `start`.
    last: usize,
    passed: u64,
    limit: u64,
}

impl Model for Reader {
    ghost Value = { ReaderState };

    ghost view = { λ r. record {
      bytes = slice_range r.buffer.items r.start r.end;
      passed = r.passed;
      limit = r.limit;
      last = slice_range r.buffer.items (r.start - r.last) r.start;
    } };

    ghost invariant = { λ r. Fits (vec_len r.buffer) r.start r.end r.last r.passed r.limit };
}

impl Reader {
    ghost use Rattle.opus_io.specs.contracts.reader.Reader.{the_row};

    /// A reader that has taken nothing. `limit` is in bytes, at most 2^40.
    pub fn new(alloc: Global, limit: u64) -> Result<Reader, NoMemory>
        requires some { 1 ≤ limit }
        requires most { limit ≤ max_input }
        ensures bytes { IfOk result (λ r. r.bytes ≡ []) }
        ensures passed { IfOk result (λ r. r.passed ≡ 0) }
        ensures limit { IfOk result (λ r. r.limit ≡ limit) }
        ensures last { IfOk result (λ r. r.last ≡ []) }
    {
        let mut buffer = Vec::with_capacity(alloc, BUFFER)?;
        buffer.resize(BUFFER, 0)?;
        Ok(Reader {
            buffer,
            start: 0,
            end: 0,
            last: 0,
            passed: 0,
            limit,
        })
    }

    /// Shows the bytes that come next and were taken and not passed, up to the limit.
    /// It reads the source, once, only where there are none.
    /// An empty slice is the end of the input.
    pub fn ahead<'r, S: Source>(&'r mut self, source: &mut S) -> Result<&'r [u8], InStop>
        ensures* after { sem 𝓛 (Rests the_row self.entry (λ new.
            Looked self.old new (S.left source.old) (S.left source.new) result)) }
        ensures untouched { self.old.bytes ≢ [] → source.new ≡ source.old }
        ensures cause { LookCause (S.faults source.old) (S.faults source.new) result }
        ensures fault { IsErrOf result InStop.Read → self.old.bytes ≡ [] }
    {
        if let Err(stop) = self.look(source) {
            return Err(stop);
        }
        Ok(self.shown())
    }

    /// Reads the source, once, where no byte is kept, and answers how many bytes `shown` shows then: 0 at the end of
    /// the input.
    pub fn look<S: Source>(&mut self, source: &mut S) -> Result<usize, InStop>
        ensures looked { LookedAt self.old self.new (S.left source.old) (S.left source.new) result }
        ensures untouched { self.old.bytes ≢ [] → source.new ≡ source.old }
        ensures cause { LookCause (S.faults source.old) (S.faults source.new) result }
        ensures fault { IsErrOf result InStop.Read → self.old.bytes ≡ [] }
    {
        self.fill(source)?;
        let shown = self.shown().len();
        if shown == 0 && self.is_filled() {
            return Err(InStop::Limit);
        }
        Ok(shown)
    }

    /// Reads the source, once, where no byte is kept. It may find none: then the source is at its end.
    /// It never answers `Limit`.
    pub fn fill<S: Source>(&mut self, source: &mut S) -> Result<(), InStop>
        ensures filled { Filled self.old self.new (S.left source.old) (S.left source.new) result }
        ensures untouched { self.old.bytes ≢ [] → source.new ≡ source.old }
        ensures cause { LookCause (S.faults source.old) (S.faults source.new) result }
    {
        if self.start < self.end {
            return Ok(());
        }
        self.start = 0;
        self.end = 0;
        self.last = 0;
        let room = least(BUFFER, self.limit + 1 - self.passed);
        match read_buffer(source, &mut self.buffer, room) {
            Ok(count) => {
                self.end = count;
                Ok(())
            }
            Err(Failed) => Err(InStop::Read),
        }
    }

    /// The bytes that come next and were taken and not passed, up to the limit. It never reads.
    pub fn shown(&self) -> &[u8]
        ensures value { result.now ≡ take (self.now.limit - self.now.passed) self.now.bytes }
        ensures most { self.now.passed + length result.now ≤ max_input }
        ensures in_limit { self.now.passed + length result.now ≤ self.now.limit }
        ensures kept { length result.now ≤ length self.now.bytes }
    {
        let shown = least(self.end - self.start, self.limit - self.passed);
        &self.buffer[self.start..self.start + shown]
    }

    /// Whether a byte was taken and not passed. Where nothing is shown, this is the byte past the limit.
    pub fn is_filled(&self) -> bool
        ensures filled { result ≡ true → 0 < length self.now.bytes }
        ensures empty { result ≡ false → self.now.bytes ≡ [] }
    {
        self.start < self.end
    }

    /// The bytes that the last call of `pass` passed, lent until the next read. After a read there are none.
    pub fn last(&self) -> &[u8]
        ensures { result.now ≡ self.now.last }
    {
        &self.buffer[self.start - self.last..self.start]
    }

    /// Passes `n` bytes of those that `ahead` or `shown` showed.
    pub fn pass(&mut self, n: usize)
        requires kept { n ≤ length self.old.bytes }
        requires within { n ≤ self.old.limit - self.old.passed }
        ensures bytes { self.new.bytes ≡ drop n self.old.bytes }
        ensures passed { self.new.passed ≡ self.old.passed + n }
        ensures limit { self.new.limit ≡ self.old.limit }
        ensures in_limit { self.new.passed ≤ self.new.limit }
        ensures last { self.new.last ≡ take n self.old.bytes }
    {
        self.start += n;
        self.last = n;
        self.passed += n as u64;
    }

    /// How many bytes were taken from the source, passed or not.
    pub fn taken(&self) -> u64
        ensures value { result ≡ self.now.passed + length self.now.bytes }
        ensures kept { result ≤ self.now.passed + 4096 }
        ensures in_limit { result ≤ self.now.limit + 1 }
    {
        self.passed + (self.end - self.start) as u64
    }

    /// How many bytes were passed.
    pub fn passed(&self) -> u64
        ensures value { result ≡ self.now.passed }
        ensures in_limit { result ≤ self.now.limit }
    {
        self.passed
    }
}

// The smaller of a count and a number that may be larger.
fn least(count: usize, most: u64) -> usize
    ensures { result ≡ min count most }
{
    if (count as u64) < most {
        count
    } else {
        most as usize
    }
}

fn read_buffer<S: Source>(
    source: &mut S,
    buffer: &mut Vec<u8>,
    room: usize,
) -> Result<usize, Failed>
    requires some { 0 < room }
    requires fits { room ≤ vec_len buffer.old }
    ensures len { vec_len buffer.new ≡ vec_len buffer.old }
    ensures count { IfOk result (λ n. n ≤ room) }
    ensures bytes { ReadConsumes (S.left source.old) (S.left source.new) result buffer.new.items }
    ensures cause { SourceCause (S.faults source.old) (S.faults source.new) result }
{
    read_front(source, buffer.as_mut_slice(), room)
}

fn read_front<S: Source>(source: &mut S, buffer: &mut [u8], room: usize) -> Result<usize, Failed>
    requires some { 0 < room }
    requires fits { room ≤ length buffer.old }
    ensures count { IfOk result (λ n. n ≤ room) }
    ensures bytes { ReadConsumes (S.left source.old) (S.left source.new) result buffer.new }
    ensures cause { SourceCause (S.faults source.old) (S.faults source.new) result }
{
    source.read(&mut buffer[..room])
}
