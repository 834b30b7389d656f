//! The gathered sink: few large writes in place of many small ones.
ghost use Rattle.std.specs.Prelude.{◌≡◌, ◌+◌, ◌-◌, ◌<◌, ◌≤◌, ℕ, List, [], ◌++◌, Some, IfOk, OnOk, length, take, drop, slice_range, vec_len, vec_capacity};
ghost use Rattle.std.specs.Io.{WritesAtMost};
ghost use Rattle.std.specs.Io.KnownBytes.{Keeps, WriteAppends, append_known};
ghost use Rattle.opus_io.specs.Sink.{SinkCause, Onward};

use crate::Gather;
use opus_io::{NoMemory, Sink, SinkStop};
use std::alloc::Global;

// How many bytes the sink keeps back at most.
const ROOM: usize = 8192;

/// A sink that keeps bytes back for the sink it was made over, 8,192 at most, in memory that is taken once.
/// It hands them on where it is told to, and where a piece finds no room.
#[derive(Drop)]
pub struct Gathered<'o, O> {
    inner: &'o mut O,
    buffer: Vec<u8>,
    // The bytes kept back are `buffer[start..end]`.
    start: usize,
    end: usize,
    ghost ordered: { start ≤ end },
    ghost within: { end ≤ 8192 },
    ghost room: { vec_len buffer ≡ 8192 },
}

/// Takes the memory for a gathered sink: 8,192 bytes.
pub fn take_room(alloc: Global) -> Result<Vec<u8>, NoMemory>
    ensures { IfOk result (λ room. (vec_len room ≡ 8192) × (vec_capacity room ≡ 8192)) }
{
    let mut room = Vec::with_capacity(alloc, ROOM)?;
    'room: for _ in 0..ROOM {
        room.push_reserved(0);
    }
    Ok(room)
}

impl<'o, O: Sink> Gathered<'o, O> {
    ghost use Rattle.job_loop.specs.Gathered.{held_in, inner_sink, inner_name};

    /// A sink over `inner` that keeps nothing back yet. `room` is what `take_room` gave.
    pub fn over(room: Vec<u8>, inner: &'o mut O) -> Gathered<'o, O>
        requires { vec_len room ≡ 8192 }
        ensures name { inner_name result ≡ inner.entry.ghost_name }
        ensures inner { inner_sink result ≡ inner.old }
        ensures held { held_in result ≡ [] }
    {
        Gathered {
            inner,
            buffer: room,
            start: 0,
            end: 0,
        }
    }

    /// The sink inside. What is kept back still is lost.
    pub fn into_inner(self) -> &'o mut O
        ensures name { result.ghost_name ≡ inner_name self.entry }
        ensures inner { result.now ≡ inner_sink self.entry }
    {
        let Gathered { inner, .. } = self;
        inner
    }

    // Keeps back a piece that finds room.
    fn keep(&mut self, piece: &[u8])
        requires { length piece.now ≤ 8192 - self.old.end }
        ensures name { inner_name self.new ≡ inner_name self.old }
        ensures inner { inner_sink self.new ≡ inner_sink self.old }
        ensures held { held_in self.new ≡ held_in self.old ++ piece.now }
    {
        put_at(self.buffer.as_mut_slice(), self.end, piece);
        self.end += piece.len();
    }

    // Hands on all that is kept back, in as many writes as the sink inside needs.
    fn hand_on(&mut self) -> Result<(), SinkStop>
        ensures keeps { Keeps (append_known (O.contents (inner_sink self.old)) (held_in self.old))
            (append_known (O.contents (inner_sink self.new)) (held_in self.new)) }
        ensures empty { OnOk result (held_in self.new ≡ []) }
        ensures front { OnOk result (self.new.end ≡ 0) }
        ensures cause { SinkCause (O.faults (inner_sink self.old)) (O.faults (inner_sink self.new))
            (O.refusals (inner_sink self.old)) (O.refusals (inner_sink self.new)) result }
        ensures onward { Onward (inner_name self.old) (inner_name self.new)
            (O.contents (inner_sink self.old)) (O.contents (inner_sink self.new)) }
    {
        while self.start < self.end {
            self.start += self.inner.write(&self.buffer[self.start..self.end])?;
        }
        self.start = 0;
        self.end = 0;
        Ok(())
    }

    // Takes a piece that finds no room behind what is kept back.
    #[cold]
    #[inline(never)]
    fn write_over(&mut self, piece: &[u8]) -> Result<usize, SinkStop>
        requires { 0 < length piece.now }
        ensures some { IfOk result (λ n. 0 < n) }
        ensures count { WritesAtMost result piece.now }
        ensures bytes { WriteAppends
            (append_known (O.contents (inner_sink self.old)) (held_in self.old))
            (append_known (O.contents (inner_sink self.new)) (held_in self.new)) result piece.now }
        ensures cause { SinkCause (O.faults (inner_sink self.old)) (O.faults (inner_sink self.new))
            (O.refusals (inner_sink self.old)) (O.refusals (inner_sink self.new)) result }
        ensures onward { Onward (inner_name self.old) (inner_name self.new)
            (O.contents (inner_sink self.old)) (O.contents (inner_sink self.new)) }
    {
        if let Err(stop) = self.hand_on() {
            return Err(stop);
        }
        let count = piece.len().min(ROOM);
        self.keep(&piece[..count]);
        Ok(count)
    }
}

impl<'o, O: Sink> Sink for Gathered<'o, O> {
    ghost use Rattle.job_loop.specs.Gathered.{held_in, inner_sink, inner_name};

    ghost contents = { λ s. append_known (O.contents (inner_sink s)) (held_in s) };

    ghost faults = { λ s. O.faults (inner_sink s) };

    ghost refusals = { λ s. O.refusals (inner_sink s) };

    ghost handed = { λ s. O.contents (inner_sink s) };

    ghost onto = { inner_name };

    fn write(&mut self, piece: &[u8]) -> Result<usize, SinkStop> {
        if piece.len() > ROOM - self.end {
            return self.write_over(piece);
        }
        self.keep(piece);
        Ok(piece.len())
    }
}

impl<'o, O: Sink> Gather for Gathered<'o, O> {
    ghost use Rattle.job_loop.specs.Gathered.{held_in};

    ghost held = { held_in };

    fn flush(&mut self) -> Result<(), SinkStop> {
        self.hand_on()
    }
}

// Copies a piece into a buffer from this place on.
fn put_at(buffer: &mut [u8], at: usize, piece: &[u8])
    requires { at + length piece.now ≤ length buffer.old }
    ensures len { length buffer.new ≡ length buffer.old }
    ensures put { take (at + length piece.now) buffer.new ≡ take at buffer.old ++ piece.now }
{
    buffer[at..at + piece.len()].copy_from_slice(piece);
}
