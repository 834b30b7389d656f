//! A source and a sink in memory that never fail.
ghost use Rattle.std.specs.Prelude.{◌≡◌, ◌+◌, ◌-◌, ◌^◌, ◌≤◌, ◌<◌, ℕ, List, [], ◌++◌, Some, IfOk, min, take, drop, length, vec_len};
ghost use Rattle.opus_io.specs.Steady.{Held};

use crate::copy::copy_front;
use crate::{Failed, NoMemory, Sink, SinkStop, Source};
use std::alloc::Global;
use std::marker::Model;

/// Bytes in memory that never fail to be read.
#[derive(Drop)]
pub struct SteadySource {
    bytes: Vec<u8>,
    at: usize,
}

impl Model for SteadySource {
    ghost Value = { List ℕ };

    ghost view = { λ s. drop s.at s.bytes.items };

    ghost invariant = { λ s. s.at ≤ vec_len s.bytes };
}

impl SteadySource {
    /// A copy of `bytes` is left.
    pub fn new(alloc: Global, bytes: &[u8]) -> Result<SteadySource, NoMemory>
        ensures left { IfOk result (λ s. s ≡ bytes.now) }
    {
        Ok(SteadySource {
            bytes: Vec::from_slice(alloc, bytes)?,
            at: 0,
        })
    }
}

impl Source for SteadySource {
    ghost left = { λ s. Some s };

    ghost faults = { λ _. 0 };

    fn read(&mut self, buf: &mut [u8]) -> Result<usize, Failed> {
        let rest = &self.bytes[self.at..];
        let count = copy_front(rest, buf);
        self.at += count;
        Ok(count)
    }
}

/// Bytes in memory that grow at each write, unless there is no memory.
#[derive(Drop)]
pub struct SteadySink {
    bytes: Vec<u8>,
    refusals: u64,
}

impl Model for SteadySink {
    ghost Value = { Held };

    ghost view = { λ s. record { bytes = s.bytes.items; refusals = s.refusals } };
}

impl SteadySink {
    /// An empty sink. It keeps the allocator and takes no memory yet.
    pub fn new(alloc: Global) -> SteadySink
        ensures bytes { result.bytes ≡ [] }
        ensures refusals { result.refusals ≡ 0 }
    {
        SteadySink {
            bytes: Vec::new(alloc),
            refusals: 0,
        }
    }

    /// What was written.
    pub fn contents(&self) -> &[u8]
        ensures { result.now ≡ self.now.bytes }
    {
        self.bytes.as_slice()
    }
}

impl Sink for SteadySink {
    ghost contents = { λ s. Some s.bytes };

    ghost faults = { λ _. 0 };

    ghost refusals = { λ s. s.refusals };

    fn write(&mut self, piece: &[u8]) -> Result<usize, SinkStop> {
        match self.bytes.extend_from_slice(piece) {
            Ok(()) => Ok(piece.len()),
            Err(_) => {
                self.refusals = self.refusals.saturating_add(1);
                Err(SinkStop::NoMemory)
            }
        }
    }
}
