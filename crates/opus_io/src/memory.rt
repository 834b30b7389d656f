//! A source and a sink in memory that fail where they were asked to.
ghost use Rattle.std.specs.Prelude.{◌≡◌, ◌↔◌, ◌≤◌, ◌<◌, ℕ, List, [], ◌++◌, Some, IfOk, OnOk, OnErr, IsErr, IsErrOf, IsTrue, Contains, take, drop, length, vec_len};
ghost use Rattle.std.specs.Io.{ReadsAtMost, WritesAtMost};
ghost use Rattle.std.specs.Io.KnownBytes.{ReadConsumes, WriteAppends};
ghost use Rattle.opus_io.specs.Cause.{next_count};
ghost use Rattle.opus_io.specs.Source.{SourceCause};
ghost use Rattle.opus_io.specs.Sink.{SinkCause};
ghost use Rattle.opus_io.specs.Memory.{SourceState, SinkState};

use crate::copy::copy_front;
use crate::script::Script;
use crate::{Failed, NoMemory, Sink, SinkStop, Source};
use std::alloc::Global;
use std::marker::Model;

/// Bytes in memory that are read in small pieces, and whose reads fail where it was asked.
#[derive(Drop)]
pub struct MemorySource {
    bytes: Vec<u8>,
    at: usize,
    step: usize,
    script: Script,
}

impl Model for MemorySource {
    ghost Value = { SourceState };

    ghost view = { λ s. record {
      left = drop s.at s.bytes.items;
      step = s.step;
      fails = s.script.fails.items;
      calls = s.script.calls;
      faults = s.script.faults;
    } };

    ghost invariant = { λ s. (s.at ≤ vec_len s.bytes) × (1 ≤ s.step) };
}

impl MemorySource {
    /// A copy of `bytes` is left, and a read gives `step` of them at most.
    /// The calls whose numbers, counted from 1, stand in `fails` fail.
    pub fn new(
        alloc: Global,
        bytes: &[u8],
        step: usize,
        fails: &[u64],
    ) -> Result<MemorySource, NoMemory>
        requires { 1 ≤ step }
        ensures left { IfOk result (λ s. s.left ≡ bytes.now) }
        ensures step { IfOk result (λ s. s.step ≡ step) }
        ensures fails { IfOk result (λ s. s.fails ≡ fails.now) }
        ensures calls { IfOk result (λ s. s.calls ≡ 0) }
        ensures faults { IfOk result (λ s. s.faults ≡ 0) }
    {
        Ok(MemorySource {
            bytes: Vec::from_slice(alloc, bytes)?,
            at: 0,
            step,
            script: Script::new(alloc, fails)?,
        })
    }
}

impl Source for MemorySource {
    ghost left = { λ s. Some s.left };

    ghost faults = { λ s. s.faults };

    fn read(&mut self, buf: &mut [u8]) -> Result<usize, Failed>
        requires { 0 < length buf.old }
        ensures count { ReadsAtMost result buf.new }
        ensures bytes { ReadConsumes (Some self.old.left) (Some self.new.left) result buf.new }
        ensures cause { SourceCause self.old.faults self.new.faults result }
        ensures step { IfOk result (λ n. n ≤ self.old.step) }
        ensures call { self.new.calls ≡ next_count self.old.calls }
        ensures fails { IsErr result ↔ Contains self.old.fails self.new.calls }
        ensures counted { OnErr result (self.new.faults ≡ next_count self.old.faults) }
        ensures same_step { self.new.step ≡ self.old.step }
        ensures same_fails { self.new.fails ≡ self.old.fails }
    {
        if self.script.fails_now() {
            return Err(Failed);
        }
        let room = buf.len().min(self.step);
        let rest = &self.bytes[self.at..];
        let count = copy_front(rest, &mut buf[..room]);
        self.at += count;
        Ok(count)
    }
}

/// Bytes in memory that are written in small pieces, and whose writes fail where it was asked.
#[derive(Drop)]
pub struct MemorySink {
    bytes: Vec<u8>,
    step: usize,
    script: Script,
    refusals: u64,
}

impl Model for MemorySink {
    ghost Value = { SinkState };

    ghost view = { λ s. record {
      bytes = s.bytes.items;
      step = s.step;
      fails = s.script.fails.items;
      calls = s.script.calls;
      faults = s.script.faults;
      refusals = s.refusals;
    } };

    ghost invariant = { λ s. 1 ≤ s.step };
}

impl MemorySink {
    /// An empty sink that takes `step` bytes of a piece at most.
    /// The calls whose numbers, counted from 1, stand in `fails` fail.
    pub fn new(alloc: Global, step: usize, fails: &[u64]) -> Result<MemorySink, NoMemory>
        requires { 1 ≤ step }
        ensures bytes { IfOk result (λ s. s.bytes ≡ []) }
        ensures step { IfOk result (λ s. s.step ≡ step) }
        ensures fails { IfOk result (λ s. s.fails ≡ fails.now) }
        ensures calls { IfOk result (λ s. s.calls ≡ 0) }
        ensures faults { IfOk result (λ s. s.faults ≡ 0) }
        ensures refusals { IfOk result (λ s. s.refusals ≡ 0) }
    {
        Ok(MemorySink {
            bytes: Vec::new(alloc),
            step,
            script: Script::new(alloc, fails)?,
            refusals: 0,
        })
    }

    /// What was written.
    pub fn contents(&self) -> &[u8]
        ensures { result.now ≡ self.now.bytes }
    {
        self.bytes.as_slice()
    }
}

impl Sink for MemorySink {
    ghost contents = { λ s. Some s.bytes };

    ghost faults = { λ s. s.faults };

    ghost refusals = { λ s. s.refusals };

    fn write(&mut self, piece: &[u8]) -> Result<usize, SinkStop>
        requires { 0 < length piece.now }
        ensures some { IfOk result (λ n. 0 < n) }
        ensures count { WritesAtMost result piece.now }
        ensures bytes { WriteAppends (Some self.old.bytes) (Some self.new.bytes) result piece.now }
        ensures cause { SinkCause self.old.faults self.new.faults
            self.old.refusals self.new.refusals result }
        ensures step { IfOk result (λ n. n ≤ self.old.step) }
        ensures call { self.new.calls ≡ next_count self.old.calls }
        ensures fails { IsErrOf result SinkStop.Failed ↔ Contains self.old.fails self.new.calls }
        ensures counted { IsErrOf result SinkStop.Failed
            → self.new.faults ≡ next_count self.old.faults }
        ensures grown { OnOk result (self.new.refusals ≡ self.old.refusals) }
        ensures not_tried { IsErrOf result SinkStop.Failed → self.new.refusals ≡ self.old.refusals }
        ensures refused { IsErrOf result SinkStop.NoMemory
            → self.new.refusals ≡ next_count self.old.refusals }
        ensures same_step { self.new.step ≡ self.old.step }
        ensures same_fails { self.new.fails ≡ self.old.fails }
    {
        if self.script.fails_now() {
            return Err(SinkStop::Failed);
        }
        let count = piece.len().min(self.step);
        match self.bytes.extend_from_slice(&piece[..count]) {
            Ok(()) => Ok(count),
            Err(_) => {
                self.refusals = self.refusals.saturating_add(1);
                Err(SinkStop::NoMemory)
            }
        }
    }
}
