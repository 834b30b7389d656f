//! Where bytes go.
ghost use Rattle.std.specs.Prelude.{◌<◌, ◌≤◌, ℕ, List, None, length, IfOk};
ghost use Rattle.std.specs.declared.option.Option.{Option};
ghost use Rattle.std.specs.Io.{WritesAtMost};
ghost use Rattle.std.specs.Io.KnownBytes.{WriteAppends};
ghost use Rattle.opus_io.specs.Sink.{SinkCause, Onward};

/// Why a sink took nothing.
#[derive(Clone, Copy, Debug, PartialEq, Eq)]
pub enum SinkStop {
    /// A fault of the outside.
    Failed,
    /// The sink found no memory for more bytes.
    NoMemory,
}

/// Where bytes go.
pub trait Sink {
    /// The bytes that the sink holds, where it tells them.
    ghost contents: { Self → Option (List ℕ) };

    /// How many writes have failed.
    ghost faults: { Self → ℕ };

    /// How many writes found no memory.
    ghost refusals: { Self → ℕ };

    /// What the sink has handed on to the one that it goes on to, where it is over one and tells that.
    ghost handed: { Self → Option (List ℕ) } = { λ _. None };

    /// Which borrowed sink it goes on to, where it does.
    ghost onto: { Self → ℕ } = { λ _. 0 };

    /// Takes bytes from the front of `piece`, at least one, and tells how many.
    fn write(&mut self, piece: &[u8]) -> Result<usize, SinkStop>
        requires { 0 < length piece.now }
        ensures some { IfOk result (λ n. 0 < n) }
        ensures count { WritesAtMost result piece.now }
        ensures bytes { WriteAppends (contents self.old) (contents self.new) result piece.now }
        ensures cause { SinkCause (faults self.old) (faults self.new)
            (refusals self.old) (refusals self.new) result }
        ensures onward { Onward (onto self.old) (onto self.new) (handed self.old) (handed self.new) };
}
