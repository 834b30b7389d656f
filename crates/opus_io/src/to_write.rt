//! A writer of std as a sink.
ghost use Rattle.std.specs.Prelude.{◌≡◌, ◌+◌, ◌-◌, ◌^◌, ◌<◌, ◌≤◌, None, min, length, IfOk, OnErr};
ghost use Rattle.std.specs.Io.{WritesAtMost};
ghost use Rattle.std.specs.Io.KnownBytes.{WriteAppends};
ghost use Rattle.opus_io.specs.Cause.{next_count};
ghost use Rattle.opus_io.specs.Sink.{SinkCause, Onward};
ghost use Rattle.opus_io.specs.Counted.{inner_of, errors_of};

use crate::{Counted, Sink, SinkStop};
use std::io::Write;

/// Any writer of std as a sink. It counts the writer's errors, up to 2^64 - 1 of them.
/// A writer that takes no byte of a piece has met an error too.
pub type ToWrite<W> = Counted<W>;

impl<W: Write> Sink for ToWrite<W> {
    ghost contents = { λ s. W.contents (inner_of s) };

    ghost faults = { errors_of };

    ghost refusals = { λ _. 0 };

    fn write(&mut self, piece: &[u8]) -> Result<usize, SinkStop>
        requires { 0 < length piece.now }
        ensures some { IfOk result (λ n. 0 < n) }
        ensures count { WritesAtMost result piece.now }
        ensures bytes { WriteAppends (W.contents (inner_of self.old)) (W.contents (inner_of self.new)) result piece.now }
        ensures cause { SinkCause (errors_of self.old) (errors_of self.new) 0 0 result }
        ensures onward { Onward 0 0 None None }
        ensures counted { OnErr result (errors_of self.new ≡ next_count (errors_of self.old)) }
    {
        match self.inner.write(piece) {
            Ok(count) if count > 0 => Ok(count),
            _ => {
                self.count_error();
                Err(SinkStop::Failed)
            }
        }
    }
}
