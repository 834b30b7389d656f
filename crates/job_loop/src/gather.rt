//! A sink that may keep bytes back.
ghost use Rattle.std.specs.Prelude.{◌≡◌, ℕ, List, [], OnOk};
ghost use Rattle.std.specs.Io.KnownBytes.{Keeps};
ghost use Rattle.opus_io.specs.Sink.{SinkCause, Onward};

use opus_io::{Sink, SinkStop};

/// A sink that may keep bytes back until it is told to hand them on. They count among its contents.
pub trait Gather: Sink {
    /// The bytes that were written and not handed on yet.
    ghost held: { Self → List ℕ };

    /// Hands on all that is kept back. After a stop the rest is kept still.
    fn flush(&mut self) -> Result<(), SinkStop>
        ensures keeps { Keeps (Self.contents self.old) (Self.contents self.new) }
        ensures empty { OnOk result (held self.new ≡ []) }
        ensures cause { SinkCause (Self.faults self.old) (Self.faults self.new)
            (Self.refusals self.old) (Self.refusals self.new) result }
        ensures onward { Onward (Self.onto self.old) (Self.onto self.new)
            (Self.handed self.old) (Self.handed self.new) };
}
