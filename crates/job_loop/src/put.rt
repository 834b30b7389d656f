//! Two pieces of text, one behind the other.
ghost use Rattle.std.specs.Prelude.{◌≡◌, ℕ, ◌≤◌, ◌+◌, ◌++◌, take, length, OnOk, OnErr};
ghost use Rattle.std.specs.Io.KnownBytes.{Appends};
ghost use Rattle.opus_io.specs.Sink.{SinkCause, Onward};
ghost use Rattle.job_loop.specs.Telling.{Front};

use opus_io::{Sink, SinkStop, write_all};

/// Writes `first` and then `second`. After a stop a front of both is written.
pub fn write_both<O: Sink>(out: &mut O, first: &[u8], second: &[u8]) -> Result<(), SinkStop>
    ensures ok { OnOk result (Appends (O.contents out.old) (O.contents out.new) (first.now ++ second.now)) }
    ensures front { OnErr result (Front (first.now ++ second.now) (O.contents out.old) (O.contents out.new)) }
    ensures cause { SinkCause (O.faults out.old) (O.faults out.new)
        (O.refusals out.old) (O.refusals out.new) result }
    ensures onward { Onward (O.onto out.old) (O.onto out.new) (O.handed out.old) (O.handed out.new) }
{
    if let Err(stop) = write_all(out, first) {
        return Err(stop);
    }
    write_all(out, second)
}
