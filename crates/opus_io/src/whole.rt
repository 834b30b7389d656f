//! All of a slice to a sink.
ghost use Rattle.std.specs.Prelude.{ℕ, ◌≤◌, take, length, OnOk, OnErr};
ghost use Rattle.std.specs.Io.KnownBytes.{Appends};
ghost use Rattle.opus_io.specs.Sink.{SinkCause, Onward};

use crate::{Sink, SinkStop};

/// Writes all of `bytes`, in as many writes as the sink needs.
/// After a stop a front of them is written.
pub fn write_all<O: Sink>(sink: &mut O, bytes: &[u8]) -> Result<(), SinkStop>
    ensures ok { OnOk result (Appends (O.contents sink.old) (O.contents sink.new) bytes.now) }
    ensures front { OnErr result ((n : ℕ) × (n ≤ length bytes.now)
        × Appends (O.contents sink.old) (O.contents sink.new) (take n bytes.now)) }
    ensures cause { SinkCause (O.faults sink.old) (O.faults sink.new)
        (O.refusals sink.old) (O.refusals sink.new) result }
    ensures onward { Onward (O.onto sink.old) (O.onto sink.new) (O.handed sink.old) (O.handed sink.new) }
{
    let mut at = 0;
    while at < bytes.len() {
        at += sink.write(&bytes[at..])?;
    }
    Ok(())
}
