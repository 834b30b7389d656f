//! Texts by their index, written one after another.
ghost use Rattle.std.specs.Prelude.{◌≡◌, ◌<◌, ℕ, List, OnOk, OnErr};
ghost use Rattle.std.specs.Io.KnownBytes.{Appends};
ghost use Rattle.opus_io.specs.Sink.{SinkCause, Onward};
ghost use Rattle.job_loop.specs.Telling.{Front};
ghost use Rattle.opuspack.specs.Texts.{all_texts};

use arrayvec::ArrayString;
use opus_io::{Sink, SinkStop, write_all};

/// Texts by their index, each of at most 64 bytes.
pub(crate) trait Texts {
    // How many there are.
    ghost number: { Self → ℕ };

    // The text with an index.
    ghost told: { Self → ℕ → List ℕ };

    /// How many there are.
    fn count(&self) -> usize
        ensures { result ≡ number self.now };

    /// The text with this index.
    fn text(&self, index: usize) -> ArrayString<64>
        requires { index < number self.now }
        ensures { result.bytes ≡ told self.now index };
}

/// Writes all of them. After a stop a front is written.
pub(crate) fn write_texts<T: Texts, O: Sink>(texts: &T, out: &mut O) -> Result<(), SinkStop>
    ensures ok { OnOk result (Appends (O.contents out.old) (O.contents out.new)
        (all_texts (T.told texts.now) (T.number texts.now))) }
    ensures front { OnErr result (Front (all_texts (T.told texts.now) (T.number texts.now))
        (O.contents out.old) (O.contents out.new)) }
    ensures cause { SinkCause (O.faults out.old) (O.faults out.new)
        (O.refusals out.old) (O.refusals out.new) result }
    ensures onward { Onward (O.onto out.old) (O.onto out.new) (O.handed out.old) (O.handed out.new) }
{
    for index in 0..texts.count() {
        if let Err(stop) = write_all(out, texts.text(index).as_str().as_bytes()) {
            return Err(stop);
        }
    }
    Ok(())
}
