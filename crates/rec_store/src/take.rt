//! Bytes of a store that come next, taken up to a number.
ghost use Rattle.std.specs.Prelude.{◌≡◌, ◌-◌, ◌≤◌, ◌<◌, [], length};
ghost use Rattle.opus_io.specs.Reader.{LookCause};
ghost use Rattle.rec_store.specs.DumpStore.{AreBytes};
ghost use Rattle.rec_store.specs.Taking.{Takes, TakesBehind};

use crate::room::Room;
use arrayvec::ArrayVec;
use opus_io::{InStop, Reader, Source};

/// Takes the bytes that come next, `most` or as many as there are. None is read ahead once they are that many.
pub(crate) fn take_head<S: Source>(
    input: &mut Reader,
    source: &mut S,
    head: &mut ArrayVec<u8, 16>,
    most: usize,
) -> Result<(), InStop>
    requires none { head.old.items ≡ [] }
    requires some { 0 < most }
    requires fits { most ≤ 16 }
    ensures answer { Takes most input.old input.new (S.left source.old) (S.left source.new)
        head.new.items result }
    ensures are { AreBytes head.new.items }
    ensures untouched { most ≤ length input.old.bytes → most ≤ input.old.limit - input.old.passed
        → source.new ≡ source.old }
    ensures cause { LookCause (S.faults source.old) (S.faults source.new) result }
{
    take_bytes(input, source, head, most)
}

/// Takes the bytes that come next behind those in `into`, up to `most` in all or as many as there are, for which there is
/// room. None is read ahead once they are that many.
pub(crate) fn take_bytes<S: Source, R: Room>(
    input: &mut Reader,
    source: &mut S,
    into: &mut R,
    most: usize,
) -> Result<(), InStop>
    requires few { length (R.items into.old) ≤ most }
    requires room { most ≤ R.size into.old }
    requires in_limit { most ≤ length (R.items into.old) → input.old.passed ≤ input.old.limit }
    ensures answer { TakesBehind (most - length (R.items into.old)) input.old input.new (S.left source.old)
        (S.left source.new) (R.items into.old) (R.items into.new) result }
    ensures room { R.size into.old ≤ R.size into.new }
    ensures untouched { most - length (R.items into.old) ≤ length input.old.bytes
        → most - length (R.items into.old) ≤ input.old.limit - input.old.passed → source.new ≡ source.old }
    ensures cause { LookCause (S.faults source.old) (S.faults source.new) result }
{
    'bytes: while into.count() < most {
        let ahead = input.look(source)?;
        if ahead == 0 {
            return Ok(());
        }
        let count = ahead.min(most - into.count());
        into.put(&input.shown()[..count]);
        input.pass(count);
    }
    Ok(())
}
