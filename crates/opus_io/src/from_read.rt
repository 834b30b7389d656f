//! A reader of std as a source.
ghost use Rattle.std.specs.Prelude.{◌≡◌, ◌<◌, length, OnErr};
ghost use Rattle.std.specs.Io.{ReadsAtMost};
ghost use Rattle.std.specs.Io.KnownBytes.{ReadConsumes};
ghost use Rattle.opus_io.specs.Cause.{next_count};
ghost use Rattle.opus_io.specs.Source.{SourceCause};
ghost use Rattle.opus_io.specs.Counted.{inner_of, errors_of};

use crate::{Counted, Failed, Source};
use std::io::Read;

/// Any reader of std as a source. It counts the reader's errors, up to 2^64 - 1 of them.
pub type FromRead<R> = Counted<R>;

impl<R: Read> Source for FromRead<R> {
    ghost left = { λ s. R.remaining (inner_of s) };

    ghost faults = { errors_of };

    fn read(&mut self, buf: &mut [u8]) -> Result<usize, Failed>
        requires { 0 < length buf.old }
        ensures count { ReadsAtMost result buf.new }
        ensures bytes { ReadConsumes (R.remaining (inner_of self.old)) (R.remaining (inner_of self.new)) result buf.new }
        ensures cause { SourceCause (errors_of self.old) (errors_of self.new) result }
        ensures counted { OnErr result (errors_of self.new ≡ next_count (errors_of self.old)) }
    {
        match self.inner.read(buf) {
            Ok(count) => Ok(count),
            Err(_) => {
                self.count_error();
                Err(Failed)
            }
        }
    }
}
