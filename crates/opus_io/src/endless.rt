//! A source that never ends.
ghost use Rattle.std.specs.Prelude.{◌≡◌, ◌<◌, ℕ, None, Ok, length, replicate};
ghost use Rattle.std.specs.Io.{ReadsAtMost};
ghost use Rattle.std.specs.Io.KnownBytes.{ReadConsumes};
ghost use Rattle.opus_io.specs.Source.{SourceCause};

use crate::{Failed, Source};
use std::marker::Model;

/// One byte again and again, without an end and without a fault. It doesn't tell its bytes, since no list has them all.
#[derive(Drop)]
pub struct EndlessSource {
    byte: u8,
}

impl Model for EndlessSource {
    ghost Value = { ℕ };

    ghost view = { λ s. s.byte };
}

impl EndlessSource {
    /// Each byte that it gives is `byte`. It takes no memory.
    pub fn new(byte: u8) -> EndlessSource
        ensures { result ≡ byte }
    {
        EndlessSource { byte }
    }
}

impl Source for EndlessSource {
    ghost left = { λ _. None };

    ghost faults = { λ _. 0 };

    fn read(&mut self, buf: &mut [u8]) -> Result<usize, Failed>
        requires { 0 < length buf.old }
        ensures count { ReadsAtMost result buf.new }
        ensures bytes { ReadConsumes None None result buf.new }
        ensures cause { SourceCause 0 0 result }
        ensures whole { result ≡ Ok (length buf.old) }
        ensures filled { buf.new ≡ replicate (length buf.old) self.old }
        ensures same { self.new ≡ self.old }
    {
        buf.fill(self.byte);
        Ok(buf.len())
    }
}
