//! The program's arguments.
ghost use Rattle.std.specs.Prelude.{◌≡◌};
ghost use Rattle.opuspack.specs.Finish.{refused_as};

use crate::finish::Finish;
use opus_words::{Ending, UsageKind};
use std::rt::Env;
use std::{env, io};

/// The arguments without the program's name; or how the program ends where the runtime refuses them.
pub fn words_of(rt: &(impl Env + AllocGlobal)) -> Result<Vec<String>, Finish> {
    let mut words = Vec::new(rt.alloc());
    let arguments = env::args(rt).map_err(|error| refused(error.kind()))?;
    for word in arguments.skip(1) {
        words
            .push(word)
            .map_err(|_| Finish::Ended(Ending::NoMemory))?;
    }
    Ok(words)
}

// Arguments that are no text are wrong words.
fn refused(kind: io::ErrorKind) -> Finish
    ensures { result ≡ refused_as kind }
{
    if kind == io::ErrorKind::OutOfMemory {
        Finish::Ended(Ending::NoMemory)
    } else {
        Finish::Usage(UsageKind::Words)
    }
}
