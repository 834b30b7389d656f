//! Why words stand for no job.
ghost use Rattle.std.specs.Prelude.{◌≡◌};
ghost use Rattle.opus_words.specs.declared.fault.WordsFault.TheVariants.{NoMemory};

use crate::option::Opt;
use std::alloc::AllocError;

/// What is wrong with words that stand for no job.
#[derive(Clone, Copy, Debug, PartialEq, Eq)]
pub enum UsageKind {
    /// They aren't one job and options of the table, each given once with a value.
    Words,
    /// No job has this name.
    Job,
    /// The option isn't one of the job's.
    Option(Opt),
    /// The option's value isn't allowed.
    Value(Opt),
    /// The job needs the option.
    Missing(Opt),
}

/// Why there is no job.
#[derive(Clone, Copy, Debug, PartialEq, Eq)]
pub enum WordsFault {
    /// The words stand for no job.
    Usage(UsageKind),
    /// Memory ran out while the words were read.
    NoMemory,
}

impl From<AllocError> for WordsFault {
    ghost from_gives = { λ _ fault. fault ≡ NoMemory };

    fn from(_: AllocError) -> WordsFault {
        WordsFault::NoMemory
    }
}
