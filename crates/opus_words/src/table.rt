//! The table of options.
ghost use Rattle.std.specs.Prelude.{◌≡◌, IsTrue};
ghost use Rattle.opus_words.specs.Options.{have_defaults, row_of};

use crate::kind::JobKind::{
    self, Apart, Check, Extract, Join, Make, Merge, Norm, Pad, Recv, Replay, Send, Show, Split,
    Trial,
};
use crate::option::Opt;
use Lack::{FirstWord, Needed, Number, Open};
use Values::{Forms, Numbers, Paddings};

/// The values that an option takes.
#[derive(Clone, Copy, Debug, PartialEq, Eq)]
pub(crate) enum Values {
    /// The word of one of the job's forms.
    Forms,
    /// A number from the first to the second, in decimal digits.
    Numbers(u32, u32),
    /// `drop` or `keep`.
    Paddings,
}

/// What stands where an option of the job isn't given.
#[derive(Clone, Copy, Debug, PartialEq, Eq)]
pub(crate) enum Lack {
    /// The option is needed.
    Needed,
    /// There is no bound, or any value will do.
    Open,
    /// The first of the option's words.
    FirstWord,
    /// This number.
    Number(u32),
}

/// A row of the table: an option's name, its values, and the jobs that take it.
#[derive(Clone, Copy)]
pub(crate) struct Row {
    pub(crate) name: &'static str,
    pub(crate) values: Values,
    pub(crate) jobs: &'static [(JobKind, Lack)],
    ghost defaults_fit: { IsTrue (have_defaults values jobs.now) },
}

impl Row {
    /// The option's row.
    pub(crate) fn of(opt: Opt) -> Row
        ensures name { result.name.now ≡ (row_of opt).name }
        ensures values { result.values ≡ (row_of opt).values }
        ensures jobs { result.jobs.now ≡ (row_of opt).jobs }
    {
        match opt {
            Opt::Form => Row::new(
                "form",
                Forms,
                &[
                    (Norm, FirstWord),
                    (Check, FirstWord),
                    (Show, FirstWord),
                    (Merge, FirstWord),
                    (Split, FirstWord),
                    (Pad, FirstWord),
                ],
            ),
            Opt::Streams => Row::new(
                "streams",
                Numbers(1, 255),
                &[
                    (Norm, Number(1)),
                    (Check, Number(1)),
                    (Show, Number(1)),
                    (Apart, Needed),
                    (Join, Needed),
                    (Extract, Needed),
                ],
            ),
            Opt::Stream => Row::new("stream", Numbers(0, 254), &[(Extract, Needed)]),
            Opt::Group => Row::new("group", Numbers(1, 48), &[(Merge, Open)]),
            Opt::Frames => Row::new("frames", Numbers(1, 48), &[(Split, Number(1))]),
            Opt::Size => Row::new("size", Numbers(1, 33_554_431), &[(Pad, Needed)]),
            Opt::Pt => Row::new(
                "pt",
                Numbers(0, 127),
                &[(Send, Number(96)), (Recv, Open), (Replay, Open)],
            ),
            Opt::Seq => Row::new("seq", Numbers(0, 65_535), &[(Send, Number(0))]),
            Opt::Stamp => Row::new("stamp", Numbers(0, u32::MAX), &[(Send, Number(0))]),
            Opt::Ssrc => Row::new(
                "ssrc",
                Numbers(0, u32::MAX),
                &[(Send, Number(0)), (Recv, Open), (Replay, Open)],
            ),
            Opt::Seed => Row::new(
                "seed",
                Numbers(0, u32::MAX),
                &[(Make, Number(0)), (Trial, Number(0))],
            ),
            Opt::Count => Row::new(
                "count",
                Numbers(0, 1_000_000),
                &[(Make, Needed), (Trial, Needed)],
            ),
            Opt::Padding => Row::new("padding", Paddings, &[(Norm, FirstWord)]),
        }
    }

    fn new(name: &'static str, values: Values, jobs: &'static [(JobKind, Lack)]) -> Row
        requires { IsTrue (have_defaults values jobs.now) }
        ensures name { result.name.now ≡ name.now }
        ensures values { result.values ≡ values }
        ensures jobs { result.jobs.now ≡ jobs.now }
    {
        Row { name, values, jobs }
    }
}
