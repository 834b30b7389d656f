//! Where the machine of the form of captures stands.
ghost use Rattle.std.specs.Prelude.{◌≡◌};

// Where the machine stands in a capture.
#[derive(Clone, Copy, PartialEq, Eq)]
pub(crate) enum Mode {
    /// Within the first line.
    Line,
    /// Within the head behind it.
    Head,
    /// Between two records. The last one, if any, lies in the bytes taken last.
    Fresh,
    /// Between two records. The last one is kept.
    Kept,
    /// Behind the first byte of a record, which is kept.
    First,
    /// Within a record whose length is known; its first bytes are kept.
    Part,
    /// Where the capture goes wrong.
    Bad,
}

impl Mode {
    ghost use Rattle.dump_records.specs.Modes.{is_within};

    /// Whether an end of the input cuts the capture.
    pub(crate) fn is_within(self) -> bool
        ensures { result ≡ is_within self }
    {
        match self {
            Mode::Line | Mode::Head | Mode::First | Mode::Part => true,
            Mode::Fresh | Mode::Kept | Mode::Bad => false,
        }
    }
}
