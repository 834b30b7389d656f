//! How an input ends.
ghost use Rattle.std.specs.Prelude.{◌≡◌};
ghost use Rattle.job_loop.specs.Meaning.{end_of};

/// How the input ends behind its records.
#[derive(Clone, Copy, Debug, PartialEq, Eq)]
pub enum InputEnd<C> {
    /// With a whole record.
    Closed,
    /// Inside of one. The form says how.
    Cut(C),
    /// It goes on past the limit.
    Past,
}

/// The end of an input within the limit, from its cut if there is one.
pub(crate) fn end_of<C: Copy>(cut: Option<C>) -> InputEnd<C>
    ensures { result ≡ end_of cut }
{
    match cut {
        None => InputEnd::Closed,
        Some(cut) => InputEnd::Cut(cut),
    }
}
