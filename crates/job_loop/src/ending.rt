//! How a run ends.

/// How a run over an input ended. A job tells its refusals by an `R`.
#[derive(Clone, Copy, Debug, PartialEq, Eq)]
pub enum Ending<R> {
    /// All of the input was read, and all of the text is written.
    Ok,
    /// The input is refused. What stands before the refusal is written.
    Refused(R),
    /// A read failed. What the bytes taken settle is written.
    ReadFault,
    /// A write failed. A front of the text is written.
    WriteFault,
    /// The input is longer than the limit. What the bytes up to the limit settle is written.
    InputLimit,
    /// Memory ran out. A front of the text is written.
    NoMemory,
}
