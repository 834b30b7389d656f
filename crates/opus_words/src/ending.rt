//! How a job ends.
use arrayvec::ArrayString;

/// The fault that a refused job names.
#[derive(Clone, Copy, Debug, PartialEq, Eq)]
pub struct JobFault {
    /// The record, from 0; in a text the line, from 0.
    pub index: u64,
    /// The place in the input, in bytes from its beginning.
    pub place: u64,
    /// The rule that is broken, as the note prints it.
    pub text: ArrayString<64>,
}

/// How a job ended.
#[derive(Clone, Copy, Debug, PartialEq, Eq)]
pub enum Ending {
    /// The job is done.
    Ok,
    /// The input has a fault.
    Refused(JobFault),
    /// The input couldn't be read.
    ReadFault,
    /// The output couldn't be written.
    WriteFault,
    /// Memory ran out.
    NoMemory,
    /// The input is longer than the limit.
    InputLimit,
}
