//! The exit statuses.
ghost use Rattle.std.specs.Prelude.{◌≡◌};
ghost use Rattle.opuspack.specs.Finish.{code_of};

/// How the program ended, for its caller.
#[derive(Clone, Copy, Debug, PartialEq, Eq)]
pub enum Status {
    /// 0: the job is done.
    Ok,
    /// 1: the input has a fault.
    Refused,
    /// 2: the words stand for no job.
    Usage,
    /// 3: the input couldn't be read.
    ReadFault,
    /// 4: the output couldn't be written.
    WriteFault,
    /// 5: memory ran out.
    NoMemory,
    /// 6: the input is longer than the limit.
    InputLimit,
}

impl Status {
    /// The exit status of the process.
    pub fn code(self) -> u8
        ensures { result ≡ code_of self }
    {
        match self {
            Status::Ok => 0,
            Status::Refused => 1,
            Status::Usage => 2,
            Status::ReadFault => 3,
            Status::WriteFault => 4,
            Status::NoMemory => 5,
            Status::InputLimit => 6,
        }
    }
}
