//! How a run ends: its status and its note.
ghost use Rattle.std.specs.Prelude.{◌≡◌};
ghost use Rattle.opuspack.specs.Finish.{status_of, note_of, Noted};

use crate::line::line_of;
use crate::status::Status;
use opus_io::{Sink, write_all};
use opus_words::{Ending, UsageKind};

/// How a run ended.
#[derive(Clone, Copy)]
pub enum Finish {
    /// The words stand for no job.
    Usage(UsageKind),
    /// The words stand for a job, which ended so.
    Ended(Ending),
}

impl Finish {
    /// The status.
    pub fn status(&self) -> Status
        ensures { result ≡ status_of self.now }
    {
        match self {
            Finish::Usage(_) => Status::Usage,
            Finish::Ended(Ending::Ok) => Status::Ok,
            Finish::Ended(Ending::Refused(_)) => Status::Refused,
            Finish::Ended(Ending::ReadFault) => Status::ReadFault,
            Finish::Ended(Ending::WriteFault) => Status::WriteFault,
            Finish::Ended(Ending::NoMemory) => Status::NoMemory,
            Finish::Ended(Ending::InputLimit) => Status::InputLimit,
        }
    }

    /// Writes the note, if there is one, and answers the status. A note that can't be written changes no status.
    pub fn tell<E: Sink>(&self, note: &mut E) -> Status
        ensures status { result ≡ status_of self.now }
        ensures note { Noted (note_of self.now) (E.contents note.old) (E.contents note.new)
            (E.faults note.old) (E.faults note.new) (E.refusals note.old) (E.refusals note.new) }
    {
        let line = line_of(self);
        let _ = write_all(note, line.as_str().as_bytes());
        self.status()
    }
}
