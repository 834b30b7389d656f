//! The job check: a line for each record.
ghost use Rattle.std.specs.Prelude.{◌≡◌, ◌≤◌, ◌+◌, ◌++◌, ◌∷◌, [], None, Some, unwrap_or, length, codes, OnOk, OnErr};
ghost use Rattle.std.specs.Io.KnownBytes.{Appends};
ghost use Rattle.opus_io.specs.Sink.{SinkCause, Onward};
ghost use Rattle.job_loop.specs.Telling.{Front};
ghost use Rattle.pack_jobs.specs.Check.{check_line};
ghost use Rattle.stream_jobs.specs.Check.{check, CheckKept};
ghost use Rattle.stream_jobs.specs.Refusal.{why_text};
ghost use Rattle.job_ends.specs.Refusal.{refusal_of};

use crate::bad::{bad_place, fault_why};
use crate::refusal::{StreamAnswer, StreamRefusal, StreamWhy};
use arrayvec::ArrayString;
use job_ends::{Reason, end_by_first};
use job_loop::{InputEnd, Lent, RecordJob};
use opus_io::{Sink, SinkStop, write_all};
use pack_jobs::decimal_text;
use pack_records::Cut;
use stream_records::{StreamsFound, StreamsItem};

/// Tells of each record whether its multistream packet is well formed, and names the first fault at the end.
#[derive(Drop)]
pub(crate) struct Check {
    streams: u8,
    // How many records were taken.
    count: u64,
    first: Option<StreamRefusal>,
}

impl Check {
    /// The job over records of so many streams, before the first record.
    pub(crate) fn new(streams: u8) -> Check
        ensures streams { result.streams ≡ streams }
        ensures count { result.count ≡ 0 }
        ensures first { result.first ≡ None }
    {
        Check {
            streams,
            count: 0,
            first: None,
        }
    }

    // Writes the line of a bad record, and keeps its refusal if it is the first.
    #[cold]
    #[inline(never)]
    fn tell<O: Sink>(&mut self, place: u64, why: StreamWhy, out: &mut O) -> Result<(), SinkStop>
        ensures streams { self.new.streams ≡ self.old.streams }
        ensures count { self.new.count ≡ self.old.count }
        ensures first { self.new.first ≡ Some (unwrap_or self.old.first (refusal_of self.old.count place why)) }
        ensures ok { OnOk result (Appends (O.contents out.old) (O.contents out.new)
            (check_line self.old.count (why_text why))) }
        ensures front { OnErr result (Front (check_line self.old.count (why_text why))
            (O.contents out.old) (O.contents out.new)) }
        ensures cause { SinkCause (O.faults out.old) (O.faults out.new)
            (O.refusals out.old) (O.refusals out.new) result }
        ensures onward { Onward (O.onto out.old) (O.onto out.new) (O.handed out.old) (O.handed out.new) }
    {
        let refusal = StreamRefusal::new(self.count, place, why);
        self.first = Some(self.first.unwrap_or(refusal));
        write_line(self.count, why.text().as_str(), out)
    }
}

impl RecordJob<StreamsItem, Cut> for Check {
    ghost use Rattle.stream_jobs.specs.CheckStands.{CheckStands};

    type Refusal = StreamRefusal;

    ghost Kept = { CheckKept };

    ghost meaning = { λ c. check c.streams };

    ghost stands = { CheckStands };

    fn opening(&self) -> &[u8] {
        &[]
    }

    fn take<O: Sink>(&mut self, item: &Lent<'_, StreamsItem>, out: &mut O) -> StreamAnswer {
        match item.item().found {
            StreamsFound::Packets => write_line(self.count, "ok", out)?,
            StreamsFound::Lost => write_line(self.count, "lost", out)?,
            StreamsFound::Broken {
                stream,
                start,
                fault,
            } => self.tell(
                bad_place(start, fault),
                fault_why(self.streams, stream, fault),
                out,
            )?,
            StreamsFound::Unequal { stream, start } => {
                self.tell(start, StreamWhy::Unequal(stream), out)?
            }
        }
        self.count = self.count.saturating_add(1);
        Ok(())
    }

    fn finish<O: Sink>(&mut self, end: &InputEnd<Cut>, _: &mut O) -> StreamAnswer {
        end_by_first(self.first, self.count, end)
    }
}

// Writes `K TEXT`.
#[inline(always)]
fn write_line<O: Sink>(number: u64, text: &str, out: &mut O) -> Result<(), SinkStop>
    requires { length text.now ≤ 64 }
    ensures ok { OnOk result (Appends (O.contents out.old) (O.contents out.new)
        (check_line number text.now)) }
    ensures front { OnErr result (Front (check_line number text.now)
        (O.contents out.old) (O.contents out.new)) }
    ensures cause { SinkCause (O.faults out.old) (O.faults out.new)
        (O.refusals out.old) (O.refusals out.new) result }
    ensures onward { Onward (O.onto out.old) (O.onto out.new) (O.handed out.old) (O.handed out.new) }
{
    let line = line_of(number, text);
    write_all(out, line.as_str().as_bytes())
}

// `K TEXT`, with the end of the line.
fn line_of(number: u64, text: &str) -> ArrayString<96>
    requires { length text.now ≤ 64 }
    ensures { result.bytes ≡ check_line number text.now }
{
    let mut line = ArrayString::new();
    line.push_str(decimal_text(number).as_str());
    line.push_str(" ");
    line.push_str(text);
    line.push_str("\n");
    line
}
