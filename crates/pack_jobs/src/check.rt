//! The job check: a line for each record.
ghost use Rattle.std.specs.Prelude.{◌≡◌, ◌≤◌, ◌+◌, Option, Some, length, codes, OnOk, OnErr, ◌++◌, ◌∷◌, []};
ghost use Rattle.std.specs.Io.KnownBytes.{Appends};
ghost use Rattle.opus_io.specs.Sink.{SinkCause, Onward};
ghost use Rattle.job_loop.specs.Telling.{Front};
ghost use Rattle.pack_jobs.specs.Check.{check, CheckKept, check_line, first_refusal};
ghost use Rattle.pack_jobs.specs.Refusal.{fault_text};

use crate::line::Line;
use crate::refusal::{Refusal, Why, refusal_at};
use crate::text::fault_text;
use job_ends::{Answer, end_by_first};
use job_loop::{InputEnd, JobStop, Lent, RecordJob};
use opus_io::{Sink, SinkStop, write_all};
use opus_packet::Fault;
use opus_words::Form;
use pack_records::{Cut, Found, Item};

/// Tells of each record whether its packet is well formed, and names the first fault at the end.
#[derive(Drop)]
pub struct Check {
    form: Form,
    // How many records were taken.
    count: u64,
    first: Option<Refusal>,
}

impl Check {
    ghost use Rattle.pack_jobs.specs.CheckStands.{check_job, CheckStands};

    /// The job over an input of this form, before its first record.
    pub fn new(form: Form) -> Check
        ensures job { check_job result ≡ check form }
        ensures stands { CheckStands result (check form).start }
    {
        Check {
            form,
            count: 0,
            first: None,
        }
    }

    // Keeps a refusal if it is the first, and answers the first.
    #[cold]
    fn keep(&mut self, refusal: Refusal) -> Refusal
        ensures first { result ≡ first_refusal self.old.first refusal }
        ensures kept { self.new.first ≡ Some result }
        ensures form { self.new.form ≡ self.old.form }
        ensures count { self.new.count ≡ self.old.count }
    {
        let first = self.first.unwrap_or(refusal);
        self.first = Some(first);
        first
    }
}

impl RecordJob<Item, Cut> for Check {
    ghost use Rattle.pack_jobs.specs.CheckStands.{check_job, CheckStands};

    type Refusal = Refusal;

    ghost Kept = { CheckKept };

    ghost meaning = { check_job };

    ghost stands = { CheckStands };

    fn opening(&self) -> &[u8] {
        &[]
    }

    fn take<O: Sink>(&mut self, item: &Lent<'_, Item>, out: &mut O) -> Answer<Why> {
        match item.item().found {
            Found::Packet { .. } => write_word(self.count, b"ok", out)?,
            Found::Lost => write_word(self.count, b"lost", out)?,
            Found::Bad(fault) => {
                write_fault(self.count, fault, out)?;
                let first = self.keep(refusal_at(self.count, item.item(), fault));
                if self.form == Form::SelfDelimited {
                    return Err(JobStop::Refused(first));
                }
            }
        }
        self.count = self.count.saturating_add(1);
        Ok(())
    }

    fn finish<O: Sink>(&mut self, end: &InputEnd<Cut>, _: &mut O) -> Answer<Why> {
        end_by_first(self.first, self.count, end)
    }
}

// Writes `K WORD`.
#[inline(always)]
fn write_word<O: Sink>(count: u64, word: &[u8], out: &mut O) -> Result<(), SinkStop>
    requires { length word.now ≤ 32 }
    ensures ok { OnOk result (Appends (O.contents out.old) (O.contents out.new)
        (check_line count word.now)) }
    ensures front { OnErr result (Front (check_line count word.now)
        (O.contents out.old) (O.contents out.new)) }
    ensures cause { SinkCause (O.faults out.old) (O.faults out.new)
        (O.refusals out.old) (O.refusals out.new) result }
    ensures onward { Onward (O.onto out.old) (O.onto out.new) (O.handed out.old) (O.handed out.new) }
{
    let mut line = Line::<64>::new();
    line.piece(b"\n");
    line.piece(word);
    line.piece(b" ");
    line.number(count);
    write_all(out, line.as_slice())
}

// Writes `K RULE at P`.
#[cold]
#[inline(never)]
fn write_fault<O: Sink>(count: u64, fault: Fault, out: &mut O) -> Result<(), SinkStop>
    ensures ok { OnOk result (Appends (O.contents out.old) (O.contents out.new)
        (check_line count (fault_text fault))) }
    ensures front { OnErr result (Front (check_line count (fault_text fault))
        (O.contents out.old) (O.contents out.new)) }
    ensures cause { SinkCause (O.faults out.old) (O.faults out.new)
        (O.refusals out.old) (O.refusals out.new) result }
    ensures onward { Onward (O.onto out.old) (O.onto out.new) (O.handed out.old) (O.handed out.new) }
{
    write_word(count, fault_text(fault).as_str().as_bytes(), out)
}
