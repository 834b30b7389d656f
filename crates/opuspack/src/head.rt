//! The job head: lines that tell of the OpusHead that is the whole input (RFC 7845, 5.1; RFC 8486).
ghost use Rattle.std.specs.Prelude.{◌≡◌, ◌≤◌, OnOk, OnErr};
ghost use Rattle.opus_io.specs.Reader.{max_input};
ghost use Rattle.std.specs.Io.KnownBytes.{Appends};
ghost use Rattle.opus_io.specs.Sink.{SinkCause, Onward};
ghost use Rattle.job_loop.specs.Telling.{Front};
ghost use Rattle.opuspack.specs.Head.{head, head_fault_text, TellsHead};
ghost use Rattle.opuspack.specs.HeadEnds.{HeadEnds};
ghost use Rattle.opuspack.specs.HeadLines.{head_lines, matrix_line};

use crate::head_texts::{Channels, Factors, field_lines};
use crate::never::Never;
use crate::texts::write_texts;
use crate::whole::{WholeForm, WholeInput};
use arrayvec::ArrayString;
use job_ends::{Told, run_told, text_of};
use job_loop::{InputEnd, JobStop, Lent, RecordJob};
use opus_head::{Head, HeadFault, Table, read_head};
use opus_io::{NoMemory, Sink, SinkStop, Source, write_all};
use opus_words::{Ending, JobFault};
use pack_jobs::decimal_text;
use std::alloc::Global;

/// Why an input is no OpusHead.
#[derive(Clone, Copy, Debug, PartialEq, Eq)]
pub(crate) struct HeadRefusal {
    /// The place in the input, in bytes from its beginning.
    pub(crate) place: u64,
    /// The first check that fails.
    pub(crate) fault: HeadFault,
}

/// Tells of the OpusHead that `source` has up to `limit` bytes, from 1 to 2^40. A fault is decided by the end.
pub(crate) fn head_job<S: Source, O: Sink>(
    alloc: Global,
    limit: u64,
    source: &mut S,
    out: &mut O,
) -> Ending
    requires some { 1 ≤ limit }
    requires most { limit ≤ max_input }
    ensures { HeadEnds limit
        (record {
          left = S.left source.old;
          reads = S.faults source.old;
          contents = O.contents out.old;
          writes = O.faults out.old;
          refusals = O.refusals out.old;
        })
        (record {
          left = S.left source.new;
          reads = S.faults source.new;
          contents = O.contents out.new;
          writes = O.faults out.new;
          refusals = O.refusals out.new;
        }) result }
{
    match WholeForm::new(alloc) {
        Ok(form) => {
            let mut job = HeadJob { alloc };
            run_told(alloc, limit, form, &mut job, source, out)
        }
        Err(NoMemory) => Ending::NoMemory,
    }
}

// What the job answers to its one record or to the end.
type Answer = Result<(), JobStop<HeadRefusal>>;

/// Writes the lines of the head that the input's first bytes are.
#[derive(Drop)]
struct HeadJob {
    alloc: Global,
}

impl RecordJob<WholeInput, Never> for HeadJob {
    type Refusal = HeadRefusal;

    ghost Kept = { Unit {0} };

    ghost meaning = { λ _. head };

    ghost stands = { λ _ _. Unit {0} };

    ghost lacks = { λ _. Unit {0} };

    fn opening(&self) -> &[u8] {
        &[]
    }

    fn take<O: Sink>(&mut self, item: &Lent<'_, WholeInput>, out: &mut O) -> Answer {
        let bytes = item.bytes();
        match read_head(self.alloc, bytes) {
            Ok(head) => match write_head_lines(&head, out) {
                Ok(()) => Ok(()),
                Err(stop) => Err(JobStop::Sink(stop)),
            },
            Err(HeadFault::NoMemory) => Err(JobStop::Sink(SinkStop::NoMemory)),
            Err(fault) => Err(JobStop::Refused(HeadRefusal {
                place: fault.place(bytes),
                fault,
            })),
        }
    }

    fn finish<O: Sink>(&mut self, _: &InputEnd<Never>, _: &mut O) -> Answer {
        Ok(())
    }
}

// Writes all lines of a head.
fn write_head_lines<O: Sink>(head: &Head, out: &mut O) -> Result<(), SinkStop>
    ensures ok { OnOk result (Appends (O.contents out.old) (O.contents out.new) (head_lines head.now)) }
    ensures front { OnErr result (Front (head_lines head.now) (O.contents out.old) (O.contents out.new)) }
    ensures cause { SinkCause (O.faults out.old) (O.faults out.new)
        (O.refusals out.old) (O.refusals out.new) result }
    ensures onward { Onward (O.onto out.old) (O.onto out.new) (O.handed out.old) (O.handed out.new) }
{
    if let Err(stop) = write_all(out, field_lines(head).as_str().as_bytes()) {
        return Err(stop);
    }
    if let Err(stop) = write_texts(&Channels { head }, out) {
        return Err(stop);
    }
    write_matrix(head, out)
}

// Writes the factors of a head that has any.
fn write_matrix<O: Sink>(head: &Head, out: &mut O) -> Result<(), SinkStop>
    ensures ok { OnOk result (Appends (O.contents out.old) (O.contents out.new)
        (matrix_line head.now head.now.table)) }
    ensures front { OnErr result (Front (matrix_line head.now head.now.table)
        (O.contents out.old) (O.contents out.new)) }
    ensures cause { SinkCause (O.faults out.old) (O.faults out.new)
        (O.refusals out.old) (O.refusals out.new) result }
    ensures onward { Onward (O.onto out.old) (O.onto out.new) (O.handed out.old) (O.handed out.new) }
{
    let Table::Matrix { .. } = head.table() else {
        return Ok(());
    };
    if let Err(stop) = write_all(out, b"matrix:") {
        return Err(stop);
    }
    if let Err(stop) = write_texts(&Factors { head }, out) {
        return Err(stop);
    }
    write_all(out, b"\n")
}

impl Told for HeadRefusal {
    ghost tells = { TellsHead };

    // The fault of the one record that the input is.
    fn fault(self) -> JobFault {
        JobFault {
            index: 0,
            place: self.place,
            text: fault_text(self.fault),
        }
    }
}

fn fault_text(fault: HeadFault) -> ArrayString<64>
    ensures { result.bytes ≡ head_fault_text fault }
{
    match fault {
        HeadFault::Magic(_) => text_of("magic"),
        HeadFault::Cut(_) => text_of("cut"),
        HeadFault::Version => text_of("version"),
        HeadFault::Channels => text_of("channels"),
        HeadFault::Streams => text_of("streams"),
        HeadFault::Coupled => text_of("coupled"),
        HeadFault::MapByte(channel) => mapping_text(channel),
        HeadFault::Extra => text_of("extra"),
        HeadFault::NoMemory => ArrayString::new(),
    }
}

fn mapping_text(channel: u8) -> ArrayString<64>
    ensures { result.bytes ≡ head_fault_text (HeadFault.MapByte channel) }
{
    let mut text = text_of("mapping ");
    text.push_str(decimal_text(u64::from(channel)).as_str());
    text
}
