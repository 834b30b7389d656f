//! The job trial: made records in normal form, and a line that tells their totals.
ghost use Rattle.std.specs.Prelude.{◌≡◌, ◌+◌, ◌*◌, ◌≤◌, ◌++◌, List, length, sum, OnOk, OnErr};
ghost use Rattle.std.specs.Io.KnownBytes.{Appends};
ghost use Rattle.opus_io.specs.Sink.{SinkCause, Onward};
ghost use Rattle.job_loop.specs.Telling.{Front};
ghost use Rattle.rec_store.specs.DemoStore.{demo_record};
ghost use Rattle.opus_packet.specs.Canonical.{canonical};
ghost use Rattle.opuspack.specs.Totals.{Adds};
ghost use Rattle.opuspack.specs.Trial.{trial, trial_text};
ghost use Rattle.opuspack.specs.declared.made.MadeRecord.{MadeRecord as MadeNumbers};
ghost use Rattle.opuspack.specs.WritesText.{WritesText};

use crate::made::MadeRecord;
use crate::never::Never;
use crate::run_generated::{Answer, run_generated};
use crate::totals::Totals;
use arrayvec::ArrayVec;
use job_loop::{InputEnd, Lent, RecordJob, write_both};
use opus_io::{Sink, SinkStop, write_all};
use opus_packet::{Packet, decode};
use opus_words::Ending;
use opus_writer::push_canon_header;
use rec_store::demo_head;
use std::alloc::Global;

/// Makes the first `count` records of a seed and brings each into normal form, one after the other, as norm does with a
/// store. Behind them it writes their totals.
pub(crate) fn trial_job<O: Sink>(alloc: Global, seed: u32, count: u32, out: &mut O) -> Ending
    ensures { WritesText (trial_text seed count) (O.contents out.old) (O.contents out.new)
        (O.faults out.old) (O.faults out.new) (O.refusals out.old) (O.refusals out.new)
        (out.new ≡ out.old) result }
{
    let mut job = Trial {
        totals: Totals::default(),
    };
    run_generated(alloc, seed, count, &mut job, out)
}

/// Writes each record in normal form, and counts.
#[derive(Drop)]
struct Trial {
    totals: Totals,
}

impl RecordJob<MadeRecord, Never> for Trial {
    ghost use Rattle.opuspack.specs.TrialStands.{TrialStands};

    type Refusal = Never;

    ghost Kept = { List MadeNumbers };

    ghost meaning = { λ _. trial };

    ghost stands = { TrialStands };

    fn opening(&self) -> &[u8] {
        &[]
    }

    fn take<O: Sink>(&mut self, item: &Lent<'_, MadeRecord>, out: &mut O) -> Answer {
        self.take_made(*item.item(), item.bytes(), out)?;
        Ok(())
    }

    fn finish<O: Sink>(&mut self, _: &InputEnd<Never>, out: &mut O) -> Answer {
        write_all(out, self.totals.line().as_str().as_bytes())?;
        Ok(())
    }
}

impl Trial {
    ghost use Rattle.opuspack.specs.Made.{IsMade};
    ghost use Rattle.opuspack.specs.Trial.{normal_record};
    ghost use Rattle.opuspack.specs.TrialStands.{Counts};

    // Counts a made record, and writes it in normal form.
    fn take_made<O: Sink>(
        &mut self,
        made: MadeRecord,
        bytes: &[u8],
        out: &mut O,
    ) -> Result<(), SinkStop>
        requires { IsMade made bytes.now }
        ensures ok { OnOk result (Appends (O.contents out.old) (O.contents out.new) (normal_record made)) }
        ensures counted { Counts self.old.totals made self.new.totals }
        ensures front { OnErr result (Front (normal_record made) (O.contents out.old) (O.contents out.new)) }
        ensures cause { SinkCause (O.faults out.old) (O.faults out.new)
            (O.refusals out.old) (O.refusals out.new) result }
        ensures onward { Onward (O.onto out.old) (O.onto out.new) (O.handed out.old) (O.handed out.new) }
    {
        if bytes.is_empty() {
            self.totals.add_lost();
            return write_record(made.number, &[], &[], out);
        }
        let Ok(packet) = decode(bytes) else {
            unreachable!()
        };
        self.take_packet(made.number, &packet, out)
    }

    // Counts a packet, and writes it in canonical form.
    fn take_packet<O: Sink>(
        &mut self,
        number: u32,
        packet: &Packet<'_>,
        out: &mut O,
    ) -> Result<(), SinkStop>
        ensures ok { OnOk result (Appends (O.contents out.old) (O.contents out.new)
            (demo_record number (canonical packet.now.value))) }
        ensures counted { Adds self.old.totals self.new.totals packet.now.value packet.now.size }
        ensures front { OnErr result (Front (demo_record number (canonical packet.now.value))
            (O.contents out.old) (O.contents out.new)) }
        ensures cause { SinkCause (O.faults out.old) (O.faults out.new)
            (O.refusals out.old) (O.refusals out.new) result }
        ensures onward { Onward (O.onto out.old) (O.onto out.new) (O.handed out.old) (O.handed out.new) }
    {
        let mut header: ArrayVec<u8, 96> = ArrayVec::new();
        push_canon_header(packet, &mut header);
        let body = packet.body();
        let sum = sum_of(header.as_slice()) + sum_of(body);
        self.totals.add_packet(packet, sum);
        write_record(number, header.as_slice(), body, out)
    }
}

// Writes the two parts of a packet, or none, as a record of a store.
fn write_record<O: Sink>(
    number: u32,
    header: &[u8],
    body: &[u8],
    out: &mut O,
) -> Result<(), SinkStop>
    requires header { length header.now ≤ 96 }
    requires body { length body.now ≤ 61200 }
    ensures ok { OnOk result (Appends (O.contents out.old) (O.contents out.new)
        (demo_record number (header.now ++ body.now))) }
    ensures front { OnErr result (Front (demo_record number (header.now ++ body.now))
        (O.contents out.old) (O.contents out.new)) }
    ensures cause { SinkCause (O.faults out.old) (O.faults out.new)
        (O.refusals out.old) (O.refusals out.new) result }
    ensures onward { Onward (O.onto out.old) (O.onto out.new) (O.handed out.old) (O.handed out.new) }
{
    let head = demo_head((header.len() + body.len()) as u32, number);
    if let Err(stop) = write_all(out, &head) {
        return Err(stop);
    }
    write_both(out, header, body)
}

// The sum of some bytes.
fn sum_of(bytes: &[u8]) -> u64
    requires { length bytes.now ≤ 61200 }
    ensures sum { result ≡ sum bytes.now }
    ensures most { result ≤ 255 * 61200 }
{
    bytes.iter().map(|byte| u64::from(*byte)).sum()
}
