//! The job pad: each packet in its padded form of a size.
ghost use Rattle.std.specs.Prelude.{◌≡◌, ◌<◌, ◌≤◌, ◌^◌, Ok, Err, IfOk, OnOk, length, vec_capacity};
ghost use Rattle.pack_jobs.specs.Pad.{pad, pad_found, padded_of};

use crate::record::write_record;
use crate::refusal::{Refusal, Why, refusal_at};
use job_ends::{Answer, Each, Make};
use job_loop::{JobStop, Lent};
use opus_io::{NoMemory, Sink};
use opus_packet::Packet;
use opus_words::Form;
use opus_writer::{PadFault, write_padded};
use pack_records::{Cut, Found, Item, lent_packet};
use std::alloc::Global;

/// Writes each packet in its padded form of so many bytes. Ranges and lost records stay.
#[derive(Drop)]
pub(crate) struct Pad {
    form: Form,
    // Bytes of each packet that is written.
    size: u32,
    // The padded form that was made last.
    padded: Vec<u8>,
    ghost small: { size < 2 ^ 32 },
    ghost room: { size ≤ vec_capacity padded },
}

impl Pad {
    ghost use Rattle.std.specs.Prelude.{◌<◌, ◌≤◌, ◌^◌, vec_capacity};
    ghost use Rattle.job_ends.specs.EachStands.{EachStands};
    ghost use Rattle.pack_jobs.specs.PadJob.{pad_job, padded_room};

    /// The job over an input of this form, before its first record: packets of `size` bytes. It takes all memory that it
    /// needs, `size` bytes.
    pub(crate) fn job(alloc: Global, form: Form, size: u32) -> Result<Each<Pad>, NoMemory>
        ensures job { IfOk result (λ p. pad_job p ≡ pad form size) }
        ensures stands { IfOk result (λ p. EachStands p 0) }
        ensures memory { IfOk result (λ p. padded_room p ≡ size) }
    {
        let padded = Vec::with_capacity(alloc, size as usize)?;
        Ok(Each::new(Pad { form, size, padded }))
    }

    // Makes the padded form of a packet, or tells why there is none of this size.
    fn fill(&mut self, packet: &Packet<'_>) -> Result<(), Why>
        ensures form { self.new.form ≡ self.old.form }
        ensures size { self.new.size ≡ self.old.size }
        ensures ok { OnOk result (padded_of packet.now.value self.old.size ≡ Ok self.new.padded.items) }
        ensures small { OnOk result (length self.new.padded.items ≡ self.old.size) }
        ensures err { (why : Why) → result ≡ Err why → padded_of packet.now.value self.old.size ≡ Err why }
    {
        self.padded.clear();
        match write_padded(packet, self.size, &mut self.padded) {
            Ok(()) => Ok(()),
            Err(PadFault::TooSmall) => Err(Why::TooSmall),
            Err(PadFault::PadLimit) => Err(Why::PadLimit),
            Err(PadFault::NoMemory) => unreachable!(),
        }
    }

    // The padded form that was made last.
    fn padded(&self) -> &[u8]
        ensures { result.now ≡ self.now.padded.items }
    {
        &self.padded
    }
}

impl Make<Item, Cut> for Pad {
    type Why = Why;

    ghost made = { λ p number r. pad_found p.form p.size r r.item.found };

    #[inline(always)]
    fn make<O: Sink>(&mut self, number: u64, item: &Lent<'_, Item>, out: &mut O) -> Answer<Why> {
        let record = item.item();
        match record.found {
            Found::Bad(fault) => return Err(JobStop::Refused(refusal_at(number, record, fault))),
            Found::Lost => write_record(self.form, record.range, &[], out)?,
            Found::Packet { framing, .. } => {
                if let Some(packet) = lent_packet(framing, item.bytes()) {
                    match self.fill(&packet) {
                        Ok(()) => write_record(self.form, record.range, self.padded(), out)?,
                        Err(why) => {
                            let refusal = Refusal::new(number, record.place, why);
                            return Err(JobStop::Refused(refusal));
                        }
                    }
                }
            }
        }
        Ok(())
    }
}
