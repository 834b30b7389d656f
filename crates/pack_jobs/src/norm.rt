//! The job norm: each packet in its kept form.
ghost use Rattle.std.specs.Prelude.{◌≡◌};
ghost use Rattle.pack_jobs.specs.Norm.{is_long, norm_found};

use crate::record::write_record;
use crate::refusal::{Refusal, Why, refusal_at};
use job_ends::{Answer, Make};
use job_loop::{JobStop, Lent};
use opus_feed::Padding;
use opus_io::Sink;
use opus_packet::Shape;
use opus_words::Form;
use pack_records::{Cut, Found, Item};

// The padding of a packet whose padding bytes can be kept has at most so many bytes, with its length: 65,535 of them,
// and 259 for the length.
const MOST_PAD: u32 = 65_794;

/// Writes each packet in its kept form, in the form of the input. With `Padding::Drop` that is the canonical form.
#[derive(Drop)]
pub(crate) struct Norm {
    pub form: Form,
    pub padding: Padding,
}

impl Norm {
    fn is_long(&self, shape: Shape) -> bool
        ensures { result ≡ is_long self.now.padding shape }
    {
        match self.padding {
            Padding::Drop => false,
            Padding::Keep => shape.pad > MOST_PAD,
        }
    }
}

impl Make<Item, Cut> for Norm {
    type Why = Why;

    ghost made = { λ n number r. norm_found n.form n.padding r r.item.found };

    #[inline(always)]
    fn make<O: Sink>(&mut self, number: u64, item: &Lent<'_, Item>, out: &mut O) -> Answer<Why> {
        let record = item.item();
        match record.found {
            Found::Packet { shape, .. } => {
                if self.is_long(shape) {
                    let refusal = Refusal::new(number, record.place, Why::PaddingLong);
                    return Err(JobStop::Refused(refusal));
                }
                write_record(self.form, record.range, item.bytes(), out)?;
            }
            Found::Lost => write_record(self.form, record.range, &[], out)?,
            Found::Bad(fault) => return Err(JobStop::Refused(refusal_at(number, record, fault))),
        }
        Ok(())
    }
}
