//! The job show: the lines of each packet.
ghost use Rattle.std.specs.Prelude.{◌≡◌, OnOk, OnErr};
ghost use Rattle.std.specs.Io.KnownBytes.{Appends};
ghost use Rattle.opus_io.specs.Sink.{SinkCause, Onward};
ghost use Rattle.job_loop.specs.Telling.{Front};
ghost use Rattle.pack_jobs.specs.Show.{show_found, lost_line};

use crate::line::Line;
use crate::packet_lines::write_packet_lines;
use crate::refusal::{Refusal, Why, refusal_at};
use job_ends::{Answer, Make};
use job_loop::{JobStop, Lent};
use opus_io::{Sink, SinkStop, write_all};
use pack_records::{Cut, Found, Item, lent_packet};

/// Writes the lines of each packet, as it was spelled, and a line for each lost record.
#[derive(Drop)]
pub(crate) struct Show;

impl Make<Item, Cut> for Show {
    type Why = Why;

    ghost made = { λ s number r. show_found number r r.item.found };

    #[inline(always)]
    fn make<O: Sink>(&mut self, number: u64, item: &Lent<'_, Item>, out: &mut O) -> Answer<Why> {
        let record = item.item();
        match record.found {
            Found::Packet {
                framing,
                shape,
                size,
            } => {
                if let Some(packet) = lent_packet(framing, item.bytes()) {
                    write_packet_lines(number, 0, shape, size, &packet, out)?;
                }
            }
            Found::Lost => write_lost(number, out)?,
            Found::Bad(fault) => return Err(JobStop::Refused(refusal_at(number, record, fault))),
        }
        Ok(())
    }
}

// Writes `K: lost`.
fn write_lost<O: Sink>(number: u64, out: &mut O) -> Result<(), SinkStop>
    ensures ok { OnOk result (Appends (O.contents out.old) (O.contents out.new) (lost_line number)) }
    ensures front { OnErr result (Front (lost_line number) (O.contents out.old) (O.contents out.new)) }
    ensures cause { SinkCause (O.faults out.old) (O.faults out.new)
        (O.refusals out.old) (O.refusals out.new) result }
    ensures onward { Onward (O.onto out.old) (O.onto out.new) (O.handed out.old) (O.handed out.new) }
{
    let mut line = Line::<32>::new();
    line.piece(b": lost\n");
    line.number(number);
    write_all(out, line.as_slice())
}
