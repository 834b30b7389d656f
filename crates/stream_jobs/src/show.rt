//! The job show: the lines of the packet of each stream.
ghost use Rattle.std.specs.Prelude.{◌≡◌, ◌≤◌, OnOk, OnErr, length};
ghost use Rattle.std.specs.Io.KnownBytes.{Appends};
ghost use Rattle.opus_io.specs.Sink.{SinkCause, Onward};
ghost use Rattle.job_loop.specs.Telling.{Front};
ghost use Rattle.pack_jobs.specs.Show.{lost_line};
ghost use Rattle.stream_jobs.specs.StreamsIn.{streams_in};
ghost use Rattle.stream_jobs.specs.Show.{show_makes, stream_lines};

use crate::of_streams::MakeStreams;
use crate::refusal::StreamAnswer;
use crate::stream_packets::StreamPackets;
use arrayvec::ArrayString;
use job_loop::Lent;
use opus_io::{Sink, SinkStop, write_all};
use pack_jobs::{decimal_text, write_packet_lines};
use stream_records::{Spelling, StreamsItem};

/// Writes the lines of the packet of each stream, as it was spelled, and a line for each lost record.
#[derive(Drop)]
pub(crate) struct Show {
    pub streams: u8,
}

impl MakeStreams for Show {
    ghost makes = { λ s. show_makes s.streams };

    fn packets<O: Sink>(
        &self,
        number: u64,
        item: &Lent<'_, StreamsItem>,
        out: &mut O,
    ) -> StreamAnswer {
        let packets = StreamPackets::new(self.streams, item.bytes());
        write_lines(number, item.item().streams.as_slice(), packets, out)?;
        Ok(())
    }

    fn lost<O: Sink>(&self, number: u64, _: u32, out: &mut O) -> Result<(), SinkStop> {
        let line = lost_line(number);
        write_all(out, line.as_str().as_bytes())
    }
}

// Writes the lines of each stream, by how it was spelled.
fn write_lines<O: Sink>(
    number: u64,
    spellings: &[Spelling],
    mut packets: StreamPackets<'_>,
    out: &mut O,
) -> Result<(), SinkStop>
    requires { length spellings.now ≤ 255 }
    ensures ok { OnOk result (Appends (O.contents out.old) (O.contents out.new)
        (stream_lines number 0 spellings.now packets.entry)) }
    ensures front { OnErr result (Front (stream_lines number 0 spellings.now packets.entry)
        (O.contents out.old) (O.contents out.new)) }
    ensures cause { SinkCause (O.faults out.old) (O.faults out.new)
        (O.refusals out.old) (O.refusals out.new) result }
    ensures onward { Onward (O.onto out.old) (O.onto out.new) (O.handed out.old) (O.handed out.new) }
{
    'spellings: for (stream, spelling) in spellings.iter().enumerate() {
        let Some(packet) = packets.next() else {
            return Ok(());
        };
        let shape = spelling.shape;
        write_packet_lines(number, stream as u8, shape, spelling.size, &packet, out)?;
    }
    Ok(())
}

// `K: lost`.
fn lost_line(number: u64) -> ArrayString<32>
    ensures { result.bytes ≡ lost_line number }
{
    let mut line = ArrayString::new();
    line.push_str(decimal_text(number).as_str());
    line.push_str(": lost\n");
    line
}
