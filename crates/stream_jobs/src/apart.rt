//! The job apart: a record of a store for each stream.
ghost use Rattle.std.specs.Prelude.{◌≡◌, OnOk, OnErr, length};
ghost use Rattle.std.specs.Io.KnownBytes.{Appends};
ghost use Rattle.opus_io.specs.Sink.{SinkCause, Onward};
ghost use Rattle.job_loop.specs.Telling.{Front};
ghost use Rattle.stream_jobs.specs.StreamsIn.{streams_in};
ghost use Rattle.stream_jobs.specs.Apart.{apart_makes, stream_records, lost_records};

use crate::of_streams::MakeStreams;
use crate::refusal::StreamAnswer;
use crate::stream_packets::StreamPackets;
use job_loop::Lent;
use opus_io::{Sink, SinkStop};
use opus_words::Form;
use pack_jobs::{write_packet, write_record};
use stream_records::StreamsItem;

/// Writes a record of a store for each stream of a multistream packet, and as many lost ones for a lost record.
#[derive(Drop)]
pub(crate) struct Apart {
    pub streams: u8,
}

impl MakeStreams for Apart {
    ghost makes = { λ a. apart_makes a.streams };

    fn packets<O: Sink>(&self, _: u64, item: &Lent<'_, StreamsItem>, out: &mut O) -> StreamAnswer {
        write_streams(self.streams, item.bytes(), out)?;
        Ok(())
    }

    fn lost<O: Sink>(&self, _: u64, _: u32, out: &mut O) -> Result<(), SinkStop> {
        write_lost(self.streams, out)
    }
}

// Writes a record for each stream, with range 0.
fn write_streams<O: Sink>(streams: u8, bytes: &[u8], out: &mut O) -> Result<(), SinkStop>
    ensures ok { OnOk result (Appends (O.contents out.old) (O.contents out.new)
        (stream_records (streams_in streams bytes.now))) }
    ensures front { OnErr result (Front (stream_records (streams_in streams bytes.now))
        (O.contents out.old) (O.contents out.new)) }
    ensures cause { SinkCause (O.faults out.old) (O.faults out.new)
        (O.refusals out.old) (O.refusals out.new) result }
    ensures onward { Onward (O.onto out.old) (O.onto out.new) (O.handed out.old) (O.handed out.new) }
{
    let mut packets = StreamPackets::new(streams, bytes);
    'packets: while let Some(packet) = packets.next() {
        write_packet(Form::Demo, 0, &packet, out)?;
    }
    Ok(())
}

// Writes so many lost records, with range 0.
fn write_lost<O: Sink>(streams: u8, out: &mut O) -> Result<(), SinkStop>
    ensures ok { OnOk result (Appends (O.contents out.old) (O.contents out.new) (lost_records streams)) }
    ensures front { OnErr result (Front (lost_records streams) (O.contents out.old) (O.contents out.new)) }
    ensures cause { SinkCause (O.faults out.old) (O.faults out.new)
        (O.refusals out.old) (O.refusals out.new) result }
    ensures onward { Onward (O.onto out.old) (O.onto out.new) (O.handed out.old) (O.handed out.new) }
{
    'lost: for _ in 0..streams {
        write_record(Form::Demo, 0, &[], out)?;
    }
    Ok(())
}
