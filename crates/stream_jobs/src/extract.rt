//! The job extract: one stream of each record.
ghost use Rattle.std.specs.Prelude.{◌≡◌, OnOk, OnErr, slice_get};
ghost use Rattle.std.specs.Option.{option_map};
ghost use Rattle.stream_jobs.specs.StreamsIn.{streams_in};
ghost use Rattle.stream_jobs.specs.Extract.{extract_makes};

use crate::of_streams::MakeStreams;
use crate::refusal::StreamAnswer;
use crate::stream_packets::StreamPackets;
use job_loop::Lent;
use opus_io::{Sink, SinkStop};
use opus_packet::Packet;
use opus_words::Form;
use pack_jobs::{write_packet, write_record};
use stream_records::StreamsItem;

/// Writes one stream of each multistream packet as a record of a store, and a lost one for a lost record.
#[derive(Drop)]
pub(crate) struct Extract {
    pub streams: u8,
    pub stream: u8,
}

impl MakeStreams for Extract {
    ghost makes = { λ e. extract_makes e.streams e.stream };

    fn packets<O: Sink>(&self, _: u64, item: &Lent<'_, StreamsItem>, out: &mut O) -> StreamAnswer {
        let mut packets = StreamPackets::new(self.streams, item.bytes());
        if let Some(packet) = packets.nth(self.stream) {
            write_packet(Form::Demo, 0, &packet, out)?;
        }
        Ok(())
    }

    fn lost<O: Sink>(&self, _: u64, _: u32, out: &mut O) -> Result<(), SinkStop> {
        write_record(Form::Demo, 0, &[], out)
    }
}
