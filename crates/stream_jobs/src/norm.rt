//! The job norm: each multistream packet in its kept form.
ghost use Rattle.std.specs.Prelude.{◌≡◌, ◌≤◌, length};
ghost use Rattle.stream_jobs.specs.Norm.{norm_makes, long_from, long_in};

use crate::bad::long_why;
use crate::of_streams::MakeStreams;
use crate::refusal::{StreamAnswer, StreamRefusal};
use job_loop::{JobStop, Lent};
use opus_feed::Padding;
use opus_io::{Sink, SinkStop};
use opus_words::Form;
use pack_jobs::write_record;
use stream_records::{Spelling, StreamsItem};

/// Writes each multistream packet in its kept form, in the form of the input. With `Padding::Drop` that is the canonical
/// form.
#[derive(Drop)]
pub(crate) struct Norm {
    pub form: Form,
    pub streams: u8,
    pub padding: Padding,
}

impl Norm {
    // The first stream whose padding bytes are to be kept, and aren't.
    fn first_long(&self, streams: &[Spelling]) -> Option<u8>
        requires { length streams.now ≤ 255 }
        ensures { result ≡ long_in self.now.padding streams.now }
    {
        match self.padding {
            Padding::Drop => None,
            Padding::Keep => first_dropped(streams),
        }
    }
}

// The first stream of which padding bytes weren't kept.
fn first_dropped(streams: &[Spelling]) -> Option<u8>
    requires { length streams.now ≤ 255 }
    ensures { result ≡ long_from 0 streams.now }
{
    'streams: for (stream, spelling) in streams.iter().enumerate() {
        if spelling.dropped > 0 {
            return Some(stream as u8);
        }
    }
    None
}

impl MakeStreams for Norm {
    ghost makes = { λ n. norm_makes n.form n.streams n.padding };

    fn packets<O: Sink>(
        &self,
        number: u64,
        item: &Lent<'_, StreamsItem>,
        out: &mut O,
    ) -> StreamAnswer {
        let record = item.item();
        match self.first_long(record.streams.as_slice()) {
            Some(stream) => {
                let why = long_why(self.streams, stream);
                Err(JobStop::Refused(StreamRefusal::new(number, record.place, why)))
            }
            None => {
                write_record(self.form, record.range, item.bytes(), out)?;
                Ok(())
            }
        }
    }

    fn lost<O: Sink>(&self, _: u64, range: u32, out: &mut O) -> Result<(), SinkStop> {
        write_record(self.form, range, &[], out)
    }
}
