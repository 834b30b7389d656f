//! An `opus_demo` store as an input of multistream packets.
use crate::stream_pieces::StreamPieces;
use crate::streams_form::StreamsForm;
use opus_feed::Padding;
use opus_io::NoMemory;
use pack_records::Store;
use std::alloc::Global;

/// The records of an `opus_demo` store: each has the payload's length, the final range and the payload, which is a
/// multistream packet (RFC 7845, section 3). One without a payload is a lost packet.
pub type DemoStreams = StreamsForm<Store<StreamPieces>>;

impl StreamsForm<Store<StreamPieces>> {
    ghost use Rattle.std.specs.Prelude.{◌≡◌, ◌≤◌, [], IfOk};
    ghost use Rattle.stream_records.specs.DemoForm.{DemoStands};
    ghost use Rattle.stream_records.specs.StreamPieces.{choices_of};

    /// A form that was fed nothing. It takes all memory that it needs: 192,628 bytes for the kept form of each stream,
    /// beside a feed's.
    ///
    /// # Errors
    ///
    /// No memory.
    pub fn new(alloc: Global, streams: u8, padding: Padding) -> Result<DemoStreams, NoMemory>
        requires { 1 ≤ streams }
        ensures stands { IfOk result (λ f. DemoStands f [] []) }
        ensures choices { IfOk result (λ f. choices_of f.form.payload
            ≡ record { streams = streams; padding = padding }) }
    {
        Ok(StreamsForm {
            form: Store::over(StreamPieces::new(alloc, streams, padding)?),
        })
    }
}
