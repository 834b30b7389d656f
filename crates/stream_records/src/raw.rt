//! An input that is one multistream packet (RFC 7845, section 3).
use crate::stream_pieces::StreamPieces;
use crate::streams_form::StreamsForm;
use opus_feed::Padding;
use opus_io::NoMemory;
use pack_records::Raw;
use std::alloc::Global;

/// The whole input as one record, with one multistream packet or its fault. A stream's fault is decided by the very byte
/// behind which no packet can follow; the bytes behind that one are passed over.
pub type RawStreams = StreamsForm<Raw<StreamPieces>>;

impl StreamsForm<Raw<StreamPieces>> {
    ghost use Rattle.std.specs.Prelude.{◌≡◌, ◌≤◌, [], IfOk};
    ghost use Rattle.pack_records.specs.OnePayload.{RawStands};
    ghost use Rattle.stream_records.specs.StreamPieces.{choices_of};
    ghost use Rattle.stream_records.specs.StreamReading.{streams_reading};

    /// No byte came. All memory is taken here: 192,628 bytes for the kept form of each stream, beside a feed's.
    ///
    /// # Errors
    ///
    /// No memory.
    pub fn new(alloc: Global, streams: u8, padding: Padding) -> Result<RawStreams, NoMemory>
        requires { 1 ≤ streams }
        ensures stands { IfOk result (λ f. RawStands streams_reading f.form.over f.form.payload [] []) }
        ensures choices { IfOk result (λ f. choices_of f.form.payload
            ≡ record { streams = streams; padding = padding }) }
    {
        Ok(StreamsForm {
            form: Raw::over(StreamPieces::new(alloc, streams, padding)?),
        })
    }
}
