//! A job with its options.
ghost use Rattle.std.specs.Prelude.{◌≡◌};
ghost use Rattle.opus_words.specs.Jobs.{has_own_stream, is_self_of_many};

use crate::form::Form;
use crate::kind::JobKind;
use opus_feed::Padding;

/// What the words ask for. A field is `None` where the job doesn't take the option, and where the
/// option isn't given and there is then no bound or any value will do.
#[derive(Clone, Copy, Debug, PartialEq, Eq)]
pub struct Job {
    pub kind: JobKind,
    pub form: Option<Form>,
    /// The number of streams, 1 to 255.
    pub streams: Option<u8>,
    /// A stream, below `streams`.
    pub stream: Option<u8>,
    /// Packets in a group, 1 to 48.
    pub group: Option<u8>,
    /// Frames in a piece, 1 to 48.
    pub frames: Option<u8>,
    /// Bytes, 1 to 33,554,431.
    pub size: Option<u32>,
    /// The RTP payload type, 0 to 127.
    pub pt: Option<u8>,
    /// The first RTP sequence number.
    pub seq: Option<u16>,
    /// The first RTP timestamp, in samples at 48 kHz.
    pub stamp: Option<u32>,
    /// The RTP synchronisation source.
    pub ssrc: Option<u32>,
    /// The generator's number.
    pub seed: Option<u32>,
    /// Records, 0 to 1,000,000.
    pub count: Option<u32>,
    /// What becomes of the padding bytes of each packet (RFC 6716, 3.2.5).
    pub padding: Option<Padding>,
}

impl Job {
    /// No stream is named, or one below the number of streams.
    pub(crate) fn has_own_stream(&self) -> bool
        ensures { result ≡ has_own_stream self.now }
    {
        match (self.stream, self.streams) {
            (Some(stream), Some(streams)) => stream < streams,
            _ => true,
        }
    }

    /// Self-delimited packets of several streams, which there are none of.
    pub(crate) fn is_self_of_many(&self) -> bool
        ensures { result ≡ is_self_of_many self.now }
    {
        match (self.form, self.streams) {
            (Some(Form::SelfDelimited), Some(streams)) => streams > 1,
            _ => false,
        }
    }
}
