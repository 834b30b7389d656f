//! The options of the command line.
ghost use Rattle.std.specs.Prelude.{◌≡◌, IfSome, IsTrue};
ghost use Rattle.opus_words.specs.Options.{is_default, lack_of, option_name, row_of};

use crate::kind::JobKind;
use crate::table::{Lack, Row};

/// An option of the command line.
#[derive(Clone, Copy, Debug, PartialEq, Eq)]
pub enum Opt {
    /// `--form`: how the input holds its packets.
    Form,
    /// `--streams`: the number of streams in a multistream packet.
    Streams,
    /// `--stream`: the stream to take, from 0.
    Stream,
    /// `--group`: how many packets to merge into one.
    Group,
    /// `--frames`: how many frames a piece of a packet has.
    Frames,
    /// `--size`: the size to pad to, in bytes.
    Size,
    /// `--pt`: the RTP payload type.
    Pt,
    /// `--seq`: the first RTP sequence number.
    Seq,
    /// `--stamp`: the first RTP timestamp.
    Stamp,
    /// `--ssrc`: the RTP synchronisation source.
    Ssrc,
    /// `--seed`: the number that the generated records come from.
    Seed,
    /// `--count`: how many records to generate.
    Count,
    /// `--padding`: what becomes of the padding bytes of each packet.
    Padding,
}

impl Opt {
    /// The option's name, without the two dashes before it.
    pub fn name(self) -> &'static str
        ensures { result.now ≡ option_name self }
    {
        Row::of(self).name
    }

    /// What stands where the option isn't given, if the job takes it.
    pub(crate) fn lack(self, kind: JobKind) -> Option<Lack>
        ensures value { result ≡ lack_of self kind }
        ensures fits { IfSome result (λ lack. IsTrue (is_default (row_of self).values lack)) }
    {
        Row::of(self)
            .jobs
            .iter()
            .find(|pair| pair.0.is(kind))
            .map(|pair| pair.1)
    }

    /// All options, in the order of the table.
    pub const ALL: [Opt; 13] = [
        Opt::Form,
        Opt::Streams,
        Opt::Stream,
        Opt::Group,
        Opt::Frames,
        Opt::Size,
        Opt::Pt,
        Opt::Seq,
        Opt::Stamp,
        Opt::Ssrc,
        Opt::Seed,
        Opt::Count,
        Opt::Padding,
    ];
}
