//! The jobs by name, and the forms that each takes.
ghost use Rattle.std.specs.Prelude.{◌≡◌};
ghost use Rattle.opus_words.specs.Jobs.{form_within, forms_of, is_kind, job_name, kind_named};

use crate::form::Form;

/// What the program can be asked to do.
#[derive(Clone, Copy, Debug, PartialEq, Eq)]
pub enum JobKind {
    /// Write each packet in its canonical form.
    Norm,
    /// Say of each record whether its packet is well formed.
    Check,
    /// Describe each packet and its frames.
    Show,
    /// Join consecutive packets into longer ones.
    Merge,
    /// Cut each packet into shorter ones.
    Split,
    /// Pad each packet to a size.
    Pad,
    /// Take multistream packets apart into their streams.
    Apart,
    /// Join packets into multistream packets.
    Join,
    /// Take one stream out of multistream packets.
    Extract,
    /// Describe an OpusHead (RFC 7845, 5.1).
    Head,
    /// Send packets as RTP, into an rtpdump capture (RFC 7587).
    Send,
    /// Receive the packets of an rtpdump capture, into an `opus_demo` store.
    Recv,
    /// Tell what a receiver sees in an rtpdump capture.
    Replay,
    /// Write SDP lines in their canonical form (RFC 7587, 6).
    Sdp,
    /// Generate records from a number.
    Make,
    /// Generate records and normalise them.
    Trial,
}

impl JobKind {
    /// All jobs.
    pub const ALL: [JobKind; 16] = [
        JobKind::Norm,
        JobKind::Check,
        JobKind::Show,
        JobKind::Merge,
        JobKind::Split,
        JobKind::Pad,
        JobKind::Apart,
        JobKind::Join,
        JobKind::Extract,
        JobKind::Head,
        JobKind::Send,
        JobKind::Recv,
        JobKind::Replay,
        JobKind::Sdp,
        JobKind::Make,
        JobKind::Trial,
    ];

    /// The word for this job.
    pub fn name(self) -> &'static str
        ensures { result.now ≡ job_name self }
    {
        match self {
            JobKind::Norm => "norm",
            JobKind::Check => "check",
            JobKind::Show => "show",
            JobKind::Merge => "merge",
            JobKind::Split => "split",
            JobKind::Pad => "pad",
            JobKind::Apart => "apart",
            JobKind::Join => "join",
            JobKind::Extract => "extract",
            JobKind::Head => "head",
            JobKind::Send => "send",
            JobKind::Recv => "recv",
            JobKind::Replay => "replay",
            JobKind::Sdp => "sdp",
            JobKind::Make => "make",
            JobKind::Trial => "trial",
        }
    }

    /// The job of this name.
    pub(crate) fn named(name: &str) -> Option<JobKind>
        ensures { result ≡ kind_named name.now }
    {
        JobKind::ALL
            .iter()
            .copied()
            .find(|kind| kind.name() == name)
    }

    pub(crate) fn is(self, other: JobKind) -> bool
        ensures { result ≡ is_kind self other }
    {
        self == other
    }

    /// The forms that `--form` chooses from, the default first.
    pub(crate) fn forms(self) -> &'static [Form]
        ensures { result.now ≡ forms_of self }
    {
        match self {
            JobKind::Norm => &[Form::Raw, Form::Demo, Form::SelfDelimited],
            JobKind::Check => &[Form::Raw, Form::Demo, Form::SelfDelimited],
            JobKind::Show => &[Form::Raw, Form::Demo, Form::SelfDelimited],
            JobKind::Merge => &[Form::Demo, Form::SelfDelimited],
            JobKind::Split => &[Form::Demo, Form::SelfDelimited],
            JobKind::Pad => &[Form::Raw, Form::Demo],
            _ => &[],
        }
    }

    /// The form of this name, among those of the job.
    pub(crate) fn form_named(self, name: &str) -> Option<Form>
        ensures { result ≡ form_within self name.now }
    {
        self.forms()
            .iter()
            .copied()
            .find(|form| form.name() == name)
    }
}
