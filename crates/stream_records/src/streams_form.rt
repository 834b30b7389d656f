//! A form of records that are multistream packets.
use job_loop::{Close, Fed, Form, Lent};
use opus_io::NoMemory;

/// A form over multistream packets (RFC 7845, section 3), with all that it says of itself.
#[derive(Drop)]
pub struct StreamsForm<F> {
    pub(crate) form: F,
}

impl<F: Form> Form for StreamsForm<F> {
    type Record = F::Record;

    type Cut = F::Cut;

    ghost Layout = { F.Layout };

    ghost layout = { λ s. F.layout s.form };

    ghost settles = { F.settles };

    ghost ends = { F.ends };

    ghost place = { F.place };

    ghost stands = { λ s. F.stands s.form };

    ghost current = { λ s. F.current s.form };

    ghost ready = { λ s. F.ready s.form };

    ghost lacks = { F.lacks };

    fn feed(&mut self, at: u64, piece: &[u8]) -> Result<Fed, NoMemory> {
        self.form.feed(at, piece)
    }

    fn record<'a>(&'a self, own: &'a [u8]) -> Lent<'a, F::Record> {
        self.form.record(own)
    }

    fn end(&mut self, at: u64) -> Close<F::Cut> {
        self.form.end(at)
    }

    ghost settled = { λ s. F.settled s.form };

    ghost grows = { F.grows };

    ghost ends_grow = { F.ends_grow };

    ghost ends_once = { F.ends_once };
}
