//! An input that is one payload, whatever reads it; and one that is an undelimited packet (RFC 6716, 3.2).
ghost use Rattle.std.specs.Prelude.{◌≡◌, [], false, IfOk};

use crate::cut::Cut;
use crate::payload::PayloadReader;
use crate::undelimited::Undelimited;
use job_loop::{Close, Fed, Form, Lent};
use opus_feed::Padding;
use opus_io::NoMemory;
use std::alloc::Global;

/// The whole input as one record, with one payload. Where its bytes decide the record early, that is told by the very byte;
/// the bytes behind that one are passed over.
#[derive(Drop)]
pub struct Raw<P> {
    payload: P,
    // The record was decided by a byte, so the end decides none.
    over: bool,
}

impl<P: PayloadReader> Raw<P> {
    /// A form that was fed nothing, over a reader to which no byte came.
    pub fn over(payload: P) -> Raw<P>
        ensures payload { result.payload ≡ payload }
        ensures over { result.over ≡ false }
    {
        Raw {
            payload,
            over: false,
        }
    }
}

impl<P: PayloadReader> Form for Raw<P> {
    ghost use Rattle.pack_records.specs.OnePayload.{Ends, RawStands};
    ghost use Rattle.pack_records.specs.OnePayloadLaws.{one_settled, one_grows, one_ends_grow, one_ends_once};

    type Record = P::Record;

    type Cut = Cut;

    ghost Layout = { P.Layout };

    ghost layout = { λ s. P.reads.layout s.payload };

    ghost settles = { P.settles };

    ghost ends = { λ l. Ends (P.reads.shows l) };

    ghost place = { P.reads.place };

    ghost stands = { λ s. RawStands P.reads s.over s.payload };

    ghost current = { λ s. P.reads.current s.payload };

    ghost ready = { λ s. P.reads.ready s.payload };

    ghost lacks = { λ _. ⊥ };

    fn feed(&mut self, at: u64, piece: &[u8]) -> Result<Fed, NoMemory> {
        if self.over {
            return Ok(Fed {
                count: piece.len(),
                whole: false,
            });
        }
        match self.payload.take(0, 0, at, piece) {
            None => Ok(Fed {
                count: piece.len(),
                whole: false,
            }),
            Some(count) => {
                self.over = true;
                Ok(Fed { count, whole: true })
            }
        }
    }

    #[inline(always)]
    fn record<'a>(&'a self, own: &'a [u8]) -> Lent<'a, P::Record> {
        self.payload.record(own)
    }

    fn end(&mut self, at: u64) -> Close<Cut> {
        let whole = !self.over;
        if whole {
            self.payload.end(0, 0, at);
        }
        Close { whole, cut: None }
    }

    ghost settled = { λ s h rs stands. (P.says (P.reads.layout s.payload)).to_own h rs
        (one_settled P.reads P.lawful s.over s.payload h rs stands) };

    ghost grows = { λ l. one_grows (P.reads.shows l) P.reads.place (P.lawful.showing l) (P.settles l) (P.says l) };

    ghost ends_grow = { λ l. one_ends_grow (P.reads.shows l) P.reads.place (P.lawful.showing l) (P.settles l) (P.says l) };

    ghost ends_once = { λ l. one_ends_once (P.reads.shows l) P.reads.place (P.lawful.showing l) };
}

/// The whole input as one record, with one undelimited packet or its fault. A fault is decided by the very byte
/// behind which no packet can follow; the bytes behind that one are passed over.
pub type RawForm = Raw<Undelimited>;

impl Raw<Undelimited> {
    ghost use Rattle.pack_records.specs.OnePayload.{RawStands};
    ghost use Rattle.pack_records.specs.Undelimited.{packet_reading};

    /// No byte came. All memory is taken here.
    ///
    /// # Errors
    ///
    /// No memory.
    pub fn new(alloc: Global, padding: Padding) -> Result<RawForm, NoMemory>
        ensures stands { IfOk result (λ f. RawStands packet_reading f.over f.payload [] []) }
        ensures padding { IfOk result (λ f. f.payload.pieces.padding ≡ padding) }
    {
        Ok(Raw::over(Undelimited::new(alloc, padding)?))
    }
}
