//! From pieces of a stream to the records of its packets.
ghost use Rattle.std.specs.Prelude.{◌≡◌};
ghost use Rattle.opus_feed.specs.declared.framing.Framing.TheVariants.{SelfDelimited};

use crate::record::{MOST_RECORD, append_record};
use crate::took::Took;
use opus_feed::{Feed, Framing, Padding, Step};
use opus_io::NoMemory;
use std::alloc::Global;

/// Takes a stream of self-delimited packets in pieces of any size.
#[derive(Drop)]
pub struct Recorder {
    feed: Feed,
    ghost framing: { feed.framing ≡ SelfDelimited },
}

impl Recorder {
    ghost use Rattle.std.specs.Prelude.{◌≡◌, ℕ, ◌+◌, ◌<◌, List, [], length, vec_len, vec_capacity, IfOk, OnErr};
    ghost use Rattle.opus_packet.specs.declared.fault.Fault.{Fault as FaultValue};
    ghost use Rattle.opus_packet.specs.Value.{PacketValue};
    ghost use Rattle.example_recorder.specs.Recorder.{RecorderStands, IsRefusing, HasTaken, IsWithin, Again};

    /// A recorder that took no bytes. All memory of its own is taken here.
    pub fn new(alloc: Global) -> Result<Recorder, NoMemory>
        ensures { IfOk result (λ r. RecorderStands r [] []) }
    {
        Ok(Recorder {
            feed: Feed::new(alloc, Framing::SelfDelimited, Padding::Drop)?,
        })
    }

    /// Takes the next bytes up to the end of a packet, and appends the record of a packet that is whole, with final range 0.
    /// After a refusal the answer stays the same up to `restart`. Where there is no memory, nothing changes.
    pub fn piece(&mut self, bytes: &[u8], out: &mut Vec<u8>) -> Result<Took, NoMemory>
        ensures took { IfOk result (λ took. (came : List ℕ) (recorded : List PacketValue)
            → RecorderStands self.old came recorded
            → HasTaken came recorded bytes.now took self.new out.old.items out.new.items) }
        ensures within { IfOk result (λ took. IsWithin (length bytes.now) took) }
        ensures again { IfOk result (λ took. (f : FaultValue) → IsRefusing f self.old
            → Again f self.old took self.new out.old.items out.new.items) }
        ensures kept { OnErr result (self.new ≡ self.old) }
        ensures err { OnErr result (out.new.items ≡ out.old.items) }
        ensures full { OnErr result (vec_capacity out.old < vec_len out.old + MOST_RECORD) }
    {
        out.reserve(MOST_RECORD)?;
        match self.feed.feed(bytes) {
            Step::More => Ok(Took::More),
            Step::Done(used) => {
                append_record(&self.feed.packet(), out);
                self.restart();
                Ok(Took::Record(used))
            }
            Step::Refused(fault) => Ok(Took::Refused(fault)),
        }
    }

    /// Forgets the bytes that came since the last record; the next piece begins with a packet.
    pub fn restart(&mut self)
        ensures { RecorderStands self.new [] [] }
    {
        self.feed.reset(Framing::SelfDelimited);
    }
}
