//! What is told of made records in the end.
ghost use Rattle.std.specs.Prelude.{◌≡◌, ◌+◌, length};
ghost use Rattle.opus_packet.specs.Value.{duration_of};
ghost use Rattle.opus_packet.specs.Canonical.{canonical};
ghost use Rattle.job_ends.specs.Refusal.{told};
ghost use Rattle.opuspack.specs.Totals.{totals_line};

use arrayvec::ArrayString;
use opus_packet::Packet;
use opus_writer::canon_size;
use pack_jobs::{decimal_text, push_named};

/// Totals of records, each counted up to 2^64 - 1: by default those of no records.
#[derive(Clone, Copy, Debug, Default, PartialEq, Eq)]
pub(crate) struct Totals {
    /// Records, the lost ones among them.
    records: u64,
    /// Lost records.
    lost: u64,
    /// Frames of all packets.
    frames: u64,
    /// Samples at 48 kHz of all frames.
    samples: u64,
    /// Bytes of the packets as they were made.
    size_in: u64,
    /// Bytes of the packets in canonical form.
    size_out: u64,
    /// The sum of these bytes.
    sum: u64,
}

impl Totals {
    /// Counts a lost record.
    pub(crate) fn add_lost(&mut self)
        ensures { self.new ≡ record self.old {
          records = told (self.old.records + 1);
          lost = told (self.old.lost + 1);
        } }
    {
        self.records = self.records.saturating_add(1);
        self.lost = self.lost.saturating_add(1);
    }

    /// Counts a packet of which the canonical bytes have this sum.
    pub(crate) fn add_packet(&mut self, packet: &Packet<'_>, sum: u64)
        ensures records { self.new.records ≡ told (self.old.records + 1) }
        ensures lost { self.new.lost ≡ self.old.lost }
        ensures frames { self.new.frames ≡ told (self.old.frames + length packet.now.value.frames) }
        ensures samples { self.new.samples ≡ told (self.old.samples + duration_of packet.now.value) }
        ensures size_in { self.new.size_in ≡ told (self.old.size_in + packet.now.size) }
        ensures size_out { self.new.size_out
            ≡ told (self.old.size_out + length (canonical packet.now.value)) }
        ensures sum { self.new.sum ≡ told (self.old.sum + sum) }
    {
        self.records = self.records.saturating_add(1);
        self.frames = self.frames.saturating_add(packet.count() as u64);
        self.samples = self.samples.saturating_add(u64::from(packet.duration()));
        self.size_in = self.size_in.saturating_add(u64::from(packet.size()));
        self.size_out = self.size_out.saturating_add(u64::from(canon_size(packet)));
        self.sum = self.sum.saturating_add(sum);
    }

    /// The line that tells them: seven numbers of at most 20 digits, with 46 bytes around them.
    pub(crate) fn line(&self) -> ArrayString<192>
        ensures { result.bytes ≡ totals_line self.now }
    {
        let mut line = ArrayString::new();
        line.push_str("records ");
        line.push_str(decimal_text(self.records).as_str());
        push_named(&mut line, "lost", self.lost);
        push_named(&mut line, "frames", self.frames);
        push_named(&mut line, "samples", self.samples);
        push_named(&mut line, "in", self.size_in);
        push_named(&mut line, "out", self.size_out);
        push_named(&mut line, "sum", self.sum);
        line.push_str("\n");
        line
    }
}
