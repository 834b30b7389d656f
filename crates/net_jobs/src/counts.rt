//! How many records of a capture were taken, and the line that tells it.
ghost use Rattle.std.specs.Prelude.{◌≡◌, ◌+◌, ◌<◌};
ghost use Rattle.net_jobs.specs.Receive.{most_records};
ghost use Rattle.net_jobs.specs.Receive.{IsSum, counted_passed, counted_arrival};
ghost use Rattle.net_jobs.specs.Tell.{counts_line};

use crate::stream::Passed;
use arrayvec::ArrayString;
use pack_jobs::{decimal_text, push_named};
use rtp_ends::Arrival;

/// Records of a capture: all of them, and those of each sort.
#[derive(Clone, Copy, Debug, Default, PartialEq, Eq)]
pub(crate) struct Counts {
    /// All that were taken.
    pub(crate) records: u64,
    /// Packets of RTCP.
    pub(crate) rtcp: u64,
    /// Packets that were cut when they were recorded.
    pub(crate) cut: u64,
    /// Those that are no RTP packet, or hold no Opus packet.
    pub(crate) bad: u64,
    /// Packets of other streams.
    pub(crate) other: u64,
    /// Packets whose number had arrived before.
    pub(crate) repeats: u64,
    /// The first packet of each number.
    pub(crate) packets: u64,
}

impl Counts {
    /// Counts a record that is passed over.
    pub(crate) fn add_passed(&mut self, passed: Passed)
        requires sum { IsSum self.old }
        requires most { self.old.records < most_records }
        ensures { self.new ≡ counted_passed self.old passed }
    {
        self.records += 1;
        match passed {
            Passed::Rtcp => self.rtcp += 1,
            Passed::Cut => self.cut += 1,
            Passed::Bad => self.bad += 1,
            Passed::Other => self.other += 1,
        }
    }

    /// Counts a packet of the stream, by whether its number had arrived before.
    pub(crate) fn add_arrival(&mut self, answer: Arrival)
        requires sum { IsSum self.old }
        requires most { self.old.records < most_records }
        ensures is { self.new ≡ counted_arrival self.old answer }
        ensures sum { IsSum self.new }
        ensures records { self.new.records ≡ self.old.records + 1 }
        ensures arrivals { self.new.repeats + self.new.packets ≡ self.old.repeats + self.old.packets + 1 }
    {
        self.records += 1;
        match answer {
            Arrival::New(_) => self.packets += 1,
            Arrival::Repeat(_) => self.repeats += 1,
        }
    }

    /// The line that tells them, and how many numbers are missing: eight numbers of at most 20 digits, with 59 bytes
    /// around them.
    pub(crate) fn line(&self, missing: u64) -> ArrayString<224>
        ensures { result.bytes ≡ counts_line self.now missing }
    {
        let mut line = ArrayString::new();
        line.push_str("records ");
        line.push_str(decimal_text(self.records).as_str());
        push_named(&mut line, "rtcp", self.rtcp);
        push_named(&mut line, "cut", self.cut);
        push_named(&mut line, "bad", self.bad);
        push_named(&mut line, "other", self.other);
        push_named(&mut line, "repeats", self.repeats);
        push_named(&mut line, "packets", self.packets);
        push_named(&mut line, "missing", missing);
        line.push_str("\n");
        line
    }
}
