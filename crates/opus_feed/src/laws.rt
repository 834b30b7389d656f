//! Laws on packets in pieces: each is the contract of a function that does nothing.
ghost use Rattle.std.specs.Prelude.{◌≡◌, ℕ, List};
ghost use Rattle.opus_self.specs.BecomesSelf.{BeginsWithNone};
ghost use Rattle.opus_feed.specs.Answers.{Answers};
ghost use Rattle.opus_feed.specs.Feeds.{Stands};
ghost use Rattle.opus_feed.specs.Steps.{IsReading};
ghost use Rattle.opus_feed.specs.declared.feed.Feed.{Feed};
ghost use Rattle.opus_feed.specs.declared.framing.Framing.TheVariants.{SelfDelimited};
ghost use Rattle.opus_feed.specs.declared.step.Step.TheVariants.{More};

/// While more bytes can come, those that a feed stands for can become a packet, and begin with no self-delimited one.
pub fn a_reading_feed_holds_no_packet()
    ensures answer { (feed : Feed) (bytes : List ℕ) → Stands feed bytes → IsReading feed.place
        → Answers feed.framing bytes More }
    ensures none { (feed : Feed) (bytes : List ℕ) → Stands feed bytes → IsReading feed.place
        → feed.framing ≡ SelfDelimited → BeginsWithNone bytes }
{}
