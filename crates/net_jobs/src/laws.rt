//! Laws on the jobs over RTP: each is the contract of a function that does nothing.
ghost use Rattle.std.specs.Prelude.{◌≡◌, ◌+◌, ◌*◌, ◌^◌, ◌≤◌, ℕ, List, [], ◌∷◌, ◌++◌, map, Option, length, None};
ghost use Rattle.std.specs.List.{AllByRecursion};
ghost use Rattle.job_loop.specs.Shown.{Shown};
ghost use Rattle.job_loop.specs.Meaning.{going, broke, end_of, runs, opened, outcome};
ghost use Rattle.job_loop.specs.declared.input_end.InputEnd.{InputEnd};
ghost use Rattle.job_loop.specs.declared.input_end.InputEnd.TheVariants as ends;
ghost use Rattle.opus_packet.specs.Value.{PacketValue};
ghost use Rattle.opus_feed.specs.declared.padding.Padding.{Padding};
ghost use Rattle.opus_feed.specs.declared.padding.Padding.TheVariants.{Drop};
ghost use Rattle.rec_store.specs.Dump.{IsDumpRecord, packet_of_record};
ghost use Rattle.rtp_packet.specs.declared.packet.RtpFields.{RtpFields};
ghost use Rattle.rtp_ends.specs.Sent.{packets_sent};
ghost use Rattle.pack_records.specs.declared.cut.Cut.{Cut};
ghost use Rattle.pack_records.specs.declared.item.Item.{Item};
ghost use Rattle.pack_records.specs.Demo.{StoreRecord, store_of, IsStoreRecord, DemoSettles, DemoEnds};
ghost use Rattle.pack_jobs.specs.declared.refusal.Why.TheVariants.{StoreCut};
ghost use Rattle.pack_jobs.specs.Refusal.{Refusal};
ghost use Rattle.job_ends.specs.Refusal.{refusal_of};
ghost use Rattle.pack_jobs.specs.Written.{AreGood, FirstBad};
ghost use Rattle.job_ends.specs.Each.{IsUncut};
ghost use Rattle.net_jobs.specs.Capture.{captured_records, capture_of};
ghost use Rattle.net_jobs.specs.Given.{given_all, HoldOneByOne, AreSent};
ghost use Rattle.net_jobs.specs.Send.{send, most_records};
ghost use Rattle.rec_store.specs.declared.stop.StoreFault.{StoreFault};
ghost use Rattle.dump_records.specs.declared.item.Item.{Item as Recorded};
ghost use Rattle.dump_records.specs.declared.item.Found.TheVariants.{Bad};
ghost use Rattle.rtp_ends.specs.Report.{arrival_report, certain_events};
ghost use Rattle.net_jobs.specs.declared.stream.Asked.{Asked};
ghost use Rattle.net_jobs.specs.declared.events.Telling.{Telling};
ghost use Rattle.net_jobs.specs.Tell.{events_text};
ghost use Rattle.dump_records.specs.Capture.{DumpSettles, DumpEnds};
ghost use Rattle.rtp_packet.specs.RtpRead.{AreFields};
ghost use Rattle.net_jobs.specs.Again.{any_stream, store_again, BeginsAndEnds};
ghost use Rattle.net_jobs.specs.Receive.{capture_refusal, receive, recv, IsSum};
ghost use Rattle.net_jobs.specs.Received.{AreRecords, received, report_text, packets_in};

/// What send writes for records is the capture of what the sender was given: of all records, or of those before the first
/// bad one, or before the cut.
pub fn send_writes_the_capture_of_what_was_given()
    ensures taken { (first : RtpFields) (rs : List (Shown Item)) (end : InputEnd Cut) → AreGood rs
        → length rs ≤ most_records → IsUncut end
        → outcome (send first) rs end ≡ going (capture_of first (given_all rs)) tt }
    ensures refused { (first : RtpFields) (rs : List (Shown Item)) (end : InputEnd Cut) (f : Refusal)
        (at : FirstBad rs f) → length at.before ≤ most_records
        → outcome (send first) rs end ≡ broke (capture_of first (given_all at.before)) f }
    ensures cut { (first : RtpFields) (rs : List (Shown Item)) (c : Cut) → AreGood rs → length rs ≤ most_records
        → outcome (send first) rs (ends.Cut c)
        ≡ broke (capture_of first (given_all rs)) (refusal_of (length rs) c.place StoreCut) }
{}

/// A store of packets, in whatever shapes and with whatever padding, and of lost ones is sent whole: the capture is that of
/// these packets. No input within the limit has more records than a sender takes.
pub fn a_store_of_packets_is_sent_whole()
    ensures whole { (first : RtpFields) (stores : List StoreRecord) (packets : List (Option PacketValue))
        (rs : List (Shown Item)) (cut : Option Cut) → AllByRecursion IsStoreRecord stores
        → HoldOneByOne stores packets → DemoEnds Drop (store_of stores) rs cut
        → length (store_of stores) ≤ 2 ^ 40
        → outcome (send first) rs (end_of cut) ≡ going (capture_of first packets) tt }
    ensures few { (padding : Padding) (h : List ℕ) (rs : List (Shown Item)) → DemoSettles padding h rs
        → 8 * length rs ≤ length h }
{}

/// The packets in a capture are the packets sent, and each of its records fits the layout.
pub fn a_capture_has_the_packets_sent()
    ensures packets { (first : RtpFields) (records : List (Option PacketValue))
        → map packet_of_record (captured_records first records) ≡ packets_sent first records }
    ensures fits { (first : RtpFields) (records : List (Option PacketValue)) → AreSent records
        → AllByRecursion IsDumpRecord (captured_records first records) }
{}

/// What recv and replay write for records is the text of the report of all that arrived: of all records, or of those before
/// the capture goes wrong, or is cut. What they write for records before the input's end is the text of just the events that are
/// certain then. No input within the limit has more records than they take.
pub fn what_arrives_is_told_whole()
    ensures settled { (telling : Telling) (asked : Asked) (rs : List (Shown Recorded)) → AreRecords rs
        → length rs ≤ most_records → runs (receive telling asked) (opened (receive telling asked)) rs
        ≡ going (events_text telling (certain_events (received asked rs).heard)) (received asked rs) }
    ensures closed { (telling : Telling) (asked : Asked) (rs : List (Shown Recorded)) → AreRecords rs
        → length rs ≤ most_records → outcome (receive telling asked) rs ends.Closed
        ≡ going (report_text telling (received asked rs)) tt }
    ensures cut { (telling : Telling) (asked : Asked) (rs : List (Shown Recorded)) (fault : StoreFault) → AreRecords rs
        → length rs ≤ most_records → outcome (receive telling asked) rs (ends.Cut fault)
        ≡ broke (report_text telling (received asked rs)) (capture_refusal (received asked rs) fault) }
    ensures refused { (telling : Telling) (asked : Asked) (rs : List (Shown Recorded)) (r : Shown Recorded)
        (fault : StoreFault) (end : InputEnd StoreFault) → AreRecords rs → length rs ≤ most_records
        → r.item.found ≡ Bad fault → outcome (receive telling asked) (rs ++ r ∷ []) end
        ≡ broke (report_text telling (received asked rs)) (capture_refusal (received asked rs) fault) }
    ensures few { (h : List ℕ) (rs : List (Shown Recorded)) → DumpSettles h rs → 8 * length rs ≤ length h + 8 }
{}

/// Each record is counted once, packets are those of the report, and the other arrivals are repeats.
pub fn each_record_is_counted_once()
    ensures records { (asked : Asked) (rs : List (Shown Recorded)) → AreRecords rs
        → (received asked rs).counts.records ≡ length rs }
    ensures sum { (asked : Asked) (rs : List (Shown Recorded)) → IsSum (received asked rs).counts }
    ensures packets { (asked : Asked) (rs : List (Shown Recorded)) → (received asked rs).counts.packets
        ≡ packets_in (arrival_report (received asked rs).heard) }
    ensures repeats { (asked : Asked) (rs : List (Shown Recorded)) → (received asked rs).counts.repeats
        + (received asked rs).counts.packets ≡ length (received asked rs).heard }
{}

/// A store of packets that is sent is received again: recv, over the capture that send makes of packets and losses, writes
/// each packet in its canonical form and as many lost records, all with range 0. The first and the last are packets, or there
/// are none, and at most 32,767 lost ones stand one after the other. Such a capture has records, and isn't cut.
pub fn what_is_sent_is_received_again()
    ensures records { (first : RtpFields) (packets : List (Option PacketValue)) → AreSent packets
        → (rs : List (Shown Recorded)) × DumpEnds (capture_of first packets) rs None }
    ensures store { (first : RtpFields) (packets : List (Option PacketValue)) (rs : List (Shown Recorded))
        (cut : Option StoreFault) → AreFields first → AreSent packets → BeginsAndEnds packets
        → length packets ≤ most_records → DumpEnds (capture_of first packets) rs cut
        → outcome (recv any_stream) rs (end_of cut) ≡ going (store_again packets) tt }
{}
