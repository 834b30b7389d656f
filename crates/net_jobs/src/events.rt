//! What is written of a receiver's events.
ghost use Rattle.std.specs.Prelude.{◌≡◌, ◌+◌, ◌≤◌, ◌<◌, ◌++◌, length, OnOk, OnErr};
ghost use Rattle.std.specs.Fmt.{signed_decimal};
ghost use Rattle.std.specs.Io.KnownBytes.{Appends};
ghost use Rattle.arrayvec.specs.ArrayString.{array_string_len};
ghost use Rattle.opus_io.specs.Sink.{SinkCause, Onward};
ghost use Rattle.job_loop.specs.Telling.{Front};
ghost use Rattle.rec_store.specs.DemoStore.{demo_head};
ghost use Rattle.rtp_ends.specs.declared.event.Event.TheVariants.{Packet, Gap};
ghost use Rattle.job_ends.specs.Refusal.{told};
ghost use Rattle.net_jobs.specs.Tell.{event_text, events_text, store_text, lost_records, line_text, packet_line, gap_line, missing_of, missing_in};

use arrayvec::ArrayString;
use job_loop::write_both;
use opus_io::{Sink, SinkStop, write_all};
use pack_jobs::{decimal_text, push_named};
use rec_store::demo_head;
use rtp_ends::Event;

/// How events are told.
#[derive(Clone, Copy, Debug, PartialEq, Eq)]
pub enum Telling {
    /// As records of an `opus_demo` store: packets, and lost ones.
    Store,
    /// As a line each.
    Lines,
}

/// Writes events, one after the other.
pub(crate) fn write_events<O: Sink>(
    telling: Telling,
    events: &[Event],
    out: &mut O,
) -> Result<(), SinkStop>
    ensures ok { OnOk result (Appends (O.contents out.old) (O.contents out.new) (events_text telling events.now)) }
    ensures front { OnErr result (Front (events_text telling events.now) (O.contents out.old) (O.contents out.new)) }
    ensures cause { SinkCause (O.faults out.old) (O.faults out.new)
        (O.refusals out.old) (O.refusals out.new) result }
    ensures onward { Onward (O.onto out.old) (O.onto out.new) (O.handed out.old) (O.handed out.new) }
{
    for event in events {
        if let Err(stop) = write_event(telling, event, out) {
            return Err(stop);
        }
    }
    Ok(())
}

fn write_event<O: Sink>(telling: Telling, event: &Event, out: &mut O) -> Result<(), SinkStop>
    ensures ok { OnOk result (Appends (O.contents out.old) (O.contents out.new) (event_text telling event.now)) }
    ensures front { OnErr result (Front (event_text telling event.now) (O.contents out.old) (O.contents out.new)) }
    ensures cause { SinkCause (O.faults out.old) (O.faults out.new)
        (O.refusals out.old) (O.refusals out.new) result }
    ensures onward { Onward (O.onto out.old) (O.onto out.new) (O.handed out.old) (O.handed out.new) }
{
    match telling {
        Telling::Store => write_record(event, out),
        Telling::Lines => write_all(out, line(event).as_str().as_bytes()),
    }
}

// Writes a packet as a record, or a gap as lost ones.
fn write_record<O: Sink>(event: &Event, out: &mut O) -> Result<(), SinkStop>
    ensures ok { OnOk result (Appends (O.contents out.old) (O.contents out.new) (store_text event.now)) }
    ensures front { OnErr result (Front (store_text event.now) (O.contents out.old) (O.contents out.new)) }
    ensures cause { SinkCause (O.faults out.old) (O.faults out.new)
        (O.refusals out.old) (O.refusals out.new) result }
    ensures onward { Onward (O.onto out.old) (O.onto out.new) (O.handed out.old) (O.handed out.new) }
{
    match event {
        Event::Packet { payload, .. } => {
            let payload = payload.as_slice();
            write_both(out, &record_head(payload.len()), payload)
        }
        Event::Gap { count, .. } => write_lost(*count, out),
    }
}

// What stands before a payload of so many bytes, which has 65,527 of them at most: the length is written in 32 bits.
fn record_head(size: usize) -> [u8; 8]
    ensures { result ≡ demo_head size 0 }
{
    demo_head((size % 4_294_967_296) as u32, 0)
}

// Lost records with range 0.
const LOST: [u8; 512] = [0; 512];

// Writes so many lost records, 64 of them at once.
fn write_lost<O: Sink>(count: u64, out: &mut O) -> Result<(), SinkStop>
    ensures ok { OnOk result (Appends (O.contents out.old) (O.contents out.new) (lost_records count)) }
    ensures front { OnErr result (Front (lost_records count) (O.contents out.old) (O.contents out.new)) }
    ensures cause { SinkCause (O.faults out.old) (O.faults out.new)
        (O.refusals out.old) (O.refusals out.new) result }
    ensures onward { Onward (O.onto out.old) (O.onto out.new) (O.handed out.old) (O.handed out.new) }
{
    let mut written = 0;
    'records: while written < count {
        let next = (count - written).min(64);
        if let Err(stop) = write_some_lost(next, out) {
            return Err(stop);
        }
        written += next;
    }
    Ok(())
}

fn write_some_lost<O: Sink>(count: u64, out: &mut O) -> Result<(), SinkStop>
    requires { count ≤ 64 }
    ensures ok { OnOk result (Appends (O.contents out.old) (O.contents out.new) (lost_records count)) }
    ensures front { OnErr result (Front (lost_records count) (O.contents out.old) (O.contents out.new)) }
    ensures cause { SinkCause (O.faults out.old) (O.faults out.new)
        (O.refusals out.old) (O.refusals out.new) result }
    ensures onward { Onward (O.onto out.old) (O.onto out.new) (O.handed out.old) (O.handed out.new) }
{
    write_all(out, &LOST[..8 * count as usize])
}

// The line of an event: three numbers of at most 20 digits, with 22 bytes around them.
fn line(event: &Event) -> ArrayString<88>
    ensures { result.bytes ≡ line_text event.now }
{
    match event {
        Event::Packet {
            number,
            stamp,
            payload,
        } => packet_line(*number, *stamp, payload.as_slice().len() as u64),
        Event::Gap { first, count } => gap_line(*first, *count),
    }
}

fn packet_line(number: i64, stamp: u32, size: u64) -> ArrayString<88>
    ensures { result.bytes ≡ packet_line number stamp size }
{
    let mut line = begun("packet ", number);
    push_named(&mut line, "stamp", u64::from(stamp));
    push_named(&mut line, "bytes", size);
    line.push_str("\n");
    line
}

fn gap_line(first: i64, count: u64) -> ArrayString<88>
    ensures { result.bytes ≡ gap_line first count }
{
    let mut line = begun("gap ", first);
    push_named(&mut line, "count", count);
    line.push_str("\n");
    line
}

// A word and a number, which may be negative.
fn begun(word: &str, number: i64) -> ArrayString<88>
    requires { length word.now ≤ 7 }
    ensures text { result.bytes ≡ word.now ++ signed_decimal number }
    ensures len { array_string_len result ≤ 28 }
{
    let mut line = ArrayString::new();
    line.push_str(word);
    if number < 0 {
        line.push_str("-");
    }
    line.push_str(decimal_text(number.unsigned_abs()).as_str());
    line
}

/// Adds the numbers that events miss, up to 2^64 - 1.
pub(crate) fn add_missing(missing: u64, events: &[Event]) -> u64
    ensures { result ≡ told (missing + missing_in events.now) }
{
    let mut sum = missing;
    for event in events {
        sum = sum.saturating_add(missing_of(event));
    }
    sum
}

fn missing_of(event: &Event) -> u64
    ensures { result ≡ missing_of event.now }
{
    match event {
        Event::Packet { .. } => 0,
        Event::Gap { count, .. } => *count,
    }
}
