//! The reader of a capture in the rtpdump layout.
ghost use Rattle.std.specs.Prelude.{◌≡◌, ℕ, ◌+◌, ◌-◌, ◌<◌, ◌≤◌, List, [], true, false, length, vec_len, vec_capacity, IsOk, IsErrOf};
ghost use Rattle.std.specs.Int.{w16, to_be_bytes};
ghost use Rattle.rec_store.specs.DemoReader.{StoreCause};
ghost use Rattle.rec_store.specs.DumpReader.{DumpStart, DumpNext, is_live};
ghost use Rattle.rec_store.specs.DumpTaking.{LineTaken, KeptTaken, RestTaken, RecordTaken, head_bytes, stop_of};

use crate::take::{take_bytes, take_head};
use crate::{
    DUMP_HEAD_LEN, DumpHead, DumpItem, DumpRecordHead, LineStep, StoreFault, StoreStop,
    dump_record_length, line_step,
};
use arrayvec::ArrayVec;
use opus_io::{InStop, Reader, Source};

// Bytes of a packet at most.
const MOST_PACKET: usize = 65_527;

/// Reads a capture in the rtpdump layout: what stands before the records, and then one record after the other.
///
/// It keeps neither the reader nor the source: each call is handed both.
#[derive(Drop)]
pub struct DumpReader {
    // Whether a start answered Ok.
    started: bool,
    // Whether the reader may be asked for more.
    live: bool,
}

impl DumpReader {
    /// A reader at the front of a capture.
    pub fn new() -> DumpReader
        ensures started { result.started ≡ false }
        ensures live { result.live ≡ true }
    {
        DumpReader {
            started: false,
            live: true,
        }
    }

    /// Reads the first line and the head, once. It takes no memory.
    pub fn start<S: Source>(
        &mut self,
        input: &mut Reader,
        source: &mut S,
    ) -> Result<DumpHead, StoreStop>
        requires live { self.old.live ≡ true }
        requires first { self.old.started ≡ false }
        ensures answer { DumpStart input.old input.new (S.left source.old) (S.left source.new) result }
        ensures started { self.new.started ≡ is_live result }
        ensures live { self.new.live ≡ is_live result }
        ensures cause { StoreCause (S.faults source.old) (S.faults source.new) result }
    {
        let result = read_opening(input, source);
        self.started = result.is_ok();
        self.live = result.is_ok();
        result
    }

    /// Whether the opening was read: a start answered Ok.
    pub fn started(&self) -> bool
        ensures { result ≡ self.now.started }
    {
        self.started
    }

    /// Reads the next record, and puts its packet's bytes into `packet` in place of what was there. None is the end of the
    /// input. Before a byte is passed there is room in `packet` for each packet, 65,527 bytes.
    pub fn next<S: Source>(
        &mut self,
        input: &mut Reader,
        source: &mut S,
        packet: &mut Vec<u8>,
    ) -> Result<Option<DumpItem>, StoreStop>
        requires live { self.old.live ≡ true }
        requires started { self.old.started ≡ true }
        ensures answer { DumpNext input.old input.new (S.left source.old) (S.left source.new)
            packet.new.items result }
        ensures started { self.new.started ≡ true }
        ensures live { self.new.live ≡ is_live result }
        ensures full { IsErrOf result StoreStop.NoMemory → vec_capacity packet.old < 65527 }
        ensures untouched { IsErrOf result StoreStop.NoMemory → source.new ≡ source.old }
        ensures room { (IsErrOf result StoreStop.NoMemory → ⊥) → 65527 ≤ vec_capacity packet.new }
        ensures capacity { vec_capacity packet.old ≤ vec_capacity packet.new }
        ensures cause { StoreCause (S.faults source.old) (S.faults source.new) result }
    {
        packet.clear();
        if packet.reserve(MOST_PACKET).is_err() {
            return Err(StoreStop::NoMemory);
        }
        match read_record(input, source, packet) {
            Ok(item) => Ok(item),
            Err(stop) => {
                packet.clear();
                self.live = false;
                Err(stop)
            }
        }
    }

    /// Whether more may be asked: no call answered a fault, a failed read or the limit.
    pub fn live(&self) -> bool
        ensures { result ≡ self.now.live }
    {
        self.live
    }
}

// Reads the first line and the head.
fn read_opening<S: Source>(input: &mut Reader, source: &mut S) -> Result<DumpHead, StoreStop>
    ensures answer { DumpStart input.old input.new (S.left source.old) (S.left source.new) result }
    ensures cause { StoreCause (S.faults source.old) (S.faults source.new) result }
{
    if let Err(stop) = take_line(input, source) {
        return Err(stop);
    }
    let mut numbers = ArrayVec::new();
    if let Err(stop) = take_head(input, source, &mut numbers, DUMP_HEAD_LEN) {
        return Err(stopped(stop));
    }
    if numbers.len() < DUMP_HEAD_LEN {
        return Err(cut_at(input.passed()));
    }
    Ok(DumpHead::read(numbers.as_slice()))
}

// Takes the first line, and nothing behind it.
fn take_line<S: Source>(input: &mut Reader, source: &mut S) -> Result<(), StoreStop>
    ensures answer { LineTaken input.old input.new (S.left source.old) (S.left source.new) result }
    ensures cause { StoreCause (S.faults source.old) (S.faults source.new) result }
{
    let mut seen = 0;
    'line: loop {
        match input.look(source) {
            Ok(0) => return Err(cut_at(input.passed())),
            Ok(_) => {}
            Err(stop) => return Err(stopped(stop)),
        }
        match line_step(seen, input.shown()) {
            LineStep::More(count) => {
                input.pass(count);
                seen += count;
            }
            LineStep::Whole(count) => {
                input.pass(count);
                return Ok(());
            }
            LineStep::Bad(count) => {
                input.pass(count);
                let place = input.passed() - 1;
                return Err(StoreStop::Fault(StoreFault::DumpLine(place)));
            }
        }
    }
}

// Reads a record. Where it stops, `packet` may hold anything.
fn read_record<S: Source>(
    input: &mut Reader,
    source: &mut S,
    packet: &mut Vec<u8>,
) -> Result<Option<DumpItem>, StoreStop>
    requires none { packet.old.items ≡ [] }
    requires room { 65527 ≤ vec_capacity packet.old }
    ensures answer { RecordTaken input.old input.new (S.left source.old) (S.left source.new)
        packet.new.items result }
    ensures capacity { vec_capacity packet.old ≤ vec_capacity packet.new }
    ensures cause { StoreCause (S.faults source.old) (S.faults source.new) result }
{
    let start = input.passed();
    if let Err(stop) = take_bytes(input, source, packet, 2) {
        return Err(stopped(stop));
    }
    if packet.is_empty() {
        return Ok(None);
    }
    if packet.len() < 2 {
        return Err(cut_at(input.passed()));
    }
    let length = dump_record_length(packet.as_slice());
    if length < 8 {
        return Err(StoreStop::Fault(StoreFault::DumpLength(start)));
    }
    match take_rest(input, source, packet, length) {
        Ok(item) => Ok(Some(item)),
        Err(stop) => Err(stop),
    }
}

// Takes the rest of a record of so many bytes, the first two of which stand in `packet`.
fn take_rest<S: Source>(
    input: &mut Reader,
    source: &mut S,
    packet: &mut Vec<u8>,
    length: u16,
) -> Result<DumpItem, StoreStop>
    requires long { 8 ≤ length }
    requires first { to_be_bytes w16 length ≡ packet.old.items }
    requires room { 65527 ≤ vec_capacity packet.old }
    requires in_limit { input.old.passed ≤ input.old.limit }
    ensures answer { RestTaken input.old input.new (S.left source.old) (S.left source.new)
        packet.old.items packet.new.items result }
    ensures capacity { vec_capacity packet.old ≤ vec_capacity packet.new }
    ensures cause { StoreCause (S.faults source.old) (S.faults source.new) result }
{
    if let Err(stop) = take_bytes(input, source, packet, 8) {
        return Err(stopped(stop));
    }
    if packet.len() < 8 {
        return Err(cut_at(input.passed()));
    }
    let head = DumpRecordHead::read(packet.as_slice());
    take_kept(input, source, packet, head)
}

// Takes what a record keeps behind its head, in place of what stands in `packet`.
fn take_kept<S: Source>(
    input: &mut Reader,
    source: &mut S,
    packet: &mut Vec<u8>,
    head: DumpRecordHead,
) -> Result<DumpItem, StoreStop>
    requires long { 8 ≤ head.length }
    requires room { 65527 ≤ vec_capacity packet.old }
    requires in_limit { input.old.passed ≤ input.old.limit }
    ensures answer { KeptTaken input.old input.new (S.left source.old) (S.left source.new)
        (head_bytes head) packet.new.items result }
    ensures capacity { vec_capacity packet.old ≤ vec_capacity packet.new }
    ensures cause { StoreCause (S.faults source.old) (S.faults source.new) result }
{
    packet.clear();
    let kept = usize::from(head.length) - 8;
    if let Err(stop) = take_bytes(input, source, packet, kept) {
        return Err(stopped(stop));
    }
    if packet.len() < kept {
        return Err(cut_at(input.passed()));
    }
    packet.truncate(usize::from(head.packet_size()));
    Ok(head.item())
}

// The input ended within the opening or a record, at this place.
fn cut_at(place: u64) -> StoreStop
    ensures { result ≡ StoreStop.Fault (StoreFault.StoreCut place) }
{
    StoreStop::Fault(StoreFault::StoreCut(place))
}

// A look's stop as a store's.
fn stopped(stop: InStop) -> StoreStop
    ensures { result ≡ stop_of stop }
{
    match stop {
        InStop::Read => StoreStop::Read,
        InStop::Limit => StoreStop::Limit,
    }
}
