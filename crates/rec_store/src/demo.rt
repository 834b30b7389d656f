//! The reader of an `opus_demo` store.
ghost use Rattle.std.specs.Prelude.{◌≡◌, ◌≢◌, ◌↔◌, ◌+◌, ◌-◌, ◌≤◌, [], length, drop, true, IsOk};
ghost use Rattle.std.specs.Io.BufRead.{Rests};
ghost use Rattle.std.specs.Borrow.{sem};
ghost use Rattle.opus_io.specs.contracts.reader.Reader.{the_row};
ghost use Rattle.rec_store.specs.DemoStore.{demo_head};
ghost use Rattle.rec_store.specs.DemoReader.{DemoNext, StoreCause, left_after, PieceLooked};

use crate::numbers::read_number;
use crate::take::take_head;
use crate::{StoreFault, StoreStop};
use arrayvec::ArrayVec;
use opus_io::{InStop, Reader, Source};

/// What stands before a record's payload.
#[derive(Clone, Copy, Debug, PartialEq, Eq)]
pub struct DemoHead {
    /// Bytes of the payload. 0 is a lost packet.
    pub len: u32,
    /// The final range of the coder.
    pub range: u32,
}

impl DemoHead {
    /// The head that eight bytes spell.
    #[inline(always)]
    pub fn read(bytes: &[u8]) -> DemoHead
        requires { length bytes.now ≡ 8 }
        ensures { demo_head result.len result.range ≡ bytes.now }
    {
        DemoHead {
            len: read_number(&bytes[..4]),
            range: read_number(&bytes[4..]),
        }
    }
}

/// Reads the records of an `opus_demo` store one after the other: a head, and then the payload in
/// pieces.
///
/// It keeps neither the reader nor the source: each call that may read is handed both.
#[derive(Drop)]
pub struct DemoReader {
    // Bytes of the payload that remain.
    left: u32,
    // Whether the reader may be asked for more.
    live: bool,
}

impl DemoReader {
    /// A reader at the front of a store.
    pub fn new() -> DemoReader
        ensures left { result.left ≡ 0 }
        ensures live { result.live ≡ true }
    {
        DemoReader {
            left: 0,
            live: true,
        }
    }

    /// Reads the head of the next record. None is the end of the input.
    pub fn next<S: Source>(
        &mut self,
        input: &mut Reader,
        source: &mut S,
    ) -> Result<Option<DemoHead>, StoreStop>
        requires live { self.old.live ≡ true }
        requires done { self.old.left ≡ 0 }
        ensures answer { DemoNext input.old input.new (S.left source.old) (S.left source.new)
            result }
        ensures left { self.new.left ≡ left_after result }
        ensures live { self.new.live ≡ true ↔ IsOk result }
        ensures untouched { 8 ≤ length input.old.bytes → 8 ≤ input.old.limit - input.old.passed
            → source.new ≡ source.old }
        ensures cause { StoreCause (S.faults source.old) (S.faults source.new) result }
    {
        let result = read_head(input, source);
        self.live = result.is_ok();
        if let Ok(Some(head)) = &result {
            self.left = head.len;
        }
        result
    }

    /// Bytes of the payload that remain.
    pub fn left(&self) -> u32
        ensures { result ≡ self.now.left }
    {
        self.left
    }

    /// Shows the bytes of the payload that come next. An empty slice means that none remains.
    // The reader comes first: a contract can tell what is lent out of the first argument alone.
    pub fn piece<'r, S: Source>(
        input: &'r mut Reader,
        store: &DemoReader,
        source: &mut S,
    ) -> Result<&'r [u8], StoreStop>
        requires live { store.now.live ≡ true }
        ensures* after { sem 𝓛 (Rests the_row input.entry (λ new. PieceLooked store.now.left
            input.old new (S.left source.old) (S.left source.new) result)) }
        ensures done { store.now.left ≡ 0 → source.new ≡ source.old }
        ensures untouched { input.old.bytes ≢ [] → source.new ≡ source.old }
        ensures cause { StoreCause (S.faults source.old) (S.faults source.new) result }
    {
        if store.left == 0 {
            return Ok(&[]);
        }
        match input.look(source) {
            Ok(0) => Err(StoreStop::Fault(StoreFault::StoreCut(input.passed()))),
            Ok(shown) => Ok(&input.shown()[..shown.min(store.left as usize)]),
            Err(InStop::Read) => Err(StoreStop::Read),
            Err(InStop::Limit) => Err(StoreStop::Limit),
        }
    }

    /// Passes `n` bytes of those that `piece` showed.
    pub fn pass(&mut self, input: &mut Reader, n: usize)
        requires left { n ≤ self.old.left }
        requires kept { n ≤ length input.old.bytes }
        requires within { n ≤ input.old.limit - input.old.passed }
        ensures left { self.new.left ≡ self.old.left - n }
        ensures live { self.new.live ≡ self.old.live }
        ensures bytes { input.new.bytes ≡ drop n input.old.bytes }
        ensures passed { input.new.passed ≡ input.old.passed + n }
        ensures limit { input.new.limit ≡ input.old.limit }
        ensures in_limit { input.new.passed ≤ input.new.limit }
    {
        input.pass(n);
        let left = self.left as usize;
        self.left = (left - n) as u32;
    }

    /// Whether more may be asked: no call answered a fault, a failed read or the limit.
    pub fn live(&self) -> bool
        ensures { result ≡ self.now.live }
    {
        self.live
    }
}

// Reads the head that comes next, and nothing behind it.
fn read_head<S: Source>(input: &mut Reader, source: &mut S) -> Result<Option<DemoHead>, StoreStop>
    ensures answer { DemoNext input.old input.new (S.left source.old) (S.left source.new) result }
    ensures untouched { 8 ≤ length input.old.bytes → 8 ≤ input.old.limit - input.old.passed
        → source.new ≡ source.old }
    ensures cause { StoreCause (S.faults source.old) (S.faults source.new) result }
{
    let mut head = ArrayVec::new();
    if let Err(stop) = take_head(input, source, &mut head, 8) {
        return Err(match stop {
            InStop::Read => StoreStop::Read,
            InStop::Limit => StoreStop::Limit,
        });
    }
    match head.len() {
        0 => Ok(None),
        8 => Ok(Some(DemoHead::read(head.as_slice()))),
        _ => Err(StoreStop::Fault(StoreFault::StoreCut(input.passed()))),
    }
}
