//! The steps of the machine of captures: what it does with the next bytes, by where it stands.
ghost use Rattle.std.specs.Prelude.{◌≡◌, ◌⊎◌, ℕ, ◌+◌, ◌<◌, ◌≤◌, ◌++◌, true, false, length, take, vec_len, vec_capacity};
ghost use Rattle.opus_io.specs.Reader.{max_input};
ghost use Rattle.dump_records.specs.Wants.{Wants};
ghost use Rattle.dump_records.specs.declared.mode.Mode.TheVariants as modes;

use super::DumpForm;
use crate::item::{bad, record_at};
use crate::mode::Mode;
use job_loop::Fed;
use rec_store::{
    DUMP_HEAD_LEN, LineStep, StoreFault, dump_record_length, line_step, read_dump_record,
};

// One byte that decides no record.
const ONE: Fed = Fed {
    count: 1,
    whole: false,
};

impl DumpForm {
    ghost use Rattle.dump_records.specs.DumpForm.{Took, Feeds};

    /// More bytes of the first line.
    #[cold]
    #[inline(never)]
    pub(super) fn more_line(&mut self, at: u64, piece: &[u8]) -> Fed
        requires mode { self.old.mode ≡ modes.Line }
        requires some { 0 < length piece.now }
        requires fits { at + length piece.now ≤ max_input }
        ensures took { Took self.old self.new at piece.now result }
    {
        match line_step(self.seen, piece) {
            LineStep::More(count) => {
                self.seen += count;
                Fed {
                    count,
                    whole: false,
                }
            }
            LineStep::Whole(count) => {
                self.mode = Mode::Head;
                self.seen = 0;
                Fed {
                    count,
                    whole: false,
                }
            }
            LineStep::Bad(count) => {
                let place = at + count as u64;
                self.mode = Mode::Bad;
                self.item = bad(place, StoreFault::DumpLine(place - 1));
                Fed { count, whole: true }
            }
        }
    }

    /// More bytes of the head.
    #[cold]
    #[inline(never)]
    pub(super) fn more_head(&mut self, piece: &[u8]) -> Fed
        requires mode { self.old.mode ≡ modes.Head }
        requires some { 0 < length piece.now }
        ensures some { 1 ≤ result.count }
        ensures most { result.count ≤ length piece.now }
        ensures fed { (at : ℕ) → Feeds self.old self.new at result (take result.count piece.now) }
        ensures part { result.whole ≡ false }
    {
        let count = piece.len().min(DUMP_HEAD_LEN - self.seen);
        if self.seen + count == DUMP_HEAD_LEN {
            self.mode = Mode::Fresh;
            return Fed {
                count,
                whole: false,
            };
        }
        self.seen += count;
        Fed {
            count,
            whole: false,
        }
    }

    /// A record that lies whole in `piece`, or the first bytes of one.
    #[inline(always)]
    pub(super) fn front(&mut self, at: u64, piece: &[u8]) -> Fed
        requires mode { (self.old.mode ≡ modes.Fresh) ⊎ (self.old.mode ≡ modes.Kept) }
        requires two { 2 ≤ length piece.now }
        requires fits { at + length piece.now ≤ max_input }
        ensures took { Took self.old self.new at piece.now result }
    {
        let length = usize::from(dump_record_length(&piece[..2]));
        if length < 8 {
            self.mode = Mode::Bad;
            self.item = bad(at + 2, StoreFault::DumpLength(at));
            return Fed {
                count: 2,
                whole: true,
            };
        }
        if length > piece.len() {
            return self.begin(length, piece);
        }
        let told = read_dump_record(&piece[..length]);
        self.mode = Mode::Fresh;
        self.item = record_at(at + length as u64, told);
        self.size = usize::from(told.size);
        Fed {
            count: length,
            whole: true,
        }
    }

    // The first bytes of a record that has so many.
    #[cold]
    #[inline(never)]
    fn begin(&mut self, want: usize, piece: &[u8]) -> Fed
        requires mode { (self.old.mode ≡ modes.Fresh) ⊎ (self.old.mode ≡ modes.Kept) }
        requires wants { Wants want piece.now }
        ensures count { result.count ≡ length piece.now }
        ensures part { result.whole ≡ false }
        ensures fed { (at : ℕ) → Feeds self.old self.new at result piece.now }
    {
        self.kept.clear();
        append(&mut self.kept, piece);
        self.mode = Mode::Part;
        self.want = want;
        Fed {
            count: piece.len(),
            whole: false,
        }
    }

    /// The first byte of a record, alone.
    #[cold]
    #[inline(never)]
    pub(super) fn first(&mut self, at: u64, piece: &[u8]) -> Fed
        requires mode { (self.old.mode ≡ modes.Fresh) ⊎ (self.old.mode ≡ modes.Kept) }
        requires one { length piece.now ≡ 1 }
        ensures count { result.count ≡ 1 }
        ensures part { result.whole ≡ false }
        ensures fed { Feeds self.old self.new at result piece.now }
    {
        self.kept.clear();
        append(&mut self.kept, piece);
        self.mode = Mode::First;
        self.start = at;
        ONE
    }

    /// The second byte of a record, which tells its length.
    #[cold]
    #[inline(never)]
    pub(super) fn second(&mut self, at: u64, piece: &[u8]) -> Fed
        requires mode { self.old.mode ≡ modes.First }
        requires some { 0 < length piece.now }
        requires fits { at + length piece.now ≤ max_input }
        ensures count { result.count ≡ 1 }
        ensures took { Took self.old self.new at piece.now result }
    {
        append(&mut self.kept, &piece[..1]);
        let length = usize::from(dump_record_length(self.kept.as_slice()));
        if length < 8 {
            self.mode = Mode::Bad;
            self.item = bad(at + 1, StoreFault::DumpLength(self.start));
            return Fed {
                count: 1,
                whole: true,
            };
        }
        self.mode = Mode::Part;
        self.want = length;
        ONE
    }

    /// More bytes of a record whose length is known.
    #[cold]
    #[inline(never)]
    pub(super) fn more(&mut self, at: u64, piece: &[u8]) -> Fed
        requires mode { self.old.mode ≡ modes.Part }
        requires some { 0 < length piece.now }
        requires fits { at + length piece.now ≤ max_input }
        ensures took { Took self.old self.new at piece.now result }
    {
        let count = piece.len().min(self.want - self.kept.len());
        append(&mut self.kept, &piece[..count]);
        if self.kept.len() < self.want {
            return Fed {
                count,
                whole: false,
            };
        }
        let told = read_dump_record(self.kept.as_slice());
        self.mode = Mode::Kept;
        self.item = record_at(at + count as u64, told);
        self.size = usize::from(told.size);
        Fed { count, whole: true }
    }
}

// Keeps more bytes, for which there is room.
fn append(kept: &mut Vec<u8>, piece: &[u8])
    requires room { vec_len kept.old + length piece.now ≤ vec_capacity kept.old }
    ensures items { kept.new.items ≡ kept.old.items ++ piece.now }
    ensures len { vec_len kept.new ≡ vec_len kept.old + length piece.now }
    ensures room { vec_capacity kept.old ≤ vec_capacity kept.new }
{
    kept.extend_from_slice(piece).unwrap();
}
