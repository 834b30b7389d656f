//! The bytes behind a header: frames, and padding bytes behind them.
ghost use Rattle.std.specs.Prelude.{◌≡◌, ℕ, ◌+◌, ◌-◌, ◌^◌, ◌<◌, ◌≤◌, ◌++◌, length, take, min, vec_len, vec_capacity, IfOk};
ghost use Rattle.opus_feed.specs.Bodies.{memory_of, kept_tail, IsStarted, Fills};

use crate::padding::Padding;
use opus_io::NoMemory;
use std::alloc::Global;

/// Most frame bytes of a packet: 48 frames of 1,275 bytes.
const FRAME_BYTES: usize = 61_200;

/// Most frame bytes and kept padding bytes together.
const FRAME_AND_TAIL_BYTES: usize = 126_735;

/// What came behind a header. How much may come and how much is kept, the header tells.
#[derive(Drop)]
pub(crate) struct Body {
    /// The bytes that are kept stand first.
    pub bytes: Vec<u8>,
    /// How many are kept.
    pub kept: usize,
    /// How many came.
    pub came: usize,
    /// How many header bytes came before.
    pub front: usize,
    /// Most that can come.
    pub limit: usize,
    /// Most that are kept.
    pub room: usize,
}

impl Body {
    /// Takes all memory that frames and kept padding bytes need.
    pub fn new(alloc: Global, padding: Padding) -> Result<Body, NoMemory>
        ensures memory { IfOk result (λ b. vec_len b.bytes ≡ memory_of padding) }
        ensures exact { IfOk result (λ b. vec_capacity b.bytes ≡ memory_of padding) }
        ensures none { IfOk result (λ b. (b.kept ≡ 0) × (b.came ≡ 0) × (b.front ≡ 0)) }
    {
        let size = match padding {
            Padding::Drop => FRAME_BYTES,
            Padding::Keep => FRAME_AND_TAIL_BYTES,
        };
        let mut bytes = Vec::with_capacity(alloc, size)?;
        'room: for _ in 0..size {
            bytes.push_reserved(0);
        }
        Ok(Body {
            bytes,
            kept: 0,
            came: 0,
            front: 0,
            limit: 0,
            room: 0,
        })
    }

    /// Forgets what came.
    #[inline(always)]
    pub fn clear(&mut self)
        ensures { self.new ≡ record self.old { kept = 0; came = 0; front = 0 } }
    {
        self.kept = 0;
        self.came = 0;
        self.front = 0;
    }

    /// Says how much can come and is kept: frames of `size` bytes, and `tail` padding bytes.
    #[inline(always)]
    pub fn start(&mut self, padding: Padding, size: usize, tail: usize)
        requires size { size ≤ 61200 }
        requires tail { tail < 2 ^ 24 }
        ensures limit { self.new.limit ≡ size + tail }
        ensures room { self.new.room ≡ size + kept_tail padding tail }
        ensures others { IsStarted self.old self.new }
    {
        self.limit = size + tail;
        self.room = size + padding.kept(tail);
    }

    /// Takes bytes from the front of `piece`, as many as can come, and keeps those that are kept.
    #[inline(always)]
    pub fn fill(&mut self, piece: &[u8]) -> usize
        requires came { self.old.came ≤ self.old.limit }
        requires kept { self.old.kept ≡ min self.old.room self.old.came }
        requires room { self.old.room ≤ vec_len self.old.bytes }
        requires small { self.old.limit ≤ 16838415 }
        ensures { Fills self.old piece.now result self.new }
    {
        let used = piece.len().min(self.limit - self.came);
        let kept = self.room.min(self.came + used);
        put(&mut self.bytes, self.kept, &piece[..kept - self.kept]);
        self.kept = kept;
        self.came += used;
        used
    }
}

// Puts `piece` behind the first `at` bytes.
#[inline(always)]
fn put(bytes: &mut [u8], at: usize, piece: &[u8])
    requires { at + length piece.now ≤ length bytes.old }
    ensures put { take (at + length piece.now) bytes.new ≡ take at bytes.old ++ piece.now }
    ensures size { length bytes.new ≡ length bytes.old }
{
    bytes[at..at + piece.len()].copy_from_slice(piece);
}
