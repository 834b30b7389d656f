//! The lengths of a packet's frames, which stay where they were spelled or listed.
ghost use Rattle.std.specs.Prelude.{◌≡◌, ℕ, ◌+◌, ◌-◌, ◌<◌, ◌≤◌, List, ◌++◌, length, take, flat_map, All, IfSome};
ghost use Rattle.opus_flen.specs.FrameLength.{length_bytes};
ghost use Rattle.opus_packet.specs.Value.{max_frame};
ghost use Rattle.opus_packet.specs.Header.{frame_lengths};
ghost use Rattle.opus_packet.specs.HeaderStands.{AreSized, sizes_value};
ghost use Rattle.opus_packet.specs.SelfGrammar.{last_length};
ghost use Rattle.opus_packet.specs.Lens.{spelling_of};
ghost use Rattle.opus_packet.specs.Spelled.{SpellsLengths, SplitsTo};

use crate::header::Sizes;
use opus_flen::{LenRead, read_len};
use std::marker::Model;

/// What is known of the lengths before the last.
#[derive(Clone, Copy)]
enum Before<'a> {
    /// They are equal to it.
    Equal,
    /// The bytes that spell them.
    Spelled(&'a [u8]),
    /// All lengths, the last among them.
    Listed(&'a [u16]),
}

/// The lengths of frames, in bytes, at most 48 of at most 1,275: an iterator that copies none.
#[derive(Drop)]
pub struct Lens<'a> {
    before: Before<'a>,
    last: u16,
    count: u8,
}

impl<'a> Model for Lens<'a> {
    ghost use Rattle.std.specs.Prelude.{List, ℕ};
    ghost use Rattle.opus_packet.specs.Lens.{lens_inside, IsLens};

    ghost Value = { List ℕ };

    ghost view = { lens_inside };

    ghost invariant = { IsLens };
}

impl<'a> Lens<'a> {
    ghost use Rattle.opus_packet.specs.Canonical.{have_one_length};

    /// The lengths that a header gives, where the last frame has `last` bytes.
    #[inline(always)]
    pub fn of_sizes(sizes: Sizes<'a>, last: u16) -> Lens<'a>
        requires sized { AreSized sizes }
        requires frame { last ≤ max_frame }
        ensures { result ≡ frame_lengths (sizes_value sizes.entry) last }
    {
        match sizes {
            Sizes::Equal(count) => Lens {
                before: Before::Equal,
                last,
                count,
            },
            Sizes::Given(spelled) => Lens {
                before: Before::Spelled(spelled.bytes),
                last,
                count: spelled.count + 1,
            },
        }
    }

    /// These lengths.
    #[inline(always)]
    pub fn of_list(lens: &'a [u16]) -> Lens<'a>
        requires some { 1 ≤ length lens.now }
        requires most { length lens.now ≤ 48 }
        requires each { All (λ n. n ≤ max_frame) lens.now }
        ensures { result ≡ lens.now }
    {
        Lens {
            before: Before::Listed(lens),
            last: lens[lens.len() - 1],
            count: lens.len() as u8,
        }
    }

    /// The same lengths once more.
    #[inline(always)]
    pub fn again(&self) -> Lens<'a>
        ensures same { result ≡ self.now }
        ensures each { All (λ n. n ≤ max_frame) result }
    {
        Lens {
            before: self.before,
            last: self.last,
            count: self.count,
        }
    }

    /// How many lengths there are, at most 48.
    #[inline(always)]
    pub fn len(&self) -> usize
        ensures count { result ≡ length self.now }
        ensures most { result ≤ 48 }
        ensures each { All (λ n. n ≤ max_frame) self.now }
    {
        usize::from(self.count)
    }

    /// The last length.
    #[inline(always)]
    pub fn last_len(&self) -> u16
        requires { 1 ≤ length self.now }
        ensures last { result ≡ last_length self.now }
        ensures most { result ≤ max_frame }
    {
        self.last
    }

    /// Whether all lengths are one.
    #[inline(always)]
    pub fn are_one(&self) -> bool
        ensures { result ≡ have_one_length self.now }
    {
        match self.before {
            Before::Equal => true,
            _ => self.are_same(),
        }
    }

    /// The bytes that spell all lengths but the last, where they stand so somewhere.
    #[inline(always)]
    pub fn spelled(&self) -> Option<&'a [u8]>
        requires { 1 ≤ length self.now }
        ensures bytes { IfSome result
            (λ bytes. bytes.now ≡ flat_map length_bytes (take (length self.now - 1) self.now)) }
        ensures most { IfSome result (λ bytes. length bytes.now ≤ 94) }
    {
        spelling(self.before)
    }

    // Whether all lengths are the first, looked at one by one.
    fn are_same(&self) -> bool
        ensures { result ≡ have_one_length self.now }
    {
        let mut rest = self.again();
        let Some(first) = rest.next() else {
            return true;
        };
        while let Some(len) = rest.next() {
            if len != first {
                return false;
            }
        }
        true
    }
}

// The bytes that spell the lengths before the last, exactly where they lie spelled.
#[inline(always)]
fn spelling(before: Before<'_>) -> Option<&[u8]>
    ensures told { result ≡ spelling_of before.entry }
{
    match before {
        Before::Spelled(bytes) => Some(bytes),
        _ => None,
    }
}

// The first of `count` lengths that the bytes spell, and the bytes of the others.
#[inline(always)]
fn split_len(bytes: &[u8], count: u8, left: u8) -> (u16, &[u8])
    requires count { count ≡ left + 1 }
    requires spells { SpellsLengths count bytes.now }
    ensures { SplitsTo count left bytes.now result.0 result.1.now }
{
    match read_len(bytes) {
        LenRead::Len { value, used } => (value, &bytes[used..]),
        LenRead::Cut => (0, bytes),
    }
}

impl<'a> Iterator for Lens<'a> {
    ghost use Rattle.std.specs.Iterator.{YieldsFirst, item_count};

    type Item = u16;

    ghost next_gives = { YieldsFirst (λ l. l) };

    ghost remaining = { item_count (λ l. l) };

    #[inline(always)]
    fn next(&mut self) -> Option<u16> {
        if self.count == 0 {
            return None;
        }
        let left = self.count - 1;
        let mut len = self.last;
        match self.before {
            Before::Equal => {}
            Before::Spelled(bytes) => {
                if left > 0 {
                    let (first, rest) = split_len(bytes, left, left - 1);
                    len = first;
                    self.before = Before::Spelled(rest);
                }
            }
            Before::Listed(lens) => {
                len = lens[0];
                self.before = Before::Listed(&lens[1..]);
            }
        }
        self.count = left;
        Some(len)
    }
}
