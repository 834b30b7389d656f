//! Why a job refuses an input, in numbers, and texts in fixed memory.
ghost use Rattle.std.specs.Prelude.{◌≡◌, ◌≤◌, ℕ, List, length};
ghost use Rattle.arrayvec.specs.ArrayString.{array_string_len};

use crate::told::Told;
use arrayvec::ArrayString;
use job_loop::JobStop;
use opus_words::JobFault;

/// A reason to refuse an input.
pub trait Reason: Copy {
    // The words that name it.
    ghost words: { Self → List ℕ };

    /// The words that name it in a note.
    fn text(self) -> ArrayString<64>
        ensures { result.bytes ≡ words self };
}

/// A refused input. Its text is made at the end of the run alone.
#[derive(Clone, Copy, Debug, PartialEq, Eq)]
pub struct Refusal<W> {
    /// The record's number, from 0.
    pub index: u64,
    /// The place, in bytes from the input's beginning.
    pub place: u64,
    /// What is wrong there.
    pub why: W,
}

/// What a job answers that refuses an input for a `W`: it goes on, or why it stops.
pub type Answer<W> = Result<(), JobStop<Refusal<W>>>;

impl<W> Refusal<W> {
    ghost use Rattle.job_ends.specs.Refusal.{refusal_of};

    /// The refusal at this place, for this reason, with the number of its record.
    #[inline]
    pub fn new(index: u64, place: u64, why: W) -> Refusal<W>
        ensures { result ≡ refusal_of index place why }
    {
        Refusal { index, place, why }
    }
}

impl<W: Reason> Told for Refusal<W> {
    ghost use Rattle.job_ends.specs.Refusal.{Tells};

    ghost tells = { Tells W.words };

    #[cold]
    #[inline(never)]
    fn fault(self) -> JobFault {
        JobFault {
            index: self.index,
            place: self.place,
            text: self.why.text(),
        }
    }
}

/// The words as a text.
pub fn text_of(words: &str) -> ArrayString<64>
    requires { length words.now ≤ 64 }
    ensures text { result.bytes ≡ words.now }
    ensures len { array_string_len result ≡ length words.now }
{
    let mut text = ArrayString::new();
    text.push_str(words);
    text
}
