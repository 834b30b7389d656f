//! What is found out about a line of an input.
ghost use Rattle.std.specs.Prelude.{◌≡◌, IsTrue};
ghost use Rattle.opus_sdp.specs.Text.{is_line};

use job_loop::Numbers;

/// A line of an input. Its bytes are lent without the newline.
#[derive(Clone, Copy, Debug, PartialEq, Eq)]
pub struct Line {
    /// Where it begins, in bytes from the input's beginning.
    pub start: u64,
    /// How many bytes of the input were there when it was decided, its newline included.
    pub place: u64,
}

impl Numbers for Line {
    ghost fits = { λ _ bytes. IsTrue (is_line bytes) };
}

/// The cut of an input of lines, which is never cut: its last line may lack its newline.
#[derive(Clone, Copy)]
pub enum NoCut {}
