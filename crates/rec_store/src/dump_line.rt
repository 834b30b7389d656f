//! The first line of a capture, read in pieces.
ghost use Rattle.std.specs.Prelude.{◌≡◌, ℕ, ◌+◌, ◌-◌, ◌≤◌, ◌<◌, List, ◌++◌, length, take};
ghost use Rattle.rec_store.specs.DumpLine.{IsMarkPart, IsTextPart, IsLinePart, LineIs, LineRoom, line_taken};

/// `#!rtpplay1.0 `, with which each capture begins.
pub(crate) const MARK: [u8; 13] = *b"#!rtpplay1.0 ";

// Bytes of a first line at most, its newline included.
const MOST: usize = 256;

/// What a piece of the first line makes of it.
#[derive(Clone, Copy, Debug, PartialEq, Eq)]
pub enum LineStep {
    /// So many bytes of the piece are the line's, and others follow.
    More(usize),
    /// The line ends behind so many bytes of the piece.
    Whole(usize),
    /// The last of so many bytes of the piece goes wrong: no line begins so.
    Bad(usize),
}

/// Takes bytes of the first line from the front of `piece`, one at least. `seen` bytes of it came before.
///
/// The line is the mark `#!rtpplay1.0 `, whatever tells address and port, and a newline: 256 bytes at most.
pub fn line_step(seen: usize, piece: &[u8]) -> LineStep
    requires some { 0 < length piece.now }
    requires seen { seen < 256 }
    ensures some { 1 ≤ line_taken result }
    ensures most { line_taken result ≤ length piece.now }
    ensures room { LineRoom result seen }
    ensures is { (h : List ℕ) → IsLinePart h → length h ≡ seen
        → LineIs result (h ++ take (line_taken result) piece.now) }
{
    if seen < MARK.len() {
        in_mark(seen, piece)
    } else {
        in_text(seen, piece)
    }
}

// Bytes of the mark.
fn in_mark(seen: usize, piece: &[u8]) -> LineStep
    requires some { 0 < length piece.now }
    requires seen { seen < 13 }
    ensures some { 1 ≤ line_taken result }
    ensures most { line_taken result ≤ length piece.now }
    ensures room { LineRoom result seen }
    ensures is { (h : List ℕ) → IsMarkPart h → length h ≡ seen
        → LineIs result (h ++ take (line_taken result) piece.now) }
{
    let most = piece.len().min(MARK.len() - seen);
    for (at, byte) in piece[..most].iter().enumerate() {
        if *byte != MARK[seen + at] {
            return LineStep::Bad(at + 1);
        }
    }
    LineStep::More(most)
}

// Bytes between the mark and the newline, and the newline.
fn in_text(seen: usize, piece: &[u8]) -> LineStep
    requires some { 0 < length piece.now }
    requires mark { 13 ≤ seen }
    requires seen { seen < 256 }
    ensures some { 1 ≤ line_taken result }
    ensures most { line_taken result ≤ length piece.now }
    ensures room { LineRoom result seen }
    ensures is { (h : List ℕ) → IsTextPart h → length h ≡ seen
        → LineIs result (h ++ take (line_taken result) piece.now) }
{
    let most = piece.len().min(MOST - seen);
    for (at, byte) in piece[..most].iter().enumerate() {
        if *byte == b'\n' {
            return LineStep::Whole(at + 1);
        }
    }
    if seen + most == MOST {
        LineStep::Bad(most)
    } else {
        LineStep::More(most)
    }
}
