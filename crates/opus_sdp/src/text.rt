//! Blanks, and where a text is cut.
ghost use Rattle.std.specs.Prelude.{◌≡◌, ◌==◌, ◌≤◌, length};
ghost use Rattle.std.specs.List.{prefix_len, position_or_len};
ghost use Rattle.opus_sdp.specs.Text.{is_line, is_blank, trim_end};

/// Whether the text is of a single line: it holds no newline.
pub fn is_line(text: &[u8]) -> bool
    ensures { result ≡ is_line text.now }
{
    text.iter().all(|byte| *byte != b'\n')
}

// Space, tab and carriage return.
fn is_blank(byte: u8) -> bool
    ensures { result ≡ is_blank byte }
{
    byte == b' ' || byte == b'\t' || byte == b'\r'
}

/// How many blanks stand in front.
pub(crate) fn blanks(text: &[u8]) -> usize
    ensures count { result ≡ prefix_len is_blank text.now }
    ensures within { result ≤ length text.now }
{
    let mut count = 0;
    while count < text.len() && is_blank(text[count]) {
        count += 1;
    }
    count
}

/// The text without the blanks at its end.
pub(crate) fn trim_end(text: &[u8]) -> &[u8]
    ensures { result.now ≡ trim_end text.now }
{
    let mut size = text.len();
    while size > 0 && is_blank(text[size - 1]) {
        size -= 1;
    }
    &text[..size]
}

/// How many bytes stand in front of the first blank, or of the end.
pub(crate) fn until_blank(text: &[u8]) -> usize
    ensures count { result ≡ position_or_len is_blank text.now }
    ensures within { result ≤ length text.now }
{
    let mut count = 0;
    while count < text.len() && !is_blank(text[count]) {
        count += 1;
    }
    count
}

/// How many bytes stand in front of the first of this kind, or of the end.
pub(crate) fn until(text: &[u8], wanted: u8) -> usize
    ensures count { result ≡ position_or_len (λ b. b == wanted) text.now }
    ensures within { result ≤ length text.now }
{
    let mut count = 0;
    while count < text.len() && text[count] != wanted {
        count += 1;
    }
    count
}
