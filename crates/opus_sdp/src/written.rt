//! A parameter where it lies.
ghost use Rattle.std.specs.Prelude.{◌≡◌, ◌<◌, ◌+◌, ◌^◌, length, true, false, ⊤, MatchOption};
ghost use Rattle.opus_sdp.specs.Grammar.{is_name, is_name_byte};
ghost use Rattle.opus_sdp.specs.Fault.{has_name};
ghost use Rattle.opus_sdp.specs.Parts.{part_at, name_of, value_at};
ghost use Rattle.std.specs.List.{list_all};

use crate::text::{blanks, trim_end, until};

/// A parameter as it is written, without blanks.
#[derive(Clone, Copy)]
pub(crate) struct Written<'a> {
    /// Where the parameter begins.
    pub(crate) at: usize,
    pub(crate) name: &'a [u8],
    pub(crate) value: &'a [u8],
    /// Where the value begins.
    pub(crate) value_at: usize,
}

impl<'a> Written<'a> {
    ghost use Rattle.opus_sdp.specs.Written.{IsWritten};

    /// Reads a parameter that begins at a place, and has no blank at its ends. None where it has no name.
    pub(crate) fn read(at: usize, text: &'a [u8]) -> Option<Written<'a>>
        requires { at + length text.now < 2 ^ 64 }
        ensures { MatchOption result (has_name text.now ≡ false)
            (λ w. (has_name text.now ≡ true) × IsWritten w (part_at at text.now)) }
    {
        let equals = until(text, b'=');
        if equals == text.len() {
            return None;
        }
        let name = trim_end(&text[..equals]);
        if !is_name(name) {
            return None;
        }
        let rest = &text[equals + 1..];
        let skipped = blanks(rest);
        Some(Written {
            at,
            name,
            value: trim_end(&rest[skipped..]),
            value_at: at + equals + 1 + skipped,
        })
    }
}

// At least one byte, and each of them a letter, a digit, `-`, `_` or `.`.
fn is_name(name: &[u8]) -> bool
    ensures { result ≡ is_name name.now }
{
    !name.is_empty() && are_name_bytes(name)
}

fn are_name_bytes(name: &[u8]) -> bool
    ensures { result ≡ list_all is_name_byte name.now }
{
    name.iter().all(|byte| is_name_byte(*byte))
}

fn is_name_byte(byte: u8) -> bool
    ensures { result ≡ is_name_byte byte }
{
    byte.is_ascii_alphanumeric() || byte == b'-' || byte == b'_' || byte == b'.'
}
