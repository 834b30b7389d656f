//! Numbers in decimal digits, without a sign, and without a leading zero unless the number is 0.
ghost use Rattle.std.specs.Prelude.{◌≡◌, ◌≤◌, ◌&&◌, ◌==◌, IfSome, not, slice_index};
ghost use Rattle.text_numbers.specs.Number.{is_padded, number_within};

use std::str::from_utf8;

/// The number that `text` writes, where it lies from `least` to `most`.
pub fn read_number(text: &[u8], least: u32, most: u32) -> Option<u32>
    ensures value { result ≡ number_within least most text.now }
    ensures within { IfSome result (λ n. n ≤ most) }
{
    if !is_plain(text) {
        return None;
    }
    let Ok(digits) = from_utf8(text) else {
        return None;
    };
    match digits.parse::<u32>() {
        Ok(number) if least <= number && number <= most => Some(number),
        _ => None,
    }
}

// No plus stands first, and no zero in front of other bytes: std's numbers may begin so.
fn is_plain(text: &[u8]) -> bool
    ensures { result ≡ (not (slice_index text.now 0 == 43) && not (is_padded text.now)) }
{
    !text.starts_with(b"+") && (text.len() < 2 || text[0] != b'0')
}
