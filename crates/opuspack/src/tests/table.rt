//! What the tables of the tests are read with.
use super::{lines, merge, outside};
use std::alloc::Global;
use std::test::Fail;

/// Whether a line of a table is a row, and neither blank nor a comment.
pub(crate) fn is_row(line: &str) -> bool {
    !line.is_empty() && !line.starts_with('#')
}

/// The columns of a line, which bars part.
pub(crate) fn columns(alloc: Global, line: &str) -> Result<Vec<&str>, Fail> {
    let mut columns = Vec::new(alloc);
    for column in line.split('|') {
        columns.push(column.trim())?;
    }
    Ok(columns)
}

// What stands for a column that has a name.
fn named(column: &str) -> &str {
    match column {
        "THREE" => merge::THREE,
        "SEVEN" => merge::SEVEN,
        "SENT" => outside::SENT,
        "CAPTURE" => lines::CAPTURE,
        "PAYLOADS" => lines::PAYLOADS,
        "EVENTS" => lines::EVENTS,
        _ => column,
    }
}

/// The bytes that a column stands for: hex digits in groups, and texts in single quotes. 00*16 is a byte that stands 16
/// times.
pub(crate) fn bytes_of(alloc: Global, column: &str) -> Result<Vec<u8>, Fail> {
    let mut bytes = Vec::new(alloc);
    for (place, part) in named(column).split('\'').enumerate() {
        if place % 2 == 0 {
            push_groups(&mut bytes, part)?;
        } else {
            push_text(&mut bytes, part)?;
        }
    }
    Ok(bytes)
}

// A text, in which \n stands for the end of a line.
fn push_text(bytes: &mut Vec<u8>, text: &str) -> Result<(), Fail> {
    for (place, line) in text.split("\\n").enumerate() {
        if place > 0 {
            bytes.push(b'\n')?;
        }
        bytes.extend_from_slice(line.as_bytes())?;
    }
    Ok(())
}

// Groups with blanks between them.
fn push_groups(bytes: &mut Vec<u8>, groups: &str) -> Result<(), Fail> {
    for group in groups.split_whitespace() {
        match group.split_once('*') {
            Some((byte, times)) => push_repeated(bytes, byte, times)?,
            None => push_hex(bytes, group)?,
        }
    }
    Ok(())
}

// A byte, and how often it stands there.
fn push_repeated(bytes: &mut Vec<u8>, byte: &str, times: &str) -> Result<(), Fail> {
    let byte = u8::from_str_radix(byte, 16).map_err(|_| "a repeat has one byte")?;
    let times: usize = times.parse().map_err(|_| "a repeat has a count")?;
    bytes.resize(bytes.len().saturating_add(times), byte)?;
    Ok(())
}

fn push_hex(bytes: &mut Vec<u8>, group: &str) -> Result<(), Fail> {
    let (pairs, rest) = group.as_bytes().as_chunks::<2>();
    if !rest.is_empty() {
        return Err(Fail::from("an odd count of hex digits"));
    }
    for pair in pairs {
        bytes.push(byte_of(pair).ok_or("a sign that is no hex digit")?)?;
    }
    Ok(())
}

fn byte_of(pair: &[u8; 2]) -> Option<u8> {
    let high = char::from(pair[0]).to_digit(16)?;
    let low = char::from(pair[1]).to_digit(16)?;
    u8::try_from(high.saturating_mul(16).saturating_add(low)).ok()
}
