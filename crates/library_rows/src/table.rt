//! What the tables of the tests are read with.
use std::alloc::Global;
use std::test::Fail;

/// The bytes that hex digits spell. Blanks may stand between two bytes.
pub(crate) fn bytes_of(alloc: Global, hex: &str) -> Result<Vec<u8>, Fail> {
    let mut bytes = Vec::new(alloc);
    for group in hex.split_whitespace() {
        let (pairs, rest) = group.as_bytes().as_chunks::<2>();
        if !rest.is_empty() {
            return Err(Fail::from("an odd count of hex digits"));
        }
        for pair in pairs {
            bytes.push(byte_of(pair).ok_or("a sign that is no hex digit")?)?;
        }
    }
    Ok(bytes)
}

fn byte_of(pair: &[u8; 2]) -> Option<u8> {
    let high = char::from(pair[0]).to_digit(16)?;
    let low = char::from(pair[1]).to_digit(16)?;
    u8::try_from(high.saturating_mul(16).saturating_add(low)).ok()
}
