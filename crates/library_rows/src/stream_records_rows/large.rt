//! Many streams, and much padding.

use super::{DROP, MOST, STEPS, feed_all, padding_of, tell_held};
use job_loop::Form;
use pack_records::Cut;
use std::alloc::{AllocError, Global};
use std::test::Fail;
use stream_records::{RawStreams, StreamsItem};

// The end of the input, and no byte before, decides its record, which holds this, and with which these bytes are lent.
fn has<F: Form<Record = StreamsItem, Cut = Cut>>(
    alloc: Global,
    form: &mut F,
    input: &[u8],
    step: usize,
    held: &str,
    bytes: &[u8],
) -> Result<bool, Fail> {
    let mut told = String::new(alloc);
    feed_all(form, input, step, &mut told)?;
    if !form.end((input.len() as u64).min(MOST)).whole {
        return Ok(false);
    }
    let lent = form.record(&[]);
    tell_held(&mut told, lent.item())?;
    Ok(told.as_str() == held && lent.bytes() == bytes)
}

// 254 empty self-delimited packets and one undelimited packet of one byte.
fn of_255_streams(alloc: Global) -> Result<Vec<u8>, AllocError> {
    let mut bytes = Vec::new(alloc);
    for _ in 0..254 {
        bytes.extend_from_slice(&[0xF8, 0])?;
    }
    bytes.push(0xF8)?;
    Ok(bytes)
}

// What is told of 255 such streams.
fn held_of_255_streams(alloc: Global) -> Result<String, AllocError> {
    let mut held = String::from_str(alloc, "Packets")?;
    for _ in 0..254 {
        held.push_str(" (0, 0, 2, 0)")?;
    }
    held.push_str(" (0, 0, 1, 0)")?;
    Ok(held)
}

fn are_255(alloc: Global, step: usize) -> Result<bool, Fail> {
    let bytes = of_255_streams(alloc)?;
    let held = held_of_255_streams(alloc)?;
    let mut form = RawStreams::new(alloc, 255, DROP)?;
    has(alloc, &mut form, &bytes, step, held.as_str(), &bytes)
}

#[test]
fn reads_255_streams(rt: HostRuntime) -> Result<(), Fail> {
    for step in STEPS {
        assert!(rt; are_255(rt.alloc(), step)?, "{step}");
    }
    Ok(())
}

// The padding bytes of the first of two streams beyond 65,532, and what becomes of them; how the streams are spelled; and
// the bytes lent, which are the input's or those of the canonical form.
const PADDINGS: &str = "\
3 keep | Packets (3, 65794, 65798, 0) (0, 0, 2, 0) | input
3 drop | Packets (3, 65794, 65798, 65535) (0, 0, 2, 0) | canonical
4 keep | Packets (3, 65795, 65799, 65536) (0, 0, 2, 0) | canonical
";

// Two streams, the first with 65,532 padding bytes and `last` others.
fn padded(alloc: Global, last: u8) -> Result<Vec<u8>, AllocError> {
    let mut bytes = Vec::new(alloc);
    bytes.extend_from_slice(&[0xFB, 0x41])?;
    bytes.resize(2 + 258, 255)?;
    bytes.extend_from_slice(&[last, 1, 0xAA])?;
    bytes.resize(2 + 258 + 3 + 65532 + usize::from(last), 0)?;
    bytes.extend_from_slice(&[0xF8, 0xBB])?;
    Ok(bytes)
}

// The form holds this of the input, and lends the bytes that the word `lent` names.
fn holds(
    alloc: Global,
    form: &mut RawStreams,
    input: &[u8],
    step: usize,
    held: &str,
    lent: &str,
) -> Result<bool, Fail> {
    match lent {
        "input" => has(alloc, form, input, step, held, input),
        "canonical" => has(alloc, form, input, step, held, b"\xF8\x01\xAA\xF8\xBB"),
        _ => Err("the bytes lent have a name".into()),
    }
}

fn is_kept(alloc: Global, row: &str, step: usize) -> Result<bool, Fail> {
    let (choices, rest) = row.split_once(" | ").ok_or("a row has choices")?;
    let (last, padding) = choices.split_once(' ').ok_or("there are two choices")?;
    let (held, lent) = rest.split_once(" | ").ok_or("a row says what is wanted")?;
    let input = padded(alloc, last.parse::<u8>()?)?;
    let mut form = RawStreams::new(alloc, 2, padding_of(padding)?)?;
    holds(alloc, &mut form, &input, step, held, lent)
}

#[test]
fn padding_bytes_are_kept_up_to_65535(rt: HostRuntime) -> Result<(), Fail> {
    for row in PADDINGS.lines() {
        for step in STEPS {
            assert!(rt; is_kept(rt.alloc(), row, step)?, "{row} by {step}");
        }
    }
    Ok(())
}
