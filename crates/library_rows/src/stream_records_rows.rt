//! What each form says of rows of inputs, in pieces of several sizes.

mod large;
mod raw;
mod runs;
mod stores;

use crate::table::bytes_of;
use job_loop::Form;
use opus_feed::Padding;
use opus_packet::Shape;
use pack_records::Cut;
use std::alloc::Global;
use std::test::Fail;
use stream_records::{Spelling, StreamsItem};

// The sizes of the pieces in which an input is fed.
const STEPS: [usize; 3] = [1, 3, 4096];

// No input here has more bytes.
const MOST: u64 = 1 << 20;

const DROP: Padding = Padding::Drop;

// How many streams an input has, what becomes of padding bytes, and its bytes.
#[derive(Drop)]
struct Input {
    streams: u8,
    padding: Padding,
    bytes: Vec<u8>,
}

fn padding_of(word: &str) -> Result<Padding, Fail> {
    match word {
        "drop" => Ok(Padding::Drop),
        "keep" => Ok(Padding::Keep),
        _ => Err("padding is dropped or kept".into()),
    }
}

fn input_of(alloc: Global, columns: &str) -> Result<Input, Fail> {
    let (choices, hex) = columns.split_once(" | ").ok_or("an input has bytes")?;
    let (streams, padding) = choices.split_once(' ').ok_or("there are two choices")?;
    Ok(Input {
        streams: streams.parse::<u8>()?,
        padding: padding_of(padding)?,
        bytes: bytes_of(alloc, hex)?,
    })
}

// Writes what a record holds and how each stream is spelled: code, padding total, size, padding bytes that aren't kept.
fn tell_held(told: &mut String, item: &StreamsItem) -> Result<(), Fail> {
    write!(told, "{:?}", item.found)?;
    for stream in item.streams.as_slice() {
        let Shape { code, pad, .. } = stream.shape;
        let Spelling { size, dropped, .. } = *stream;
        write!(told, " ({code}, {pad}, {size}, {dropped})")?;
    }
    Ok(())
}

// Writes a record: where it starts and is decided, its range, what it holds, and the bytes lent with it.
fn tell(told: &mut String, item: &StreamsItem, bytes: &[u8]) -> Result<(), Fail> {
    write!(told, "{} {} {} ", item.start, item.place, item.range)?;
    tell_held(told, item)?;
    for byte in bytes {
        write!(told, " {byte:02X}")?;
    }
    told.push_str("; ")?;
    Ok(())
}

// Feeds a piece behind `at` bytes, and writes the record that it decides. How many bytes the form took.
fn feed<F: Form<Record = StreamsItem, Cut = Cut>>(
    form: &mut F,
    at: u64,
    piece: &[u8],
    told: &mut String,
) -> Result<usize, Fail> {
    if piece.is_empty() || piece.len() > 4096 || at > MOST {
        return Err("no piece is so long or so far behind".into());
    }
    let fed = form.feed(at, piece)?;
    if fed.whole {
        let lent = form.record(&piece[..fed.count]);
        tell(told, lent.item(), lent.bytes())?;
    }
    Ok(fed.count)
}

// Feeds the input in pieces of `step` bytes, and writes the records that they decide.
fn feed_all<F: Form<Record = StreamsItem, Cut = Cut>>(
    form: &mut F,
    input: &[u8],
    step: usize,
    told: &mut String,
) -> Result<(), Fail> {
    let mut rest = input;
    let mut at: u64 = 0;
    for _ in 0..input.len() {
        if !rest.is_empty() {
            let count = feed(form, at, rest.get(..step).unwrap_or(rest), told)?;
            at = at.saturating_add(count as u64);
            rest = rest.get(count..).unwrap_or(&[]);
        }
    }
    if rest.is_empty() {
        Ok(())
    } else {
        Err("a form takes all of its input".into())
    }
}

// Writes the record that the end of an input of `count` bytes decides, and how it is cut, if it is.
fn tell_end<F: Form<Record = StreamsItem, Cut = Cut>>(
    form: &mut F,
    count: usize,
    told: &mut String,
) -> Result<(), Fail> {
    let close = form.end((count as u64).min(MOST));
    if close.whole {
        let lent = form.record(&[]);
        tell(told, lent.item(), lent.bytes())?;
    }
    match close.cut {
        Some(cut) => write!(told, "cut at {}", cut.place)?,
        None => told.push_str("whole")?,
    }
    Ok(())
}

// The form says this of the input in pieces of `step` bytes.
fn says<F: Form<Record = StreamsItem, Cut = Cut>>(
    alloc: Global,
    form: &mut F,
    input: &[u8],
    step: usize,
    want: &str,
) -> Result<bool, Fail> {
    let mut told = String::new(alloc);
    feed_all(form, input, step, &mut told)?;
    tell_end(form, input.len(), &mut told)?;
    Ok(told.as_str() == want)
}
