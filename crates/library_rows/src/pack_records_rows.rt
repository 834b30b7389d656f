//! What each form says of rows of inputs, in pieces of several sizes.

mod framed;
mod lent;
mod runs;

use job_loop::{Fed, Form};
use opus_feed::{Framing, Padding};
use opus_packet::{Fault, Rule, Shape};
use pack_records::{Cut, Found, Item};
pub(crate) use runs::Texts;
use std::test::Fail;

// The sizes of the pieces in which an input is fed.
pub(crate) const STEPS: [usize; 3] = [1, 3, 4096];

// No input here has more bytes.
const MOST: u64 = 1 << 20;

// A packet's code, VBR, padding total and size; or the rule of a fault and its place from the record's first byte; or
// neither, where the packet is lost.
pub(crate) type Held = Result<(u8, bool, u32, u32), Option<(Rule, u64)>>;

// A record as it is wanted: where it starts and is decided, its range, what it holds, and the bytes lent with it.
pub(crate) type Row = (u64, u64, u32, Held, &'static [u8]);

// An input, what becomes of padding bytes, its records, and the place where it is cut.
pub(crate) type Input = (&'static [u8], Padding, &'static [Row], Option<u64>);

fn found(framing: Framing, held: Held) -> Found {
    match held {
        Ok((code, vbr, pad, size)) => Found::Packet {
            framing,
            shape: Shape { code, vbr, pad },
            size,
        },
        Err(Some((rule, place))) => Found::Bad(Fault { rule, place }),
        Err(None) => Found::Lost,
    }
}

fn is_row(item: &Item, bytes: &[u8], framing: Framing, row: Option<&Row>) -> bool {
    match row {
        Some((start, place, range, held, wanted)) => {
            let places = (item.start, item.place, item.range) == (*start, *place, *range);
            places && item.found == found(framing, *held) && bytes == *wanted
        }
        None => false,
    }
}

// Feeds a piece behind `at` bytes. What the form took, if the record that it decides is this row.
fn feeds<F: Form<Record = Item, Cut = Cut>>(
    form: &mut F,
    at: u64,
    piece: &[u8],
    framing: Framing,
    row: Option<&Row>,
) -> Result<Option<Fed>, Fail> {
    if piece.is_empty() || piece.len() > 4096 || at > MOST {
        return Ok(None);
    }
    let fed = form.feed(at, piece)?;
    if fed.whole {
        let lent = form.record(&piece[..fed.count]);
        if !is_row(lent.item(), lent.bytes(), framing, row) {
            return Ok(None);
        }
    }
    Ok(Some(fed))
}

// The end of an input of `at` bytes is this cut, and decides these records.
fn ends<F: Form<Record = Item, Cut = Cut>>(
    form: &mut F,
    at: u64,
    framing: Framing,
    rows: &[Row],
    cut: Option<u64>,
) -> bool {
    let close = form.end(at.min(MOST));
    let right = if close.whole {
        let lent = form.record(&[]);
        rows.len() == 1 && is_row(lent.item(), lent.bytes(), framing, rows.first())
    } else {
        rows.is_empty()
    };
    right && close.cut.map(|cut| cut.place) == cut
}

// The form says just these records of the input in pieces of `step` bytes, and this cut.
pub(crate) fn says<F: Form<Record = Item, Cut = Cut>>(
    form: &mut F,
    framing: Framing,
    step: usize,
    row: &Input,
) -> Result<bool, Fail> {
    let mut rest = row.0;
    let mut rows = row.2;
    let mut at: u64 = 0;
    for _ in 0..row.0.len() {
        let piece = rest.get(..step).unwrap_or(rest);
        if !piece.is_empty() {
            let Some(fed) = feeds(form, at, piece, framing, rows.first())? else {
                return Ok(false);
            };
            at = at.saturating_add(fed.count as u64);
            rest = rest.get(fed.count..).unwrap_or(&[]);
            if fed.whole {
                rows = rows.get(1..).unwrap_or(&[]);
            }
        }
    }
    Ok(rest.is_empty() && ends(form, at, framing, rows, row.3))
}
