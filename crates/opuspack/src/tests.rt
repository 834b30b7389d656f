//! The worked cases of the program, as tables. Each row runs with sources of several steps.
ghost use Rattle.std.specs.Prelude.{◌≤◌};

use crate::run::{max_input, run};
use crate::status::Status;
use opus_io::{MemorySink, MemorySource, Source};
use std::alloc::Global;
use std::test::Fail;
use table::{bytes_of, columns, is_row};

mod capture;
mod check;
mod cuts;
mod frames;
mod head;
mod lines;
mod long;
mod make;
mod merge;
mod norm;
mod outside;
mod pad;
mod send;
mod split;
mod streams;
mod table;
mod trial;
mod words;

/// A run: its words with a blank between them, its input, its output, and its note without the program's name; none
/// where the run ends well.
pub(crate) type Row<'a> = (&'a str, &'a [u8], &'a [u8], &'a str);

// The words of a run that reads nothing, and its whole output.
type Made<'a> = (&'a str, &'a [u8]);

/// What surrounds a run: the limit, the most bytes of a read, and the reads that fail; the most bytes of a write, and
/// the writes that fail.
#[derive(Clone, Copy)]
pub(crate) struct Around<'a> {
    pub limit: u64,
    pub step: usize,
    pub reads: &'a [u64],
    pub room: usize,
    pub writes: &'a [u64],
}

/// Nothing fails, and a read gives at most `step` bytes.
pub(crate) fn unfailing(step: usize) -> Around<'static> {
    Around {
        limit: max_input(),
        step,
        reads: &[],
        room: 4096,
        writes: &[],
    }
}

// The note's line.
fn line_of(alloc: Global, text: &str) -> Result<Vec<u8>, Fail> {
    if text.is_empty() {
        return Ok(Vec::new(alloc));
    }
    let mut line = Vec::from_slice(alloc, b"opuspack: ")?;
    line.extend_from_slice(text.as_bytes())?;
    line.push(b'\n')?;
    Ok(line)
}

/// The words as the program is handed them.
pub(crate) fn words_of(alloc: Global, line: &str) -> Result<Vec<String>, Fail> {
    let mut words = Vec::new(alloc);
    for word in line.split(' ') {
        words.push(String::from_str(alloc, word)?)?;
    }
    Ok(words)
}

// The status that goes with a note.
fn status_with(note: &str) -> Status {
    match note {
        "" => Status::Ok,
        "read fault" => Status::ReadFault,
        "write fault" => Status::WriteFault,
        "input limit" => Status::InputLimit,
        _ if note.starts_with("usage: ") => Status::Usage,
        _ => Status::Refused,
    }
}

/// Whether a run over `source` that is surrounded so ends as its row says.
pub(crate) fn is_met_over<S: Source>(
    alloc: Global,
    source: &mut S,
    around: &Around<'_>,
    row: &Row<'_>,
) -> Result<bool, Fail> {
    if around.limit == 0 || around.limit > max_input() || around.room == 0 {
        return Ok(false);
    }
    let words = words_of(alloc, row.0)?;
    let line = line_of(alloc, row.3)?;
    let mut out = MemorySink::new(alloc, around.room, around.writes).map_err(|_| "memory")?;
    let mut told = MemorySink::new(alloc, 4096, &[]).map_err(|_| "memory")?;
    let words = words.as_slice();
    let status = run(alloc, words, around.limit, source, &mut out, &mut told);
    let written = out.contents() == row.2 && told.contents() == line.as_slice();
    Ok(written && status == status_with(row.3))
}

/// Whether a run over its input that is surrounded so ends as its row says.
pub(crate) fn is_met_in(alloc: Global, around: &Around<'_>, row: &Row<'_>) -> Result<bool, Fail> {
    if around.step == 0 {
        return Ok(false);
    }
    let mut source = MemorySource::new(alloc, row.1, around.step, around.reads).map_err(
        |_| "memory",
    )?;
    is_met_over(alloc, &mut source, around, row)
}

/// Whether a run ends as its row says with reads of one byte, of three and of 4,096.
pub(crate) fn is_met(alloc: Global, row: &Row<'_>) -> Result<bool, Fail> {
    for step in [1, 3, 4096] {
        if !is_met_in(alloc, &unfailing(step), row)? {
            return Ok(false);
        }
    }
    Ok(true)
}

// Whether the write behind so many bytes, which fails, leaves these bytes.
fn is_write_met(alloc: Global, row: &Row<'_>, written: usize) -> Result<bool, Fail> {
    let Some(front) = row.2.get(..written) else {
        return Ok(false);
    };
    let around = Around {
        room: 1,
        writes: &[(written as u64).saturating_add(1)],
        ..unfailing(1)
    };
    is_met_in(alloc, &around, &(row.0, row.1, front, "write fault"))
}

/// Whether each write that fails leaves the bytes before it.
pub(crate) fn all_writes_met(
    alloc: Global,
    words: &str,
    input: &[u8],
    output: &[u8],
) -> Result<bool, Fail> {
    for written in 0..output.len() {
        if !is_write_met(alloc, &(words, input, output, ""), written)? {
            return Ok(false);
        }
    }
    Ok(true)
}

// Whether the output is made, and each write that fails leaves the bytes before it. No byte is read: the first read
// would fail, and the input is longer than the limit.
fn is_made(alloc: Global, row: &Made<'_>) -> Result<bool, Fail> {
    let around = Around {
        limit: 1,
        reads: &[1],
        ..unfailing(1)
    };
    let unread = is_met_in(alloc, &around, &(row.0, b"input", row.1, ""))?;
    Ok(unread && all_writes_met(alloc, row.0, b"", row.1)?)
}

// The tables whose rows have the words of a run, its input, its output and its note.
const RUNS: &[&str] = &[
    norm::ROWS,
    merge::ROWS,
    split::ROWS,
    pad::ROWS,
    check::ROWS,
    streams::ROWS,
    send::ROWS,
    lines::ROWS,
    head::ROWS,
    words::ROWS,
];

fn is_run_met(alloc: Global, line: &str) -> Result<bool, Fail> {
    let columns = columns(alloc, line)?;
    let [words, input, output, note] = columns.as_slice() else {
        return Err(Fail::from("a run has four columns"));
    };
    let input = bytes_of(alloc, input)?;
    let output = bytes_of(alloc, output)?;
    is_met(alloc, &(*words, input.as_slice(), output.as_slice(), *note))
}

#[test]
fn runs_end_as_their_rows_say(rt: HostRuntime) -> Result<(), Fail> {
    for table in RUNS {
        for row in table.lines().filter(|line| is_row(line)) {
            assert!(rt; is_run_met(rt.alloc(), row)?, "{row}");
        }
    }
    Ok(())
}

// The tables whose rows have the words of a run that reads nothing, and its output.
const MADE: &[&str] = &[make::ROWS, trial::ROWS];

fn is_line_made(alloc: Global, line: &str) -> Result<bool, Fail> {
    let columns = columns(alloc, line)?;
    let [words, output] = columns.as_slice() else {
        return Err(Fail::from("such a run has two columns"));
    };
    let output = bytes_of(alloc, output)?;
    is_made(alloc, &(*words, output.as_slice()))
}

#[test]
fn make_and_trial_write_what_their_rows_say(rt: HostRuntime) -> Result<(), Fail> {
    for table in MADE {
        for row in table.lines().filter(|line| is_row(line)) {
            assert!(rt; is_line_made(rt.alloc(), row)?, "{row}");
        }
    }
    Ok(())
}
