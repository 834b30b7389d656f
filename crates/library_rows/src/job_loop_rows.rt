//! Two small forms and three small jobs, and runs of jobs over forms.

mod count;
mod length_form;
mod payloads;
mod repeats;
mod size_form;

use count::Count;
use job_loop::{Ending, run_job};
use length_form::LengthForm;
use opus_io::{MemorySink, MemorySource, NoMemory};
use payloads::Payloads;
use repeats::Repeats;
use size_form::SizeForm;
use std::alloc::Global;
use std::test::Fail;

// The sizes of the pieces in which an input is read and a text is written.
const STEPS: [usize; 3] = [1, 3, 4096];

fn sink_of(alloc: Global, step: usize, fails: &[u64]) -> Result<MemorySink, NoMemory> {
    MemorySink::new(alloc, step.max(1), fails)
}

// The job that writes over the form of lengths. The reads and writes whose numbers are given fail.
fn write_payloads(
    alloc: Global,
    input: &[u8],
    limit: u64,
    step: usize,
    reads: &[u64],
    sink: &mut MemorySink,
) -> Result<Ending<bool>, Fail> {
    let mut source = MemorySource::new(alloc, input, step.max(1), reads)?;
    let limit = limit.clamp(1, 1 << 40);
    let form = LengthForm::new();
    Ok(run_job(alloc, limit, form, &mut Payloads, &mut source, sink))
}

// An input, a limit, and how the job that writes ends over the form of lengths, with all that it wrote.
type Row = (&'static [u8], u64, Ending<bool>, &'static [u8]);

const ROWS: &[Row] = &[
    (b"", 9, Ending::Ok, b"#."),
    (b"\x01a\x02bc", 9, Ending::Ok, b"#:a:bc."),
    (b"\x01a\x02bc", 5, Ending::Ok, b"#:a:bc."),
    (b"\x01a\x02bc", 4, Ending::InputLimit, b"#:a."),
    (b"\x01a\x02bc", 2, Ending::InputLimit, b"#:a."),
    (b"\x01a\x02b", 9, Ending::Refused(true), b"#:a"),
    (b"\x01a\x02", 9, Ending::Refused(true), b"#:a"),
    (b"\x01a\x00\x01b", 9, Ending::Refused(false), b"#:a"),
    (b"\x01a\x00\x01b", 3, Ending::Refused(false), b"#:a"),
    (b"\x01a\x00\x01b", 2, Ending::InputLimit, b"#:a."),
];

fn is_written(alloc: Global, row: &Row, step: usize) -> Result<bool, Fail> {
    let mut sink = sink_of(alloc, step, &[])?;
    let end = write_payloads(alloc, row.0, row.1, step, &[], &mut sink)?;
    Ok(end == row.2 && sink.contents() == row.3)
}

#[test]
fn what_bytes_decide_is_written_and_nothing_else(rt: HostRuntime) -> Result<(), Fail> {
    for row in ROWS {
        for step in STEPS {
            assert!(rt;
                is_written(rt.alloc(), row, step)?,
                "{row:?} in steps of {step}"
            );
        }
    }
    Ok(())
}

// The number of the read or the write that fails, and what was written. Of the former a read asks for one byte,
// and of the latter a write takes one.
const READS: &[(u64, &[u8])] = &[
    (1, b"#"),
    (2, b"#"),
    (3, b"#:a"),
    (4, b"#:a"),
    (5, b"#:a"),
    (6, b"#:a:bc"),
];

const WRITES: &[(u64, &[u8])] = &[
    (1, b""),
    (2, b"#"),
    (3, b"#:"),
    (4, b"#:a"),
    (5, b"#:a:"),
    (6, b"#:a:b"),
    (7, b"#:a:bc"),
];

fn is_read_fault(alloc: Global, row: &(u64, &[u8])) -> Result<bool, Fail> {
    let mut sink = sink_of(alloc, 4096, &[])?;
    let end = write_payloads(alloc, b"\x01a\x02bc", 9, 1, &[row.0], &mut sink)?;
    Ok(end == Ending::ReadFault && sink.contents() == row.1)
}

fn is_write_fault(alloc: Global, row: &(u64, &[u8])) -> Result<bool, Fail> {
    let mut sink = sink_of(alloc, 1, &[row.0])?;
    let end = write_payloads(alloc, b"\x01a\x02bc", 9, 1, &[], &mut sink)?;
    Ok(end == Ending::WriteFault && sink.contents() == row.1)
}

#[test]
fn each_read_and_each_write_fails_in_turn(rt: HostRuntime) -> Result<(), Fail> {
    for row in READS {
        assert!(rt; is_read_fault(rt.alloc(), row)?, "{row:?}");
    }
    for row in WRITES {
        assert!(rt; is_write_fault(rt.alloc(), row)?, "{row:?}");
    }
    Ok(())
}

const INPUT: &[u8] = b"\x01a\x02bc\x00";

fn counts_lengths(alloc: Global, step: usize) -> Result<bool, Fail> {
    let mut source = MemorySource::new(alloc, INPUT, step.max(1), &[])?;
    let mut sink = sink_of(alloc, step, &[])?;
    let form = LengthForm::new();
    let end = run_job(alloc, 9, form, &mut Count::new(), &mut source, &mut sink);
    Ok(end == Ending::Ok && sink.contents() == [3].as_slice())
}

fn counts_sizes(alloc: Global, step: usize) -> Result<bool, Fail> {
    let mut source = MemorySource::new(alloc, INPUT, step.max(1), &[])?;
    let mut sink = sink_of(alloc, step, &[])?;
    let form = SizeForm::new();
    let end = run_job(alloc, 9, form, &mut Count::new(), &mut source, &mut sink);
    Ok(end == Ending::Ok && sink.contents() == [1].as_slice())
}

fn refuses_sizes(alloc: Global, step: usize) -> Result<bool, Fail> {
    let mut source = MemorySource::new(alloc, INPUT, step.max(1), &[])?;
    let mut sink = sink_of(alloc, step, &[])?;
    let form = SizeForm::new();
    let end = run_job(alloc, 9, form, &mut Payloads, &mut source, &mut sink);
    Ok(end == Ending::Refused(false) && sink.contents() == b"#".as_slice())
}

#[test]
fn each_job_runs_over_each_form(rt: HostRuntime) -> Result<(), Fail> {
    for step in STEPS {
        assert!(rt; counts_lengths(rt.alloc(), step)?, "{step}");
        assert!(rt; counts_sizes(rt.alloc(), step)?, "{step}");
        assert!(rt; refuses_sizes(rt.alloc(), step)?, "{step}");
    }
    Ok(())
}

// Two hundred records of two hundred bytes, and what is written of them.
fn long(alloc: Global, before: &[u8], mark: u8) -> Result<Vec<u8>, Fail> {
    let mut bytes = Vec::from_slice(alloc, before)?;
    for number in 0..200u8 {
        bytes.push(mark)?;
        for _ in 0..200 {
            bytes.push(number)?;
        }
    }
    Ok(bytes)
}

fn is_whole(alloc: Global, step: usize) -> Result<bool, Fail> {
    let input = long(alloc, b"", 200)?;
    let mut text = long(alloc, b"#", b':')?;
    text.push(b'.')?;
    let mut sink = sink_of(alloc, step, &[])?;
    let end = write_payloads(alloc, &input, 100_000, 4096, &[], &mut sink)?;
    Ok(end == Ending::Ok && sink.contents() == text.as_slice())
}

// A run that writes 9,000 bytes for each of two records and at the end.
fn write_repeats(alloc: Global, sink: &mut MemorySink) -> Result<Ending<bool>, Fail> {
    let mut source = MemorySource::new(alloc, b"\x01a\x01b", 4096, &[])?;
    let mut text = Vec::new(alloc);
    text.resize(9000, b'x')?;
    let mut job = Repeats { text };
    Ok(run_job(alloc, 9, LengthForm::new(), &mut job, &mut source, sink))
}

// Nine writes are needed. Whether the sink holds the same where this one fails and the next would be taken, and where
// the four behind it fail as well.
fn stops_at(alloc: Global, first: u64) -> Result<bool, Fail> {
    let mut once = sink_of(alloc, 4096, &[first])?;
    let mut always = sink_of(
        alloc,
        4096,
        &[0, 1, 2, 3, 4].map(|more| first.saturating_add(more)),
    )?;
    Ok(
        write_repeats(alloc, &mut once)? == Ending::WriteFault
            && write_repeats(alloc, &mut always)? == Ending::WriteFault
            && once.contents() == always.contents(),
    )
}

#[test]
fn long_texts_are_written_up_to_the_first_fault(rt: HostRuntime) -> Result<(), Fail> {
    for step in [1000, 4096] {
        assert!(rt; is_whole(rt.alloc(), step)?, "{step}");
    }
    for first in 1..10 {
        assert!(rt; stops_at(rt.alloc(), first)?, "{first}");
    }
    Ok(())
}
