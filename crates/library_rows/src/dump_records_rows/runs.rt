//! Runs of a job that writes the packets of a capture and refuses it where it goes wrong or is cut.
ghost use Rattle.dump_records.specs.Sample.{packets};

use super::front_of;
use crate::table::bytes_of;
use dump_records::{DumpForm, Found, Item};
use job_loop::{InputEnd, JobStop, Lent, RecordJob, run_job};
use opus_io::{MemorySink, MemorySource, Sink, write_all};
use rec_store::StoreFault;
use std::alloc::Global;
use std::test::Fail;

#[derive(Drop)]
struct Packets;

impl RecordJob<Item, StoreFault> for Packets {
    type Refusal = StoreFault;

    ghost Kept = { Unit {0} };

    ghost meaning = { λ _. packets };

    ghost stands = { λ _ _. Unit {0} };

    ghost lacks = { λ _. ⊥ };

    fn opening(&self) -> &[u8] {
        &[]
    }

    fn take<O: Sink>(
        &mut self,
        item: &Lent<'_, Item>,
        out: &mut O,
    ) -> Result<(), JobStop<StoreFault>> {
        match item.item().found {
            Found::Record(_) => {
                write_all(out, item.bytes())?;
                Ok(())
            }
            Found::Bad(fault) => Err(JobStop::Refused(fault)),
        }
    }

    fn finish<O: Sink>(
        &mut self,
        end: &InputEnd<StoreFault>,
        _: &mut O,
    ) -> Result<(), JobStop<StoreFault>> {
        match end {
            InputEnd::Cut(fault) => Err(JobStop::Refused(*fault)),
            _ => Ok(()),
        }
    }
}

// The front of an input, how many of its bytes count, what stands behind them, and how many sevens at the end; the steps
// of its source, and the read that fails; how the job ends, and how many bytes it wrote.
//
// The reads that fail lie behind the byte that decides the fault, which is answered though the input goes on. The last
// record, of 65,535 bytes, is the longest, and is kept in pieces.
const ROWS: &str = "\
CAPTURE | 206 |  | 0 = 1 3 4096 = Ok 107
CAPTURE | 205 |  | 0 = 1 3 4096 = Refused(StoreCut(205)) 93
'#!Atpplay1.0 /' | 14 | 0A | 0 = 1 failing 4 = Refused(DumpLine(2)) 0
OPENING | 30 | 0007 0000 00000000 | 0 = 1 failing 33 = Refused(DumpLength(30)) 0
OPENING | 30 | FFFF FFF7 00000000 | 65527 = 1000 4096 = Ok 65527
";

// The bytes of the first two columns.
fn front_and_length(alloc: Global, columns: &str) -> Result<Vec<u8>, Fail> {
    let (front, count) = columns.split_once(" | ").ok_or("a front has a length")?;
    let mut input = front_of(alloc, front)?;
    let count = count.parse::<usize>()?;
    if count > input.len() {
        return Err("a front is no longer".into());
    }
    input.truncate(count);
    Ok(input)
}

fn input_of(alloc: Global, columns: &str) -> Result<Vec<u8>, Fail> {
    let (columns, sevens) = columns.rsplit_once(" | ").ok_or("an input has sevens")?;
    let (columns, behind) = columns.rsplit_once(" | ").ok_or("an input has a front")?;
    let mut input = front_and_length(alloc, columns)?;
    input.extend_from_slice(&bytes_of(alloc, behind)?)?;
    for _ in 0..sevens.parse::<usize>()? {
        input.push(7)?;
    }
    Ok(input)
}

// The numbers of the reads that fail.
fn failing_of(alloc: Global, column: &str) -> Result<Vec<u64>, Fail> {
    let mut reads = Vec::new(alloc);
    for read in column.split_whitespace() {
        reads.push(read.parse::<u64>()?)?;
    }
    Ok(reads)
}

fn ends_so(
    alloc: Global,
    input: &[u8],
    step: usize,
    failing: &[u64],
    want: &str,
) -> Result<bool, Fail> {
    let mut source = MemorySource::new(alloc, input, step.max(1), failing)?;
    let mut sink = MemorySink::new(alloc, 4096, &[])?;
    let form = DumpForm::new(alloc)?;
    let end = run_job(alloc, 100_000, form, &mut Packets, &mut source, &mut sink);
    let told = format!(in alloc; "{end:?} {}", sink.contents().len())?;
    Ok(told.as_str() == want)
}

// Runs over the input from a source with each of these steps end so.
fn all_end_so(alloc: Global, input: &[u8], source: &str, want: &str) -> Result<bool, Fail> {
    let (steps, failing) = source.split_once(" failing ").unwrap_or((source, ""));
    let failing = failing_of(alloc, failing)?;
    let mut all = !steps.is_empty();
    for step in steps.split_whitespace() {
        all = all && ends_so(alloc, input, step.parse::<usize>()?, &failing, want)?;
    }
    Ok(all)
}

fn is_run(alloc: Global, row: &str) -> Result<bool, Fail> {
    let (input, rest) = row.split_once(" = ").ok_or("a row has an input")?;
    let (source, want) = rest.split_once(" = ").ok_or("a row has an end")?;
    all_end_so(alloc, &input_of(alloc, input)?, source, want)
}

#[test]
fn a_run_writes_the_packets(rt: HostRuntime) -> Result<(), Fail> {
    for row in ROWS.lines() {
        assert!(rt; is_run(rt.alloc(), row)?, "{row}");
    }
    Ok(())
}
