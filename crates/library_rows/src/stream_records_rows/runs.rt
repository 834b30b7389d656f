//! Runs of a job that writes the bytes of each record, so that it gives the packets of its input in their kept forms.
use super::{DROP, STEPS};
use crate::pack_records_rows::Texts;
use crate::table::bytes_of;
use job_loop::{Ending, run_job};
use opus_io::{MemorySink, MemorySource};
use std::alloc::Global;
use std::test::Fail;
use stream_records::{DemoStreams, RawStreams};

// Whether an input is one packet or a store; the input; and what the run writes.
const ROWS: &str = "\
packet | FB410101AA00 FB01BB | F801AA F8BB
store | 00000009 00000001 FB410101AA00 FB01BB 00000000 00000003 00000005 00000002 F801AA F8CC \
| F801AA F8BB F801AA F8CC
";

fn run_packet(
    alloc: Global,
    source: &mut MemorySource,
    sink: &mut MemorySink,
) -> Result<Ending<bool>, Fail> {
    let form = RawStreams::new(alloc, 2, DROP)?;
    Ok(run_job(alloc, 9, form, &mut Texts, source, sink))
}

fn run_store(
    alloc: Global,
    source: &mut MemorySource,
    sink: &mut MemorySink,
) -> Result<Ending<bool>, Fail> {
    let form = DemoStreams::new(alloc, 2, DROP)?;
    Ok(run_job(alloc, 38, form, &mut Texts, source, sink))
}

// A run over the input in pieces of `step` bytes ends well, and writes these bytes.
fn writes(alloc: Global, form: &str, input: &[u8], step: usize, want: &[u8]) -> Result<bool, Fail> {
    let mut source = MemorySource::new(alloc, input, step.max(1), &[])?;
    let mut sink = MemorySink::new(alloc, step.max(1), &[])?;
    let end = match form {
        "packet" => run_packet(alloc, &mut source, &mut sink)?,
        "store" => run_store(alloc, &mut source, &mut sink)?,
        _ => return Err("an input is a packet or a store".into()),
    };
    Ok(matches!(end, Ending::Ok) && sink.contents() == want)
}

fn is_written(alloc: Global, row: &str, step: usize) -> Result<bool, Fail> {
    let (form, rest) = row.split_once(" | ").ok_or("a row has an input")?;
    let (input, want) = rest.split_once(" | ").ok_or("a row says what is wanted")?;
    let input = bytes_of(alloc, input)?;
    let want = bytes_of(alloc, want)?;
    writes(alloc, form, &input, step, &want)
}

#[test]
fn a_run_gives_the_kept_forms(rt: HostRuntime) -> Result<(), Fail> {
    for row in ROWS.lines() {
        for step in STEPS {
            assert!(rt; is_written(rt.alloc(), row, step)?, "{row} by {step}");
        }
    }
    Ok(())
}
