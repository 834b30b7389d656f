//! trial: made records in normal form, and their totals. The expected bytes are those of another program, made of the
//! same rule.
use super::{is_met_in, unfailing, words_of};
use crate::run::{max_input, run};
use crate::status::Status;
use opus_io::{MemorySink, MemorySource};
use std::alloc::Global;
use std::test::Fail;

pub(crate) const ROWS: &str = r"
trial --count 0 | 'records 0 lost 0 frames 0 samples 0 in 0 out 0 sum 0\n'
trial --seed 4294967295 --count=0 | 'records 0 lost 0 frames 0 samples 0 in 0 out 0 sum 0\n'
trial --seed 0 --count 1 | 00000009 00000000 800001020304050607 'records 1 lost 0 frames 1 samples 120 in 9 out 9 sum 156\n'
trial --seed 109 --count 2 | 00000000 00000000 00000000 00000001 'records 2 lost 2 frames 0 samples 0 in 0 out 0 sum 0\n'
trial --seed 1665 --count 2 | 00000000 00000000 00000003 00000001 d00001 'records 2 lost 1 frames 1 samples 480 in 7 out 3 sum 209\n'
--count 2 trial --seed=319 | 00000001 00000000 59 00000000 00000001 'records 2 lost 1 frames 2 samples 5760 in 9 out 1 sum 89\n'
trial --seed 637 --count 2 | 00000007 00000000 70000102030405 00000000 00000001 'records 2 lost 1 frames 1 samples 480 in 10 out 7 sum 127\n'
";

// The words of make and of trial, and the line.
type Total = (&'static str, &'static str, &'static str);

const TOTALS: &[Total] = &[
    (
        "make --seed 0 --count 2",
        "trial --seed 0 --count 2",
        "records 2 lost 0 frames 12 samples 5400 in 301 out 297 sum 5319\n",
    ),
    (
        "make --seed 0 --count 60",
        "trial --seed 0 --count 60",
        "records 60 lost 4 frames 266 samples 123840 in 41837 out 41738 sum 4179738\n",
    ),
    (
        "make --seed 3 --count 200",
        "trial --seed 3 --count 200",
        "records 200 lost 18 frames 869 samples 438840 in 136387 out 136064 sum 13768458\n",
    ),
];

// What a run wrote that ended well.
fn output_of(alloc: Global, words: &str, input: &[u8]) -> Result<Vec<u8>, Fail> {
    let words = words_of(alloc, words)?;
    let mut source = MemorySource::new(alloc, input, 4096, &[]).map_err(|_| "memory")?;
    let mut out = MemorySink::new(alloc, 4096, &[]).map_err(|_| "memory")?;
    let mut told = MemorySink::new(alloc, 4096, &[]).map_err(|_| "memory")?;
    let words = words.as_slice();
    match run(alloc, words, max_input(), &mut source, &mut out, &mut told) {
        Status::Ok => Ok(Vec::from_slice(alloc, out.contents())?),
        _ => Ok(Vec::new(alloc)),
    }
}

// Whether trial writes, and writes again, the bytes of norm of the store that make writes, and the line.
fn is_norm_of_make(alloc: Global, row: &Total) -> Result<bool, Fail> {
    let made = output_of(alloc, row.0, b"")?;
    let mut output = output_of(alloc, "norm --form demo", &made)?;
    output.extend_from_slice(row.2.as_bytes())?;
    for _ in 0..2 {
        let run = (row.1, b"".as_slice(), output.as_slice(), "");
        if !is_met_in(alloc, &unfailing(4096), &run)? {
            return Ok(false);
        }
    }
    Ok(true)
}

#[test]
fn trial_is_norm_of_make_with_a_line(rt: HostRuntime) -> Result<(), Fail> {
    for row in TOTALS {
        assert!(rt; is_norm_of_make(rt.alloc(), row)?, "{row:?}");
    }
    Ok(())
}
