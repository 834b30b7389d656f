//! Long inputs and limits.
use super::table::{bytes_of, columns, is_row};
use super::{Around, is_met_in, unfailing};
use std::alloc::Global;
use std::test::Fail;

// Words, the limit, of 2^40 at most, the most bytes of each read, the input, the output, and the note.
const ROWS: &str = r"
# The longest frame, and one that is longer.
norm | 1099511627776 | 4096 | f8 00*1275 | f8 00*1275 |
norm | 1099511627776 | 4096 | f8 00*1276 | | refused: record 0 at 1276: R2 at 1276
# Limits.
norm | 64 | 4096 | f8 00*64 | | input limit
norm | 65 | 4096 | f8 00*64 | f8 00*64 |
# A store of two packets, of which the limit cuts the second one.
send | 17 | 4096 | 00000001 00000000 f8 00000001 00000000 f8 | '#!rtpplay1.0 0.0.0.0/0\n' 00*16 0015 000d 00000000 8060 0000 00000000 00000000 f8 | input limit
# The faults of a head are decided by its end: where it doesn't end within the limit, nothing is told.
head | 18 | 1 3 4096 | 'OpusHead' 01 02 3801 80bb0000 0000 00 | | input limit
head | 1 | 1 3 4096 | 'OpusHead' 01 02 3801 80bb0000 0000 00 | | input limit
head | 7 | 1 3 4096 | 'OpusTags' | | input limit
head | 1 | 1 3 4096 | 0000 | | input limit
# Padding of any length is dropped.
norm | 1099511627776 | 4096 | fb41feaa 00*254 | f8aa |
norm | 1099511627776 | 4096 | fb41ff00aa 00*254 | f8aa |
norm | 1099511627776 | 4096 | fb41 ff*65793 | | refused: record 0 at 65794: PadLimit at 65794
norm | 1099511627776 | 4096 | fb41 ff*65792 feaa 00*16711422 | f8aa |
# Padding up to 65,535 bytes is kept.
norm --padding keep | 1099511627776 | 4096 | fb41ff00aa 00*254 | fb41feaa 00*254 |
norm --padding keep | 1099511627776 | 4096 | fb41 ff*258 03aa 00*65535 | fb41 ff*258 03aa 00*65535 |
norm --padding keep | 1099511627776 | 4096 | fb41 ff*258 04aa 00*65536 | | refused: record 0 at 65798: padding long
";

fn is_told(alloc: Global, line: &str) -> Result<bool, Fail> {
    let columns = columns(alloc, line)?;
    let [words, limit, steps, input, output, note] = columns.as_slice() else {
        return Err(Fail::from("a long run has six columns"));
    };
    let limit = limit.parse().map_err(|_| "a limit is a number")?;
    let input = bytes_of(alloc, input)?;
    let output = bytes_of(alloc, output)?;
    let run = (*words, input.as_slice(), output.as_slice(), *note);
    for step in steps.split(' ') {
        let step = step.parse().map_err(|_| "a step is a number")?;
        let around = Around {
            limit,
            ..unfailing(step)
        };
        if !is_met_in(alloc, &around, &run)? {
            return Ok(false);
        }
    }
    Ok(true)
}

#[test]
fn knows_long_packets_and_the_limit(rt: HostRuntime) -> Result<(), Fail> {
    for row in ROWS.lines().filter(|line| is_row(line)) {
        assert!(rt; is_told(rt.alloc(), row)?, "{row}");
    }
    Ok(())
}
