//! Inputs that are cut at each of their bytes.
use super::is_met;
use super::table::{bytes_of, columns};
use std::alloc::Global;
use std::test::Fail;

// Each table has words and an input in its first line. Then come the output and the note of the input that is cut behind
// no byte, behind one, behind two, .., and nowhere.
const TABLES: &[&str] = &[TWO_FRAMES, PADDED, TWO_PACKETS, TWO_STREAMS, THREE_RECORDS];

// Two frames, the first with its length.
const TWO_FRAMES: &str = r"norm | fa02aabbccdd
| refused: record 0 at 0: R1 at 0
| refused: record 0 at 1: R4 at 1
| refused: record 0 at 2: R4 at 2
| refused: record 0 at 3: R4 at 3
fa02aabb |
fa02aabbcc |
f9aabbccdd |";

// Two frames with lengths of their own, and two padding bytes.
const PADDED: &str = r"norm | fbc20201aabb0000
| refused: record 0 at 0: R1 at 0
| refused: record 0 at 1: R6 at 1
| refused: record 0 at 2: R7 at 2
| refused: record 0 at 3: R7 at 3
| refused: record 0 at 4: R7 at 4
| refused: record 0 at 5: R7 at 5
| refused: record 0 at 6: R7 at 6
fa01aa |
f9aabb |";

// Two self-delimited packets.
const TWO_PACKETS: &str = r"norm --form self | f802aabbf800
|
| refused: record 0 at 1: Cut at 1
| refused: record 0 at 2: Cut at 2
| refused: record 0 at 3: Cut at 3
f802aabb |
f802aabb | refused: record 1 at 5: Cut at 1
f802aabbf800 |";

// A packet of two streams.
const TWO_STREAMS: &str = r"norm --streams 2 | f801aaf8bb
| refused: record 0 at 0: stream 0 Cut at 0
| refused: record 0 at 1: stream 0 Cut at 1
| refused: record 0 at 2: stream 0 Cut at 2
| refused: record 0 at 3: stream 1 R1 at 0
f801aaf8 |
f801aaf8bb |";

// A store of three records.
const THREE_RECORDS: &str = r"merge | THREE
|
| refused: record 0 at 1: store cut
| refused: record 0 at 2: store cut
| refused: record 0 at 3: store cut
| refused: record 0 at 4: store cut
| refused: record 0 at 5: store cut
| refused: record 0 at 6: store cut
| refused: record 0 at 7: store cut
| refused: record 0 at 8: store cut
| refused: record 0 at 9: store cut
00000002 00000001 f8aa |
| refused: record 1 at 11: store cut
| refused: record 1 at 12: store cut
| refused: record 1 at 13: store cut
| refused: record 1 at 14: store cut
| refused: record 1 at 15: store cut
| refused: record 1 at 16: store cut
| refused: record 1 at 17: store cut
| refused: record 1 at 18: store cut
| refused: record 1 at 19: store cut
00000003 00000002 f9aabb |
| refused: record 2 at 21: store cut
| refused: record 2 at 22: store cut
| refused: record 2 at 23: store cut
| refused: record 2 at 24: store cut
| refused: record 2 at 25: store cut
| refused: record 2 at 26: store cut
| refused: record 2 at 27: store cut
| refused: record 2 at 28: store cut
| refused: record 2 at 29: store cut
00000005 00000003 fb03aabbcc |";

// Whether the front of the input ends as its line says.
fn is_cut_met(alloc: Global, words: &str, front: &[u8], line: &str) -> Result<bool, Fail> {
    let columns = columns(alloc, line)?;
    let [output, note] = columns.as_slice() else {
        return Err(Fail::from("a cut has two columns"));
    };
    let output = bytes_of(alloc, output)?;
    is_met(alloc, &(words, front, output.as_slice(), *note))
}

// The same of each length.
fn all_cuts_met(alloc: Global, table: &str) -> Result<bool, Fail> {
    let (first, cuts) = table.split_once('\n').ok_or("a table has lines")?;
    let columns = columns(alloc, first)?;
    let [words, input] = columns.as_slice() else {
        return Err(Fail::from("a table begins with two columns"));
    };
    let input = bytes_of(alloc, input)?;
    for (length, line) in cuts.lines().enumerate() {
        let front = input.get(..length).ok_or("a line too many")?;
        if !is_cut_met(alloc, words, front, line)? {
            return Ok(false);
        }
    }
    Ok(cuts.lines().count() == input.len().saturating_add(1))
}

#[test]
fn ends_by_where_the_input_is_cut(rt: HostRuntime) -> Result<(), Fail> {
    for table in TABLES {
        assert!(rt; all_cuts_met(rt.alloc(), table)?, "{table}");
    }
    Ok(())
}
