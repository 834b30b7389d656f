//! Faults of the outside at every place: each read, each write and each write of the note fails in turn.
use super::table::{bytes_of, columns, is_row};
use super::{Around, all_writes_met, is_met_in, is_met_over, unfailing, words_of};
use crate::run::{max_input, run};
use crate::status::Status;
use opus_io::{EndlessSource, MemorySink, MemorySource};
use std::alloc::Global;
use std::test::Fail;

/// The capture of the packets of THREE.
pub(crate) const SENT: &str = r"'#!rtpplay1.0 0.0.0.0/0\n' 00*16
0016 000e 00000000 8060 0000 00000000 00000000 f8aa
0016 000e 00000014 8060 0001 000003c0 00000000 f8bb
0016 000e 00000028 8060 0002 00000780 00000000 f8cc";

// Words, an input and its whole output; then from how many bytes of the input on how many of the output stand though
// the next read fails. What the end of the input alone could change doesn't stand: a raw packet, an open group, a line
// without its newline, a head, an event that a late packet may come before.
const SETTLED: &str = r"
norm | fa02aabbccdd | f9aabbccdd |
norm --form self | f802aabbf800 | f802aabbf800 | 4:4 6:6
norm --form self | fb410102aabb00 | f802aabb | 7:4
norm --form self | f802aa | |
norm --streams 2 | fb410101aa00fb01bb | f801aaf8bb |
norm --streams 2 | f801aaf0bb | |
norm --streams 2 | f801aa | |
norm --form demo | THREE | THREE | 10:10 20:20 30:30
merge | THREE | 00000005 00000003 fb03aabbcc |
merge --group 2 | THREE | 00000003 00000002 f9aabb 00000002 00000003 f8cc | 20:11
split --frames 2 | 00000005 00000007 fb03aabbcc | 00000003 00000000 f9aabb 00000002 00000007 f8cc | 13:21
check --form demo | 00000002 00000000 f8aa 0000000a 00000000 fb0700000000 | '0 ok\n1 R5 at 1\n' | 10:5 20:15
send | THREE | SENT | 0:39 10:61 20:83 30:105
recv | CAPTURE | PAYLOADS |
replay | CAPTURE | EVENTS |
sdp | 'a=fmtp:111 useinbandfec=1; maxplaybackrate=16000;minptime=10' | 'a=fmtp:111 maxplaybackrate=16000;useinbandfec=1;minptime=10\n' |
sdp | 'a=fmtp:111 maxplaybackrate=16000;useinbandfec=1;minptime=10\n' | 'a=fmtp:111 maxplaybackrate=16000;useinbandfec=1;minptime=10\n' | 60:60
sdp | 'a=fmtp:111 stereo=2' | |
sdp | 'a=rtpmap:111 opus/48000/2' | 'a=rtpmap:111 opus/48000/2\n' |
sdp | 'a=rtpmap:111 opus/48000/2\n' | 'a=rtpmap:111 opus/48000/2\n' | 26:26
head | 'OpusHead' 01 01 0000 00000000 0000 03 01000080 | 'version 1\nchannels 1\npreskip 0\nrate 0\ngain 0\nfamily 3\nstreams 1\ncoupled 0\nchannel 0: matrix\nmatrix: -32768\n' |
";

// A row as it is read.
#[derive(Drop)]
struct Settled<'a> {
    words: &'a str,
    input: Vec<u8>,
    output: Vec<u8>,
    stands: Vec<(usize, usize)>,
}

fn settled_of(alloc: Global, line: &str) -> Result<Settled<'_>, Fail> {
    let columns = columns(alloc, line)?;
    let [words, input, output, stands] = columns.as_slice() else {
        return Err(Fail::from("a row has four columns"));
    };
    Ok(Settled {
        words: *words,
        input: bytes_of(alloc, input)?,
        output: bytes_of(alloc, output)?,
        stands: pairs_of(alloc, stands)?,
    })
}

fn pairs_of(alloc: Global, text: &str) -> Result<Vec<(usize, usize)>, Fail> {
    let mut pairs = Vec::new(alloc);
    for pair in text.split_whitespace() {
        let (from, count) = pair.split_once(':').ok_or("a pair has two numbers")?;
        pairs.push((number(from)?, number(count)?))?;
    }
    Ok(pairs)
}

fn number(text: &str) -> Result<usize, Fail> {
    Ok(text.parse().map_err(|_| "no number")?)
}

// The bytes that stand when so many bytes of the input came.
fn standing<'a>(row: &'a Settled<'_>, taken: usize) -> Option<&'a [u8]> {
    let mut stands = 0;
    for (from, count) in &row.stands {
        if *from <= taken {
            stands = *count;
        }
    }
    row.output.get(..stands)
}

// Whether the read behind so many bytes, which fails, leaves exactly what these bytes settle.
fn is_read_met(alloc: Global, row: &Settled<'_>, taken: usize) -> Result<bool, Fail> {
    let stands = standing(row, taken).ok_or("more stands than is written")?;
    let around = Around {
        reads: &[(taken as u64).saturating_add(1)],
        ..unfailing(1)
    };
    let run = (row.words, row.input.as_slice(), stands, "read fault");
    is_met_in(alloc, &around, &run)
}

// The same of each read, the one behind the last byte too.
fn all_reads_met(alloc: Global, row: &Settled<'_>) -> Result<bool, Fail> {
    for taken in 0..=row.input.len() {
        if !is_read_met(alloc, row, taken)? {
            return Ok(false);
        }
    }
    Ok(true)
}

fn is_settled(alloc: Global, line: &str) -> Result<bool, Fail> {
    let row = settled_of(alloc, line)?;
    let are_writes_met = all_writes_met(alloc, row.words, &row.input, &row.output)?;
    Ok(are_writes_met && all_reads_met(alloc, &row)?)
}

#[test]
fn ends_where_the_outside_fails(rt: HostRuntime) -> Result<(), Fail> {
    for row in SETTLED.lines().filter(|line| is_row(line)) {
        assert!(rt; is_settled(rt.alloc(), row)?, "{row}");
    }
    Ok(())
}

// The note of a packet without bytes.
const NOTE: &[u8] = b"opuspack: refused: record 0 at 0: R1 at 0\n";

// Whether a note whose write fails behind so many bytes leaves the status.
fn is_note_met(alloc: Global, written: usize) -> Result<bool, Fail> {
    let words = words_of(alloc, "norm")?;
    let fails = [(written as u64).saturating_add(1)];
    let mut source = MemorySource::new(alloc, b"", 1, &[]).map_err(|_| "memory")?;
    let mut out = MemorySink::new(alloc, 1, &[]).map_err(|_| "memory")?;
    let mut note = MemorySink::new(alloc, 1, &fails).map_err(|_| "memory")?;
    let words = words.as_slice();
    let status = run(alloc, words, max_input(), &mut source, &mut out, &mut note);
    let told = Some(note.contents()) == NOTE.get(..written);
    Ok(status == Status::Refused && out.contents().is_empty() && told)
}

#[test]
fn a_note_that_fails_leaves_the_status(rt: HostRuntime) -> Result<(), Fail> {
    for written in 0..NOTE.len() {
        assert!(rt; is_note_met(rt.alloc(), written)?, "{written}");
    }
    Ok(())
}

// The limit of an input without end, and the note.
const ENDLESS: &[(u64, &str)] = &[
    (5000, "refused: record 0 at 1276: R2 at 1276"),
    (1000, "input limit"),
];

fn is_ended(alloc: Global, row: &(u64, &str)) -> Result<bool, Fail> {
    let around = Around {
        limit: row.0,
        room: 1,
        ..unfailing(1)
    };
    let mut source = EndlessSource::new(0xf8);
    is_met_over(alloc, &mut source, &around, &("norm", b"", b"", row.1))
}

#[test]
fn an_input_without_end_is_refused_or_limited(rt: HostRuntime) -> Result<(), Fail> {
    for row in ENDLESS {
        assert!(rt; is_ended(rt.alloc(), row)?, "{row:?}");
    }
    Ok(())
}
