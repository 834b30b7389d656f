//! What std and the memory at hand do, which no clause says.
use opus_io::{
    Bytes, EndlessSource, FromRead, InStop, MemorySink, MemorySource, Reader, Sink, SinkStop,
    Source, SteadySink, SteadySource, ToWrite, write_all,
};
use std::alloc::{AllocError, Global};
use std::io;
use std::io::{Cursor, Read, Write};
use std::test::Fail;

// Gives two bytes, then an error, then the end.
#[derive(Drop)]
struct Faulty {
    calls: u8,
}

impl Read for Faulty {
    fn read(&mut self, buf: &mut [u8]) -> io::Result<usize> {
        self.calls = self.calls.saturating_add(1);
        match self.calls {
            1 if buf.len() >= 2 => {
                buf[0] = 7;
                buf[1] = 8;
                Ok(2)
            }
            2 => Err(io::ErrorKind::Other.into()),
            _ => Ok(0),
        }
    }
}

// Errs at the first write, takes nothing at the second, and counts the writes.
#[derive(Drop)]
struct Fussy {
    calls: u8,
}

impl Write for Fussy {
    fn write(&mut self, buf: &[u8]) -> io::Result<usize> {
        self.calls = self.calls.saturating_add(1);
        match self.calls {
            1 => Err(io::ErrorKind::Other.into()),
            2 => Ok(0),
            _ => Ok(buf.len()),
        }
    }

    fn flush(&mut self) -> io::Result<()> {
        Ok(())
    }
}

// Takes what the reader shows, and tells how many bytes that is.
fn take<S: Source>(
    reader: &mut Reader,
    source: &mut S,
    out: &mut Vec<u8>,
) -> Result<Result<usize, InStop>, AllocError> {
    match reader.ahead(source) {
        Ok(shown) => {
            let count = shown.len();
            out.extend_from_slice(shown)?;
            reader.pass(count);
            Ok(Ok(count))
        }
        Err(stop) => Ok(Err(stop)),
    }
}

// Takes all that the reader gives, and tells how it ended: `Ok(0)` at the end.
fn take_all<S: Source>(
    alloc: Global,
    reader: &mut Reader,
    source: &mut S,
    out: &mut Vec<u8>,
) -> Result<String, Fail> {
    let mut taken = take(reader, source, out)?;
    for _ in 0..1000 {
        if matches!(taken, Ok(0) | Err(_)) {
            break;
        }
        taken = take(reader, source, out)?;
    }
    Ok(format!(in alloc; "{taken:?}")?)
}

fn reader_of_std_serves(alloc: Global) -> Result<bool, Fail> {
    let mut reader = Reader::new(alloc, 100)?;
    let mut source = FromRead::new(Cursor::new(b"packet"));
    let mut taken = Vec::new(alloc);
    let end = take_all(alloc, &mut reader, &mut source, &mut taken)?;
    Ok(end.as_str() == "Ok(0)" && taken.as_slice() == b"packet".as_slice())
}

fn writer_of_std_serves(alloc: Global) -> bool {
    let mut written = Vec::new(alloc);
    let answer = write_all(&mut ToWrite::new(&mut written), b"packet");
    answer == Ok(()) && written.as_slice() == b"packet".as_slice()
}

fn fault_is_told_once(alloc: Global) -> Result<bool, Fail> {
    let mut faulty = FromRead::new(Faulty { calls: 0 });
    let mut reader = Reader::new(alloc, 100)?;
    let mut taken = Vec::new(alloc);
    let first = take_all(alloc, &mut reader, &mut faulty, &mut taken)?;
    let second = take_all(alloc, &mut reader, &mut faulty, &mut taken)?;
    let told = first.as_str() == "Err(Read)" && second.as_str() == "Ok(0)";
    Ok(told && taken.as_slice() == [7, 8].as_slice())
}

fn full_slice_fails() -> bool {
    let mut full = [0; 2];
    let mut sink = ToWrite::new(full.as_mut_slice());
    write_all(&mut sink, b"abc") == Err(SinkStop::Failed)
}

// What the writes of three bytes say, one after another.
const WRITES: &str = "Err(Failed) Err(Failed) Ok(3)";

fn write_stops_come_from_one_call(alloc: Global) -> Result<bool, Fail> {
    let mut fussy = Fussy { calls: 0 };
    let mut same = true;
    let mut sink = ToWrite::new(&mut fussy);
    for want in WRITES.split(' ') {
        let answer = sink.write(b"abc");
        same = format!(in alloc; "{answer:?}")?.as_str() == want && same;
    }
    Ok(same && fussy.calls == 3)
}

// Whether reads answer so, one after another, and the last of them gave these bytes.
fn gives<S: Source>(alloc: Global, source: &mut S, wants: &str, last: &[u8]) -> Result<bool, Fail> {
    let mut buf = [0; 4];
    let mut same = true;
    for want in wants.split(' ') {
        let answer = source.read(&mut buf);
        same = format!(in alloc; "{answer:?}")?.as_str() == want && same;
    }
    Ok(same && buf.starts_with(last))
}

fn read_stops_come_from_one_call(alloc: Global) -> Result<bool, Fail> {
    let mut faulty = Faulty { calls: 0 };
    let mut source = FromRead::new(&mut faulty);
    let same = gives(alloc, &mut source, "Ok(2) Err(Failed) Ok(0)", &[])?;
    Ok(same && faulty.calls == 3)
}

#[test]
fn readers_and_writers_of_std_serve(rt: HostRuntime) -> Result<(), Fail> {
    assert!(rt; reader_of_std_serves(rt.alloc())?);
    assert!(rt; writer_of_std_serves(rt.alloc()));
    assert!(rt; fault_is_told_once(rt.alloc())?);
    assert!(rt; full_slice_fails());
    assert!(rt; write_stops_come_from_one_call(rt.alloc())?);
    assert!(rt; read_stops_come_from_one_call(rt.alloc())?);
    Ok(())
}

fn memory_source_fails(alloc: Global) -> Result<bool, Fail> {
    let mut source = MemorySource::new(alloc, b"ab", 1, &[2, 5])?;
    let wants = "Ok(1) Err(Failed) Ok(1) Ok(0) Err(Failed) Ok(0)";
    gives(alloc, &mut source, wants, b"b")
}

fn memory_sink_fails(alloc: Global) -> Result<bool, Fail> {
    let thirty = [9; 30];
    let mut sink = MemorySink::new(alloc, 1, &[22])?;
    let stopped = write_all(&mut sink, &thirty) == Err(SinkStop::Failed);
    let written = sink.contents() == [9; 21].as_slice();
    let again = sink.write(&thirty) == Ok(1);
    let copy = Bytes::copy(alloc, sink.contents())?;
    Ok(stopped && written && again && copy.as_slice() == [9; 22].as_slice())
}

// A reader's limit, how many of 65 bytes it shows, and how it ends.
const LIMITS: &str = "\
64 64 Err(Limit)
65 65 Ok(0)
";

#[derive(Drop)]
struct Limit<'a> {
    limit: u64,
    shown: usize,
    end: &'a str,
}

fn limit_of(row: &str) -> Result<Limit<'_>, Fail> {
    let mut words = row.split(' ');
    let limit = words.next().ok_or("a limit is missing")?.parse()?;
    let shown = words.next().ok_or("a count is missing")?.parse()?;
    let end = words.next().ok_or("an end is missing")?;
    Ok(Limit { limit, shown, end })
}

fn takes(alloc: Global, row: &Limit<'_>, bytes: &[u8], taken: &mut Vec<u8>) -> Result<bool, Fail> {
    if row.limit < 1 || 65 < row.limit {
        return Ok(false);
    }
    let mut reader = Reader::new(alloc, row.limit)?;
    let mut source = SteadySource::new(alloc, bytes)?;
    let first = take_all(alloc, &mut reader, &mut source, taken)?;
    let second = take_all(alloc, &mut reader, &mut source, taken)?;
    let ended = first.as_str() == row.end && second.as_str() == row.end;
    Ok(ended && reader.passed() == row.limit && reader.taken() == 65)
}

fn is_limited(alloc: Global, row: &str) -> Result<bool, Fail> {
    let row = limit_of(row)?;
    let bytes = [7; 65];
    let mut taken = Vec::new(alloc);
    let same = takes(alloc, &row, &bytes, &mut taken)?;
    let mut sink = SteadySink::new(alloc);
    let answer = write_all(&mut sink, &taken);
    Ok(same && answer.is_ok() && Some(sink.contents()) == bytes.get(..row.shown))
}

// Passes two bytes of the six, and then the others.
fn pass_all(reader: &mut Reader) {
    let first = reader.shown().len().min(2);
    reader.pass(first);
    let rest = reader.shown().len();
    reader.pass(rest);
}

// The bytes passed last stay until the next read.
fn last_bytes_stay(alloc: Global) -> Result<bool, Fail> {
    let mut reader = Reader::new(alloc, 100)?;
    let mut source = SteadySource::new(alloc, b"packet")?;
    let fresh = reader.shown().is_empty() && !reader.is_filled();
    let filled = reader.fill(&mut source) == Ok(()) && reader.shown() == b"packet".as_slice();
    pass_all(&mut reader);
    let kept = reader.last() == b"cket".as_slice();
    let ended = reader.fill(&mut source) == Ok(());
    Ok(fresh && filled && kept && ended && reader.last().is_empty() && !reader.is_filled())
}

#[test]
fn memory_serves_and_fails_at_the_calls_asked(rt: HostRuntime) -> Result<(), Fail> {
    assert!(rt; memory_source_fails(rt.alloc())?);
    assert!(rt; gives(rt.alloc(), &mut EndlessSource::new(7), "Ok(4)", &[7; 4])?);
    assert!(rt; memory_sink_fails(rt.alloc())?);
    for row in LIMITS.lines() {
        assert!(rt; is_limited(rt.alloc(), row)?, "{row}");
    }
    assert!(rt; last_bytes_stay(rt.alloc())?);
    Ok(())
}
