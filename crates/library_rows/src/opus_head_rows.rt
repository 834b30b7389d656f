//! Heads with their answers, faults and routes.
use crate::table::bytes_of;
use opus_head::{Head, Route, Table, read_head, route, write_head};
use std::alloc::Global;
use std::test::Fail;

const STEREO: &[u8] = b"OpusHead\x01\x02\x38\x01\x80\xBB\x00\x00\x00\x00\x00";

// Version, channel count, family, what stands behind it, and the fault with its place.
const ROWS: &str = "\
# A byte more is refused in version 1 alone.
0 1 0 | 07 = reads
1 1 0 | 07 = Extra at 19
2 1 0 | 07 = reads
3 1 0 | 07 = reads
4 1 0 | 07 = reads
5 1 0 | 07 = reads
6 1 0 | 07 = reads
7 1 0 | 07 = reads
8 1 0 | 07 = reads
9 1 0 | 07 = reads
10 1 0 | 07 = reads
11 1 0 | 07 = reads
12 1 0 | 07 = reads
13 1 0 | 07 = reads
14 1 0 | 07 = reads
15 1 0 | 07 = reads
16 1 0 | 07 = Version at 8
# A family takes some channel counts.
1 0 0 |  = Channels at 9
1 3 0 |  = Channels at 9
1 8 1 | 08 00 00 01 02 03 04 05 06 07 = reads
1 9 1 |  = Channels at 9
1 2 2 |  = Channels at 9
1 5 2 |  = Channels at 9
1 4 2 | 04 00 00 01 02 03 = reads
1 227 3 | 01 00 09 = Cut(22) at 22
1 228 3 | 01 00 = Channels at 9
# Faults behind the family.
1 1 255 |  = Cut(19) at 19
1 1 255 | 00 = Streams at 19
1 1 255 | 01 = Cut(20) at 20
1 1 255 | 01 02 = Coupled at 20
1 1 255 | 80 7F = Cut(21) at 21
1 1 255 | 80 80 = Coupled at 20
1 1 255 | 80 7F FE = reads
1 6 1 | 04 02 00 04 01 02 03 05 = reads
1 6 1 | 04 02 00 04 01 02 03 06 = MapByte(5) at 26
1 6 1 | 04 02 00 04 01 02 03 FF = reads
1 1 3 | 01 00 FF 7F = reads
1 1 3 | 01 00 FF 7F 00 = Extra at 23
1 1 200 | 01 00 00 00 = Extra at 22
";

fn fault_of(alloc: Global, bytes: &[u8]) -> Result<String, Fail> {
    match read_head(alloc, bytes) {
        Ok(_) => Ok(String::from_str(alloc, "reads")?),
        Err(fault) => {
            let place = fault.place(bytes);
            Ok(format!(in alloc; "{fault:?} at {place}")?)
        }
    }
}

// A head of a row's columns.
fn head_of(alloc: Global, text: &str) -> Result<Vec<u8>, Fail> {
    let (numbers, hex) = text
        .split_once(" | ")
        .ok_or("what stands behind is missing")?;
    let mut numbers = numbers.split(' ');
    let mut bytes = Vec::from_slice(alloc, b"OpusHead")?;
    bytes.push(numbers.next().ok_or("a version is missing")?.parse()?)?;
    bytes.push(numbers.next().ok_or("a channel count is missing")?.parse()?)?;
    bytes.extend_from_slice(&[0; 8])?;
    bytes.push(numbers.next().ok_or("a family is missing")?.parse()?)?;
    bytes.extend_from_slice(&bytes_of(alloc, hex)?)?;
    Ok(bytes)
}

fn has_fault(alloc: Global, row: &str) -> Result<bool, Fail> {
    let (text, want) = row.split_once(" = ").ok_or("a row has two parts")?;
    let bytes = head_of(alloc, text)?;
    Ok(fault_of(alloc, &bytes)?.as_str() == want)
}

// Each front of a head is cut.
fn is_cut(alloc: Global, size: usize) -> Result<bool, Fail> {
    let front = STEREO.get(..size).ok_or("a front is shorter")?;
    let want = format!(in alloc; "Cut({size}) at {size}")?;
    Ok(fault_of(alloc, front)?.as_str() == want.as_str())
}

#[test]
fn faults_have_their_places(rt: HostRuntime) -> Result<(), Fail> {
    for row in ROWS.lines() {
        if !row.starts_with('#') {
            assert!(rt; has_fault(rt.alloc(), row)?, "{row}");
        }
    }
    for size in 0..19 {
        assert!(rt; is_cut(rt.alloc(), size)?, "{size}");
    }
    let magic = fault_of(rt.alloc(), b"OpusTags")?;
    assert_eq!(rt; magic.as_str(), "Magic(4) at 4");
    Ok(())
}

// A head's bytes; version, channels, pre-skip, rate, gain, family, streams and coupled ones; the route of each channel,
// all factors of the matrix, and the extra bytes. This head is also made.
const SIMPLE: &str = "4F707573 48656164 01 02 3801 80BB0000 0000 00 = \
1 2 312 48000 0 0 1 1 | [Left { stream: 0 }, Right { stream: 0 }] | [] | []";

const HEADS: &str = "\
4F707573 48656164 01 06 0000 00000000 0000 01 04 02 00 04 01 02 FF 05 = \
1 6 0 0 0 1 4 2 | [Left { stream: 0 }, Mono { stream: 2 }, Right { stream: 0 }, \
Left { stream: 1 }, Silence, Mono { stream: 3 }] | [] | []
4F707573 48656164 02 01 0000 00000000 0000 03 02 00 FF7F 0080 09 = \
2 1 0 0 0 3 2 0 | [Matrix] | [32767, -32768] | [9]
";

fn fields(alloc: Global, head: &Head) -> Result<String, Fail> {
    let (version, channels, pre_skip) = (head.version(), head.channels(), head.pre_skip());
    let (rate, gain, family) = (head.rate(), head.gain(), head.family());
    let (streams, coupled) = (head.streams(), head.coupled());
    Ok(format!(in alloc;
        "{version} {channels} {pre_skip} {rate} {gain} {family} {streams} {coupled}"
    )?)
}

// The routes of all channels.
fn routes(alloc: Global, head: &Head) -> Result<Vec<Route>, Fail> {
    let mut routes = Vec::new(alloc);
    for channel in 0..head.channels() {
        routes.push(route(head, channel))?;
    }
    Ok(routes)
}

// All factors of the matrix, and none where there is no matrix.
fn factors(alloc: Global, head: &Head) -> Result<Vec<i16>, Fail> {
    let mut factors = Vec::new(alloc);
    if let Table::Matrix {
        streams,
        coupled,
        ..
    } = head.table()
    {
        let count = (usize::from(*streams) + usize::from(*coupled)) * usize::from(head.channels());
        for i in 0..count {
            factors.push(head.entry(i))?;
        }
    }
    Ok(factors)
}

fn told(alloc: Global, head: &Head) -> Result<String, Fail> {
    let fields = fields(alloc, head)?;
    let routes = routes(alloc, head)?;
    let factors = factors(alloc, head)?;
    let extra = head.extra();
    Ok(format!(in alloc; "{fields} | {routes:?} | {factors:?} | {extra:?}")?)
}

// Family 0, and no other one here, has no table.
fn has_table(head: &Head) -> bool {
    match head.table() {
        Table::None => head.family() == 0,
        _ => head.family() != 0,
    }
}

fn is_written(alloc: Global, head: &Head, bytes: &[u8]) -> bool {
    let mut out = Vec::new(alloc);
    write_head(head, &mut out).is_ok() && out.as_slice() == bytes
}

fn is_head(alloc: Global, head: &Head, row: &str) -> Result<bool, Fail> {
    let (hex, want) = row.split_once(" = ").ok_or("a row has two parts")?;
    let written = is_written(alloc, head, &bytes_of(alloc, hex)?);
    Ok(written && has_table(head) && told(alloc, head)?.as_str() == want)
}

fn is_read(alloc: Global, row: &str) -> Result<bool, Fail> {
    let (hex, _) = row.split_once(" = ").ok_or("a row has two parts")?;
    match read_head(alloc, &bytes_of(alloc, hex)?) {
        Ok(head) => is_head(alloc, &head, row),
        Err(_) => Ok(false),
    }
}

#[test]
fn heads_are_read_and_written(rt: HostRuntime) -> Result<(), Fail> {
    assert!(rt; is_read(rt.alloc(), SIMPLE)?);
    for row in HEADS.lines() {
        assert!(rt; is_read(rt.alloc(), row)?, "{row}");
    }
    let simple = Head::simple(rt.alloc(), 2, 312, 48_000, 0);
    assert!(rt; is_head(rt.alloc(), &simple, SIMPLE)?);
    Ok(())
}
