//! Written forms of small packets and of long padding.
use opus_io::{MemorySink, NoMemory, SinkStop};
use opus_packet::{Packet, Tail, decode};
use opus_writer::{
    PadFault, canon_self_size, canon_size, keep_self_size, keep_size, put_canon, put_canon_self,
    put_keep, put_keep_self, write_canon, write_canon_self, write_keep, write_keep_self,
    write_padded,
};
use std::alloc::{AllocError, Global};
use std::test::Fail;

/// The written forms.
#[derive(Clone, Copy)]
enum Form {
    Canonical,
    CanonicalSelf,
    Kept,
    KeptSelf,
}

fn size(form: Form, packet: &Packet<'_>) -> u32 {
    match (form, packet.tail()) {
        (Form::Canonical, _) => canon_size(packet),
        (Form::CanonicalSelf, _) => canon_self_size(packet),
        (Form::Kept, Tail::Bytes(_)) => keep_size(packet),
        (Form::KeptSelf, Tail::Bytes(_)) => keep_self_size(packet),
        _ => 0,
    }
}

fn write(form: Form, packet: &Packet<'_>, out: &mut Vec<u8>) -> Result<(), NoMemory> {
    match (form, packet.tail()) {
        (Form::Canonical, _) => write_canon(packet, out),
        (Form::CanonicalSelf, _) => write_canon_self(packet, out),
        (Form::Kept, Tail::Bytes(_)) => write_keep(packet, out),
        (Form::KeptSelf, Tail::Bytes(_)) => write_keep_self(packet, out),
        _ => Ok(()),
    }
}

fn put(form: Form, packet: &Packet<'_>, sink: &mut MemorySink) -> Result<(), SinkStop> {
    match (form, packet.tail()) {
        (Form::Canonical, _) => put_canon(packet, sink),
        (Form::CanonicalSelf, _) => put_canon_self(packet, sink),
        (Form::Kept, Tail::Bytes(_)) => put_keep(packet, sink),
        (Form::KeptSelf, Tail::Bytes(_)) => put_keep_self(packet, sink),
        _ => Ok(()),
    }
}

// A packet; its canonical form, undelimited and self-delimited; its kept form, undelimited and self-delimited.
type Forms = [&'static [u8]; 5];

const FORMS: &[Forms] = &[
    [
        b"\xf8\xaa",
        b"\xf8\xaa",
        b"\xf8\x01\xaa",
        b"\xf8\xaa",
        b"\xf8\x01\xaa",
    ],
    [b"\xfc", b"\xfc", b"\xfc\0", b"\xfc", b"\xfc\0"],
    [
        b"\xfb\x41\0\xaa",
        b"\xf8\xaa",
        b"\xf8\x01\xaa",
        b"\xf8\xaa",
        b"\xf8\x01\xaa",
    ],
    [
        b"\xfa\x01\xaa\xbb",
        b"\xf9\xaa\xbb",
        b"\xf9\x01\xaa\xbb",
        b"\xf9\xaa\xbb",
        b"\xf9\x01\xaa\xbb",
    ],
    [
        b"\xfa\x01abc",
        b"\xfa\x01abc",
        b"\xfa\x01\x02abc",
        b"\xfa\x01abc",
        b"\xfa\x01\x02abc",
    ],
    [
        b"\xfb\x41\x01ab\0",
        b"\xf8ab",
        b"\xf8\x02ab",
        b"\xfb\x41\x01ab\0",
        b"\xfb\x41\x01\x02ab\0",
    ],
    [
        b"\xfb\xc2\x02\x01ab\x11\x22",
        b"\xf9ab",
        b"\xf9\x01ab",
        b"\xfb\x42\x02ab\x11\x22",
        b"\xfb\x42\x02\x01ab\x11\x22",
    ],
    [
        b"\xfb\xc3\x01\x01\0ab\x99",
        b"\xfb\x83\x01\0ab",
        b"\xfb\x83\x01\0\x01ab",
        b"\xfb\xc3\x01\x01\0ab\x99",
        b"\xfb\xc3\x01\x01\0\x01ab\x99",
    ],
];

fn is_listed(alloc: Global, form: Form, packet: &Packet<'_>, want: &[u8]) -> Result<bool, Fail> {
    let mut out = Vec::new(alloc);
    write(form, packet, &mut out)?;
    Ok(out.as_slice() == want && size(form, packet) as usize == want.len())
}

// To a sink that takes a byte a call: the call that fails, if it isn't 0, is the last one, and those before it wrote.
fn is_put(
    alloc: Global,
    form: Form,
    packet: &Packet<'_>,
    want: &[u8],
    fail: usize,
) -> Result<bool, Fail> {
    let mut sink = MemorySink::new(alloc, 1, &[fail as u64])?;
    let answer = put(form, packet, &mut sink);
    let written = fail.checked_sub(1).unwrap_or(want.len());
    Ok(answer.is_ok() == (fail == 0) && want.get(..written) == Some(sink.contents()))
}

// To a sink that takes all that it is given: where no call fails, the form stands there.
fn is_put_at_once(
    alloc: Global,
    form: Form,
    packet: &Packet<'_>,
    want: &[u8],
    fail: usize,
) -> Result<bool, Fail> {
    let mut sink = MemorySink::new(alloc, 4096, &[fail as u64])?;
    let answer = put(form, packet, &mut sink);
    Ok(answer.is_ok() == (sink.contents() == want) && want.starts_with(sink.contents()))
}

fn is_written(alloc: Global, form: Form, packet: &Packet<'_>, want: &[u8]) -> Result<bool, Fail> {
    let mut written = is_listed(alloc, form, packet, want)?;
    for fail in 0..=want.len() {
        written = written
            && is_put(alloc, form, packet, want, fail)?
            && is_put_at_once(alloc, form, packet, want, fail)?;
    }
    Ok(written)
}

fn are_written(alloc: Global, row: &Forms) -> Result<bool, Fail> {
    let [bytes, canonical, canonical_self, kept, kept_self] = *row;
    let packet = decode(bytes)?;
    Ok(
        is_written(alloc, Form::Canonical, &packet, canonical)?
            && is_written(alloc, Form::CanonicalSelf, &packet, canonical_self)?
            && is_written(alloc, Form::Kept, &packet, kept)?
            && is_written(alloc, Form::KeptSelf, &packet, kept_self)?,
    )
}

#[test]
fn each_form_is_written(rt: HostRuntime) -> Result<(), Fail> {
    for row in FORMS {
        assert!(rt; are_written(rt.alloc(), row)?, "{row:?}");
    }
    Ok(())
}

// A padding length as it was read (its bytes 255 and its last byte), the padding bytes that it tells, and the
// padding length of the kept form, in which k bytes 255 stand for 254 * k padding bytes and the last byte for 1 to 254.
type Padding = (usize, u8, usize, usize, u8);

const PADDINGS: &[Padding] = &[
    (0, 1, 1, 0, 1),
    (0, 253, 253, 0, 253),
    (0, 254, 254, 0, 254),
    (1, 0, 254, 0, 254),
    (1, 1, 255, 1, 1),
    (1, 254, 508, 1, 254),
    (2, 0, 508, 1, 254),
    (257, 254, 65532, 257, 254),
    (258, 0, 65532, 257, 254),
    (258, 3, 65535, 258, 3),
];

// A packet of one frame AA, whose padding length has so many bytes 255 and a last byte, and its padding bytes.
fn padded(
    alloc: Global,
    full: usize,
    last: u8,
    behind: &[u8],
    tail: &[u8],
) -> Result<Vec<u8>, AllocError> {
    let mut bytes = Vec::from_slice(alloc, b"\xfb\x41")?;
    for _ in 0..full {
        bytes.push(255)?;
    }
    bytes.push(last)?;
    bytes.extend_from_slice(behind)?;
    bytes.extend_from_slice(tail)?;
    Ok(bytes)
}

fn is_kept(alloc: Global, row: &Padding) -> Result<bool, Fail> {
    let mut tail = Vec::new(alloc);
    for i in 0..row.2 {
        tail.push((i % 251) as u8)?;
    }
    let bytes = padded(alloc, row.0, row.1, b"\xaa", &tail)?;
    let plain = padded(alloc, row.3, row.4, b"\xaa", &tail)?;
    let own = padded(alloc, row.3, row.4, b"\x01\xaa", &tail)?;
    let packet = decode(&bytes)?;
    Ok(
        is_listed(alloc, Form::Kept, &packet, &plain)?
            && is_listed(alloc, Form::KeptSelf, &packet, &own)?,
    )
}

#[test]
fn padding_is_kept_behind_the_shortest_length(rt: HostRuntime) -> Result<(), Fail> {
    for row in PADDINGS {
        assert!(rt; is_kept(rt.alloc(), row)?, "{row:?}");
    }
    Ok(())
}

// A size, and the form of the packet F8 AA in that size.
type Sized = (u32, Result<&'static [u8], PadFault>);

const SIZED: &[Sized] = &[
    (1, Err(PadFault::TooSmall)),
    (2, Ok(b"\xf8\xaa")),
    (3, Ok(b"\xfb\x01\xaa")),
    (4, Ok(b"\xfb\x41\0\xaa")),
    (5, Ok(b"\xfb\x41\x01\xaa\0")),
    (16777219, Err(PadFault::PadLimit)),
    (20000000, Err(PadFault::PadLimit)),
];

fn is_sized(alloc: Global, row: &Sized) -> Result<bool, Fail> {
    let packet = decode(b"\xf8\xaa")?;
    let mut out = Vec::new(alloc);
    let answer = write_padded(&packet, row.0, &mut out);
    Ok(answer.map(|()| out.as_slice()) == row.1)
}

// Packets that have a padded form of each size from the canonical form's on.
const PACKETS: &[&[u8]] = &[
    b"\xf8\xaa",
    b"\xf9ab",
    b"\xfa\x01abc",
    b"\xfb\x03abc",
    b"\xfb\x83\x01\0ab",
];

fn tail_is_zeros(packet: &Packet<'_>) -> bool {
    match packet.tail() {
        Tail::Bytes(bytes) => bytes.iter().all(|byte| *byte == 0),
        Tail::Dropped(_) => false,
    }
}

// The form has the packet's frames, and zeros behind them.
fn is_padded_form(packet: &Packet<'_>, made: &Packet<'_>) -> bool {
    made.body() == packet.body() && made.lens().eq(packet.lens()) && tail_is_zeros(made)
}

fn has_size(alloc: Global, packet: &Packet<'_>, size: u32) -> Result<bool, Fail> {
    let mut out = Vec::new(alloc);
    let answer = write_padded(packet, size, &mut out);
    if size < canon_size(packet) {
        return Ok(answer == Err(PadFault::TooSmall) && out.is_empty());
    }
    let made = decode(&out)?;
    Ok(answer == Ok(()) && size == made.size() && is_padded_form(packet, &made))
}

// Each size up to 300 bytes above the canonical form's.
fn has_each_size(alloc: Global, bytes: &[u8]) -> Result<bool, Fail> {
    let packet = decode(bytes)?;
    let mut has = true;
    for size in 0..=canon_size(&packet).saturating_add(300) {
        has = has && has_size(alloc, &packet, size)?;
    }
    Ok(has)
}

#[test]
fn a_padded_form_has_its_size(rt: HostRuntime) -> Result<(), Fail> {
    for row in SIZED {
        assert!(rt; is_sized(rt.alloc(), row)?, "{row:?}");
    }
    for bytes in PACKETS {
        assert!(rt; has_each_size(rt.alloc(), bytes)?, "{bytes:?}");
    }
    Ok(())
}
