//! The caller that records a stream, in pieces of each size.
use example_recorder::{Recorder, Took};
use opus_io::NoMemory;
use opus_packet::{Fault, Rule};
use std::alloc::Global;
use std::test::Fail;

// A frame of two bytes; two frames of one byte in code 3 with a padding byte; and a packet with a count of no frames, which
// its second byte decides.
const STREAM: &[u8] = &[
    0xF8, 2, 0xAA, 0xBB, 0xFB, 0x42, 1, 1, 0xCC, 0xDD, 0, 0xFB, 0, 0,
];

// Two records: the length in four bytes, the range, and the packet. The second one is code 1, without padding.
const RECORDS: &[u8] = &[
    0, 0, 0, 3, 0, 0, 0, 0, 0xF8, 0xAA, 0xBB, 0, 0, 0, 3, 0, 0, 0, 0, 0xF9, 0xCC, 0xDD,
];

const BAD: Took = Took::Refused(Fault {
    rule: Rule::R5,
    place: 1,
});

// Hands a piece in, up to its end or to a refusal.
fn hand_in(recorder: &mut Recorder, piece: &[u8], out: &mut Vec<u8>) -> Result<Took, NoMemory> {
    let mut rest = piece;
    'packets: for _ in 0..piece.len() {
        match recorder.piece(rest, out)? {
            Took::Record(used) => rest = &rest[used..],
            took => return Ok(took),
        }
    }
    recorder.piece(rest, out)
}

// Whether the stream in pieces of `size` bytes is recorded, its last packet is refused, and a restart begins anew.
fn is_recorded(alloc: Global, size: usize) -> Result<bool, Fail> {
    if size == 0 {
        return Ok(false);
    }
    let mut recorder = Recorder::new(alloc)?;
    let mut out = Vec::new(alloc);
    let mut last = Took::More;
    for piece in STREAM.chunks(size) {
        last = hand_in(&mut recorder, piece, &mut out)?;
    }
    let written = out.as_slice() == RECORDS;
    recorder.restart();
    let again = recorder.piece(STREAM, &mut out)?;
    Ok(written && (last, again) == (BAD, Took::Record(4)))
}

#[test]
fn records_are_the_same_whatever_the_pieces(rt: HostRuntime) -> Result<(), Fail> {
    for size in 1..15usize {
        assert!(rt; is_recorded(rt.alloc(), size)?, "pieces of {size}");
    }
    Ok(())
}
