//! The headers of the written forms, made where they stand. The array may hold other bytes before the header, so
//! that both are written as one piece.
ghost use Rattle.std.specs.Prelude.{◌≡◌, ℕ, ◌+◌, ◌-◌, ◌*◌, ◌≤◌, ◌<◌, ◌++◌, ◌∷◌, length, map, take, flat_map};
ghost use Rattle.arrayvec.specs.ArrayVec.{array_vec_len};
ghost use Rattle.opus_flen.specs.FrameLength.{length_bytes};
ghost use Rattle.opus_flen.specs.PaddingLength.{padding_limit};
ghost use Rattle.opus_packet.specs.Value.{max_frame};
ghost use Rattle.opus_packet.specs.Header.{padding_length, count_byte, count_and_padding, header_bytes};
ghost use Rattle.opus_packet.specs.PacketGrammar.{header_in};
ghost use Rattle.opus_packet.specs.Tail.{max_tail};
ghost use Rattle.opus_writer.specs.Pushes.{Pushes};
ghost use Rattle.opus_writer.specs.Forms.{canonical_header, canonical_self_header, canonical_header_in, keep_header, keep_self_header, keep_header_in};

use arrayvec::ArrayVec;
use opus_flen::{len_bytes, pad_parts};
use opus_packet::{Lens, Packet, Shape, gives_lens};
use opus_toc::Toc;

/// Appends the header of the canonical form: at most 96 bytes.
#[inline(always)]
pub fn push_canon_header<const N: usize>(packet: &Packet<'_>, header: &mut ArrayVec<u8, N>)
    requires { array_vec_len header.old + 96 ≤ N }
    ensures bytes { header.new.items ≡ header.old.items ++ canonical_header packet.now.value }
    ensures most { array_vec_len header.new ≤ array_vec_len header.old + 96 }
{
    let lens = packet.lens();
    push_header(packet.toc(), lens.canonical_shape(), &lens, header);
}

/// Appends the header of the canonical self-delimited form: at most 98 bytes.
#[inline(always)]
pub fn push_canon_self_header<const N: usize>(packet: &Packet<'_>, header: &mut ArrayVec<u8, N>)
    requires { array_vec_len header.old + 98 ≤ N }
    ensures bytes { header.new.items ≡ header.old.items ++ canonical_self_header packet.now.value }
    ensures most { array_vec_len header.new ≤ array_vec_len header.old + 98 }
{
    push_canon_header(packet, header);
    push_length(packet.lens().last_len(), header);
}

/// Appends the header of the kept form with `tail` padding bytes: at most 355 bytes.
#[inline(always)]
pub fn push_keep_header<const N: usize>(
    packet: &Packet<'_>,
    tail: u32,
    header: &mut ArrayVec<u8, N>,
)
    requires { (tail ≤ max_tail) × (array_vec_len header.old + 355 ≤ N) }
    ensures { Pushes header.old.items header.new.items (keep_header packet.now.value tail) 355 }
{
    let lens = packet.lens();
    push_header(packet.toc(), lens.keep_shape(tail), &lens, header);
}

/// Appends the header of the kept self-delimited form with `tail` padding bytes: at most 357 bytes.
#[inline(always)]
pub fn push_keep_self_header<const N: usize>(
    packet: &Packet<'_>,
    tail: u32,
    header: &mut ArrayVec<u8, N>,
)
    requires { (tail ≤ max_tail) × (array_vec_len header.old + 357 ≤ N) }
    ensures { Pushes header.old.items header.new.items (keep_self_header packet.now.value tail) 357 }
{
    push_keep_header(packet, tail, header);
    push_length(packet.lens().last_len(), header);
}

// Appends the header of the canonical form, self-delimited where `own` says so.
#[inline(always)]
pub(crate) fn push_canon_in<const N: usize>(
    packet: &Packet<'_>,
    own: bool,
    header: &mut ArrayVec<u8, N>,
)
    requires { array_vec_len header.old + 98 ≤ N }
    ensures bytes { header.new.items ≡ header.old.items ++ canonical_header_in own packet.now.value }
    ensures most { array_vec_len header.new ≤ array_vec_len header.old + 98 }
{
    if own {
        push_canon_self_header(packet, header);
    } else {
        push_canon_header(packet, header);
    }
}

// Appends the header of the kept form with `tail` padding bytes, self-delimited where `own` says so.
#[inline(always)]
pub(crate) fn push_keep_in<const N: usize>(
    packet: &Packet<'_>,
    own: bool,
    tail: u32,
    header: &mut ArrayVec<u8, N>,
)
    requires { (tail ≤ max_tail) × (array_vec_len header.old + 357 ≤ N) }
    ensures { Pushes header.old.items header.new.items (keep_header_in own packet.now.value tail) 357 }
{
    if own {
        push_keep_self_header(packet, tail, header);
    } else {
        push_keep_header(packet, tail, header);
    }
}

// Appends the header of a packet with frames of these lengths in a shape (RFC 6716, 3.2).
#[inline(always)]
fn push_header<const N: usize>(
    toc: Toc,
    shape: Shape,
    lens: &Lens<'_>,
    header: &mut ArrayVec<u8, N>,
)
    requires code { shape.code < 4 }
    requires pad { shape.pad < padding_limit }
    requires some { 1 ≤ length lens.now }
    requires room { array_vec_len header.old + 96 + length (padding_length shape.pad) ≤ N }
    ensures bytes { header.new.items
        ≡ header.old.items ++ header_bytes (header_in toc.config toc.stereo shape lens.now) }
    ensures most { array_vec_len header.new ≤ array_vec_len header.old + 96 + length (padding_length shape.pad) }
{
    header.push(Toc::new(toc.config, toc.stereo, shape.code).to_byte());
    push_count(shape, lens.len() as u8, header);
    if gives_lens(shape) {
        push_lens(lens, header);
    }
}

// Appends the count byte of code 3 and the padding length (RFC 6716, 3.2.5).
#[inline(always)]
fn push_count<const N: usize>(shape: Shape, count: u8, header: &mut ArrayVec<u8, N>)
    requires count { count ≤ 48 }
    requires pad { shape.pad < padding_limit }
    requires room { array_vec_len header.old + 1 + length (padding_length shape.pad) ≤ N }
    ensures bytes { header.new.items ≡ header.old.items ++ count_and_padding shape count }
    ensures most { array_vec_len header.new ≤ array_vec_len header.old + 1 + length (padding_length shape.pad) }
{
    if shape.code == 3 {
        header.push(count_byte(shape, count));
        if shape.pad > 0 {
            push_pad(shape.pad, header);
        }
    }
}

/// The count byte of code 3: VBR, padding, and the number of frames, at most 48.
#[inline(always)]
pub(crate) fn count_byte(shape: Shape, count: u8) -> u8
    requires { count ≤ 48 }
    ensures { result ≡ count_byte shape count }
{
    let vbr = if shape.vbr { 128 } else { 0 };
    let padded = if shape.pad > 0 { 64 } else { 0 };
    vbr + padded + count
}

// Appends a padding length.
fn push_pad<const N: usize>(pad: u32, header: &mut ArrayVec<u8, N>)
    requires some { 1 ≤ pad }
    requires most { pad < padding_limit }
    requires room { array_vec_len header.old + length (padding_length pad) ≤ N }
    ensures bytes { header.new.items ≡ header.old.items ++ padding_length pad }
{
    let parts = pad_parts(pad);
    for _ in 0..parts.full {
        header.push(255);
    }
    header.push(parts.last);
}

/// Appends the lengths of all frames but the last, at most 94 bytes: as one piece where they are spelled somewhere.
#[inline(always)]
pub fn push_lens<const N: usize>(lens: &Lens<'_>, header: &mut ArrayVec<u8, N>)
    requires some { 1 ≤ length lens.now }
    requires room { array_vec_len header.old + 94 ≤ N }
    ensures bytes { header.new.items ≡ header.old.items ++ flat_map length_bytes (take (length lens.now - 1) lens.now) }
    ensures most { array_vec_len header.new ≤ array_vec_len header.old + 94 }
{
    match lens.spelled() {
        Some(bytes) => header.try_extend_from_slice(bytes).unwrap(),
        None => push_listed(lens, header),
    }
}

// Appends the lengths of all frames but the last, one by one.
fn push_listed<const N: usize>(lens: &Lens<'_>, header: &mut ArrayVec<u8, N>)
    requires some { 1 ≤ length lens.now }
    requires room { array_vec_len header.old + 94 ≤ N }
    ensures bytes { header.new.items ≡ header.old.items ++ flat_map length_bytes (take (length lens.now - 1) lens.now) }
    ensures most { array_vec_len header.new ≤ array_vec_len header.old + 94 }
{
    let mut rest = lens.again();
    for _ in 1..lens.len() {
        if let Some(len) = rest.next() {
            push_length(len, header);
        }
    }
}

// Appends a frame length (RFC 6716, 3.2.1).
#[inline(always)]
fn push_length<const N: usize>(length: u16, header: &mut ArrayVec<u8, N>)
    requires frame { length ≤ max_frame }
    requires room { array_vec_len header.old + 2 ≤ N }
    ensures bytes { header.new.items ≡ header.old.items ++ length_bytes length }
    ensures most { array_vec_len header.new ≤ array_vec_len header.old + 2 }
{
    header
        .try_extend_from_slice(len_bytes(length).as_slice())
        .unwrap();
}
