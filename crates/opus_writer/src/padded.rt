//! The form of a packet's value that has a given size.
ghost use Rattle.std.specs.Prelude.{◌≡◌, ℕ, ◌+◌, ◌-◌, ◌<◌, ◌≤◌, ◌↔◌, [], ◌∷◌, ◌++◌, length, map, replicate, flat_map, vec_len, vec_capacity, Err, OnOk, OnErr, IsErrOf};
ghost use Rattle.arrayvec.specs.ArrayVec.{array_vec_len};
ghost use Rattle.opus_toc.specs.Toc.{toc_byte};
ghost use Rattle.opus_flen.specs.FrameLength.{length_bytes};
ghost use Rattle.opus_flen.specs.PaddingLength.{padding_limit};
ghost use Rattle.opus_packet.specs.Header.{count_byte, given_lengths, padding_length};
ghost use Rattle.opus_packet.specs.PacketGrammar.{sizes_for};
ghost use Rattle.opus_packet.specs.Canonical.{canonical};
ghost use Rattle.opus_writer.specs.Padded.{padded_shape, padded_by, padding_for, padded_to};

use crate::header::{count_byte, push_lens};
use crate::list::{push_all, write_canon};
use crate::size::canon_size;
use arrayvec::ArrayVec;
use opus_flen::{pad_parts, write_pad};
use opus_io::NoMemory;
use opus_packet::{Packet, Shape, gives_lens, padding_len};
use opus_toc::Toc;

/// Why a value has no form of a size.
#[derive(Clone, Copy, Debug, PartialEq, Eq)]
pub enum PadFault {
    /// The size is below that of the canonical form.
    TooSmall,
    /// The padding would have 2^24 bytes or more, its length included (this project's limit).
    PadLimit,
    /// The list found no memory.
    NoMemory,
}

/// Appends the form of `size` bytes: the canonical form where it has that size, and else code 3 with zeros for
/// padding.
pub fn write_padded(packet: &Packet<'_>, size: u32, out: &mut Vec<u8>) -> Result<(), PadFault>
    ensures ok { OnOk result (out.new.items ≡ out.old.items ++ padded_to packet.now.value size) }
    ensures too_small { (result ≡ Err PadFault.TooSmall)
        ↔ (size < length (canonical packet.now.value)) }
    ensures pad_limit { (result ≡ Err PadFault.PadLimit)
        ↔ (padding_limit ≤ padding_for packet.now.value size) }
    ensures err { OnErr result (out.new.items ≡ out.old.items) }
    ensures full { IsErrOf result PadFault.NoMemory → vec_capacity out.old < vec_len out.old + size }
    ensures capacity { vec_capacity out.old ≤ vec_capacity out.new }
{
    let canonical = canon_size(packet);
    if size < canonical {
        return Err(PadFault::TooSmall);
    }
    if size == canonical {
        return match write_canon(packet, out) {
            Ok(()) => Ok(()),
            Err(NoMemory) => Err(PadFault::NoMemory),
        };
    }
    let pad = size - plain_size(packet);
    if pad >= 1 << 24 {
        return Err(PadFault::PadLimit);
    }
    match append_padded(packet, pad, out) {
        Ok(()) => Ok(()),
        Err(NoMemory) => Err(PadFault::NoMemory),
    }
}

// How code 3 with so much padding spells the packet.
fn shape_with(packet: &Packet<'_>, pad: u32) -> Shape
    ensures { result ≡ padded_shape packet.now.value pad }
{
    Shape {
        code: 3,
        vbr: !packet.lens().are_one(),
        pad,
    }
}

// Bytes of the packet in code 3 without padding.
fn plain_size(packet: &Packet<'_>) -> u32
    ensures size { result ≡ length (padded_by packet.now.value 0) }
    ensures next { result ≤ length (canonical packet.now.value) + 1 }
{
    packet.lens().header_size(shape_with(packet, 0)) + packet.body().len() as u32
}

// Appends the packet in code 3 with so much padding.
fn append_padded(packet: &Packet<'_>, pad: u32, out: &mut Vec<u8>) -> Result<(), NoMemory>
    requires { pad < padding_limit }
    ensures ok { OnOk result (out.new.items ≡ out.old.items ++ padded_by packet.now.value pad) }
    ensures err { OnErr result (out.new.items ≡ out.old.items) }
    ensures full { OnErr result
        (vec_capacity out.old < vec_len out.old + length (padded_by packet.now.value pad)) }
    ensures capacity { vec_capacity out.old ≤ vec_capacity out.new }
{
    let shape = shape_with(packet, pad);
    let front = front_of(packet, shape);
    let lens = lens_of(packet, shape);
    let body = packet.body();
    let zeros = padding_len(pad);
    let size = front.len() + pad_size(pad) + lens.len() + body.len() + zeros;
    let Ok(()) = out.reserve(size) else {
        return Err(NoMemory);
    };
    push_all(front.as_slice(), out);
    push_pad(pad, out);
    push_all(lens.as_slice(), out);
    push_all(body, out);
    push_zeros(zeros, out);
    Ok(())
}

// Appends so many zeros, for which there is room.
fn push_zeros(count: usize, out: &mut Vec<u8>)
    requires { vec_len out.old + count ≤ vec_capacity out.old }
    ensures bytes { out.new.items ≡ out.old.items ++ replicate count 0 }
    ensures capacity { vec_capacity out.old ≤ vec_capacity out.new }
{
    out.resize(out.len() + count, 0).unwrap();
}

// The TOC byte and the count byte.
fn front_of(packet: &Packet<'_>, shape: Shape) -> ArrayVec<u8, 2>
    ensures { result.items
        ≡ toc_byte packet.now.value.config packet.now.value.stereo 3
        ∷ count_byte shape (length packet.now.value.frames) ∷ [] }
{
    let toc = packet.toc();
    let mut front = ArrayVec::new();
    front.push(Toc::new(toc.config, toc.stereo, 3).to_byte());
    front.push(count_byte(shape, packet.count() as u8));
    front
}

// The lengths that stand in the header.
fn lens_of(packet: &Packet<'_>, shape: Shape) -> ArrayVec<u8, 94>
    ensures bytes { result.items
        ≡ flat_map length_bytes
        (given_lengths (sizes_for shape (map length packet.now.value.frames))) }
    ensures most { array_vec_len result ≤ 94 }
{
    let mut bytes = ArrayVec::new();
    if gives_lens(shape) {
        push_lens(&packet.lens(), &mut bytes);
    }
    bytes
}

// Bytes of a padding length.
fn pad_size(pad: u32) -> usize
    requires { pad < padding_limit }
    ensures size { result ≡ length (padding_length pad) }
    ensures most { result ≤ 65793 }
{
    if pad == 0 {
        0
    } else {
        pad_parts(pad).full as usize + 1
    }
}

// Appends a padding length, for which there is room.
fn push_pad(pad: u32, out: &mut Vec<u8>)
    requires most { pad < padding_limit }
    requires room { vec_len out.old + length (padding_length pad) ≤ vec_capacity out.old }
    ensures bytes { out.new.items ≡ out.old.items ++ padding_length pad }
    ensures capacity { vec_capacity out.old ≤ vec_capacity out.new }
{
    if pad > 0 {
        write_pad(pad, out).unwrap();
    }
}
