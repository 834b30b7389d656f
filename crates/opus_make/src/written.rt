//! The bytes of a packet.
ghost use Rattle.std.specs.Prelude.{◌≡◌, ◌≢◌, ◌*◌, ◌∷◌, ◌+◌, ◌≤◌, ◌<◌, ◌++◌, length, sum, flat_map, All, vec_len, vec_capacity, OnOk, OnErr};
ghost use Rattle.arrayvec.specs.ArrayVec.{array_vec_len};
ghost use Rattle.opus_toc.specs.Toc.{toc_byte};
ghost use Rattle.opus_flen.specs.FrameLength.{length_bytes};
ghost use Rattle.opus_make.specs.Written.{frame_bytes, frames_from, count_and_padding, given_lengths, header_of, padding_of, packet_of};
ghost use Rattle.opus_make.specs.Values.{form_value, plan_value};
ghost use Rattle.opus_make.specs.Ramp.{ramp_bytes};

use crate::form::Form;
use crate::plan::Plan;
use arrayvec::ArrayVec;
use opus_flen::len_bytes;
use opus_io::NoMemory;
use opus_toc::Toc;

/// Appends a packet, whose frames are cut from the ramp.
pub(crate) fn write_plan(plan: &Plan, ramp: &[u8], out: &mut Vec<u8>) -> Result<(), NoMemory>
    requires ramp { ramp.now ≡ ramp_bytes }
    requires whole { length ramp.now ≡ 347 }
    ensures ok { OnOk result (out.new.items ≡ out.old.items ++ packet_of (plan_value plan.now)) }
    ensures err { OnErr result (out.new.items ≡ out.old.items) }
    ensures full { OnErr result
        (vec_capacity out.old < vec_len out.old + length (packet_of (plan_value plan.now))) }
    ensures capacity { vec_capacity out.old ≤ vec_capacity out.new }
{
    let header = header(plan);
    let padding = padding(plan.form);
    out.reserve(header.len() + total(plan.lengths.as_slice()) + padding.len())?;
    out.extend_from_slice(header.as_slice()).unwrap();
    append_frames(plan.lengths.as_slice(), ramp, out);
    out.extend_from_slice(padding.as_slice()).unwrap();
    Ok(())
}

// Bytes of all frames.
fn total(lengths: &[u16]) -> usize
    requires few { length lengths.now ≤ 48 }
    requires short { All (λ n. n < 300) lengths.now }
    ensures sum { result ≡ sum lengths.now }
    ensures most { result ≤ 300 * 48 }
{
    let mut total = 0;
    for length in lengths {
        total += usize::from(*length);
    }
    total
}

// What stands before the frames.
fn header(plan: &Plan) -> ArrayVec<u8, 98>
    ensures bytes { result.items ≡ header_of (plan_value plan.now) }
    ensures small { array_vec_len result ≤ 98 }
{
    let mut header = front(plan);
    push_lengths(given(plan), &mut header);
    header
}

// The TOC byte, and behind it the count byte and the padding length of code 3.
fn front(plan: &Plan) -> ArrayVec<u8, 98>
    ensures items { result.items ≡ toc_byte plan.now.config plan.now.stereo plan.now.form.code
        ∷ count_and_padding (form_value plan.now.form) }
    ensures len { array_vec_len result ≤ 3 }
{
    let form = plan.form;
    let mut header = ArrayVec::new();
    header.push(Toc::new(plan.config, plan.stereo, form.code).to_byte());
    if form.code == 3 {
        let vbr = if form.vbr { 128 } else { 0 };
        let padded = if form.pad > 0 { 64 } else { 0 };
        header.push(vbr + padded + form.count);
        if form.pad > 0 {
            header.push(form.pad - 1);
        }
    }
    header
}

// The lengths that stand in the header.
fn given(plan: &Plan) -> &[u16]
    ensures { result.now ≡ given_lengths (plan_value plan.now) }
{
    let lengths = plan.lengths.as_slice();
    if plan.form.code == 2 || plan.form.vbr {
        &lengths[..lengths.len() - 1]
    } else {
        &[]
    }
}

// Puts frame lengths behind a header.
fn push_lengths(lengths: &[u16], header: &mut ArrayVec<u8, 98>)
    requires short { All (λ n. n < 300) lengths.now }
    requires room { array_vec_len header.old + 2 * length lengths.now ≤ 98 }
    ensures items { header.new.items ≡ header.old.items ++ flat_map length_bytes lengths.now }
    ensures len { array_vec_len header.new ≤ array_vec_len header.old + 2 * length lengths.now }
{
    for length in lengths {
        push_length(*length, header);
    }
}

// Puts a frame length behind a header.
fn push_length(length: u16, header: &mut ArrayVec<u8, 98>)
    requires short { length < 300 }
    requires room { array_vec_len header.old + 2 ≤ 98 }
    ensures items { header.new.items ≡ header.old.items ++ length_bytes length }
    ensures len { array_vec_len header.new ≤ array_vec_len header.old + 2 }
{
    header
        .try_extend_from_slice(len_bytes(length).as_slice())
        .unwrap();
}

// Zeros, as many as the padding has besides its length byte.
fn padding(form: Form) -> ArrayVec<u8, 8>
    ensures bytes { result.items ≡ padding_of (form_value form) }
    ensures small { array_vec_len result ≤ 8 }
{
    let mut zeros = ArrayVec::new();
    for _ in 0..form.pad.saturating_sub(1) {
        zeros.push(0);
    }
    zeros
}

// Appends frames of these lengths to a vector that has room for them.
fn append_frames(lengths: &[u16], ramp: &[u8], out: &mut Vec<u8>)
    requires ramp { ramp.now ≡ ramp_bytes }
    requires whole { length ramp.now ≡ 347 }
    requires few { length lengths.now ≤ 48 }
    requires short { All (λ n. n < 300) lengths.now }
    requires room { vec_len out.old + sum lengths.now ≤ vec_capacity out.old }
    ensures items { out.new.items ≡ out.old.items ++ frames_from 0 lengths.now }
    ensures len { vec_len out.new ≡ vec_len out.old + sum lengths.now }
    ensures capacity { vec_capacity out.old ≤ vec_capacity out.new }
{
    for (number, length) in lengths.iter().enumerate() {
        let frame = cut(ramp, number, usize::from(*length));
        out.extend_from_slice(frame).unwrap();
    }
}

// The frame with this number and length.
fn cut(ramp: &[u8], number: usize, size: usize) -> &[u8]
    requires ramp { ramp.now ≡ ramp_bytes }
    requires whole { length ramp.now ≡ 347 }
    requires within { number + size ≤ 347 }
    ensures { result.now ≡ frame_bytes number size }
{
    &ramp[number..number + size]
}
