//! Printing the two lines.
ghost use Rattle.std.specs.Prelude.{◌≡◌, ◌+◌, ◌<◌, ◌≤◌, ◌∷◌, [], ◌++◌, decimal, length, vec_len, vec_capacity, OnOk, OnErr};
ghost use Rattle.opus_sdp.specs.Printed.{flag_number, numbers_of, known_params, params_after, fmtp_text, rtpmap_text};
ghost use Rattle.opus_sdp.specs.Writing.{separator_behind};

use crate::size::{fmtp_size, rtpmap_size};
use crate::table::{ROWS, Row};
use crate::{Fmtp, Param, Rtpmap};
use itoa::Buffer;
use opus_io::NoMemory;

/// Appends a line `a=fmtp:` and a newline: known parameters in the order of RFC 7587, then the others in theirs.
/// All growth of `out` comes first; where there is no memory for it, `out` stays as it was.
pub fn write_fmtp(fmtp: &Fmtp, out: &mut Vec<u8>) -> Result<(), NoMemory>
    ensures ok { OnOk result (out.new.items ≡ out.old.items ++ (fmtp_text fmtp.now ++ 10 ∷ [])) }
    ensures err { OnErr result (out.new.items ≡ out.old.items) }
    ensures full { OnErr result
        (vec_capacity out.old < vec_len out.old + length (fmtp_text fmtp.now ++ 10 ∷ [])) }
    ensures capacity { vec_capacity out.old ≤ vec_capacity out.new }
{
    out.reserve(fmtp_size(fmtp))?;
    push_fmtp(fmtp, out);
    Ok(())
}

/// Appends a line `a=rtpmap:` and a newline. All growth of `out` comes first; where there is no memory for it, `out`
/// stays as it was.
pub fn write_rtpmap(rtpmap: Rtpmap, out: &mut Vec<u8>) -> Result<(), NoMemory>
    ensures ok { OnOk result (out.new.items ≡ out.old.items ++ (rtpmap_text rtpmap ++ 10 ∷ [])) }
    ensures err { OnErr result (out.new.items ≡ out.old.items) }
    ensures full { OnErr result
        (vec_capacity out.old < vec_len out.old + length (rtpmap_text rtpmap ++ 10 ∷ [])) }
    ensures capacity { vec_capacity out.old ≤ vec_capacity out.new }
{
    out.reserve(rtpmap_size(rtpmap))?;
    push_rtpmap(rtpmap, out);
    Ok(())
}

// Each of the following appends what there is room for.

fn push_fmtp(fmtp: &Fmtp, out: &mut Vec<u8>)
    requires { length out.old.items + length (fmtp_text fmtp.now ++ 10 ∷ []) ≤ vec_capacity out.old }
    ensures items { out.new.items ≡ out.old.items ++ (fmtp_text fmtp.now ++ 10 ∷ []) }
    ensures capacity { vec_capacity out.old ≤ vec_capacity out.new }
{
    push(b"a=fmtp:", out);
    push_number(u32::from(fmtp.payload_type), out);
    let separator = push_known(fmtp, out);
    push_others(separator, fmtp.others.as_slice(), out);
    push(b"\n", out);
}

fn push_rtpmap(rtpmap: Rtpmap, out: &mut Vec<u8>)
    requires { length out.old.items + length (rtpmap_text rtpmap ++ 10 ∷ []) ≤ vec_capacity out.old }
    ensures items { out.new.items ≡ out.old.items ++ (rtpmap_text rtpmap ++ 10 ∷ []) }
    ensures capacity { vec_capacity out.old ≤ vec_capacity out.new }
{
    push(b"a=rtpmap:", out);
    push_number(u32::from(rtpmap.payload_type), out);
    push(b" opus/48000/2\n", out);
}

// The known parameters. It tells what stands in front of the next one.
fn push_known(fmtp: &Fmtp, out: &mut Vec<u8>) -> u8
    requires { length out.old.items + length (params_after 32 (known_params fmtp.now)) ≤ vec_capacity out.old }
    ensures items { out.new.items ≡ out.old.items ++ params_after 32 (known_params fmtp.now) }
    ensures separator { result ≡ separator_behind 32 (known_params fmtp.now) }
    ensures capacity { vec_capacity out.old ≤ vec_capacity out.new }
{
    let mut separator = b' ';
    for (row, number) in numbers(fmtp).iter().enumerate() {
        if let Some(number) = number {
            let mut digits = Buffer::new();
            let value = digits.format(*number).as_bytes();
            push_param(separator, Row::at(row).name, value, out);
            separator = b';';
        }
    }
    separator
}

// Parameters, the first of them behind this byte.
fn push_others(separator: u8, params: &[Param], out: &mut Vec<u8>)
    requires { length out.old.items + length (params_after separator params.now) ≤ vec_capacity out.old }
    ensures items { out.new.items ≡ out.old.items ++ params_after separator params.now }
    ensures capacity { vec_capacity out.old ≤ vec_capacity out.new }
{
    let mut next = separator;
    for param in params {
        push_param(next, param.name.as_slice(), param.value.as_slice(), out);
        next = b';';
    }
}

// A parameter behind this byte.
fn push_param(separator: u8, name: &[u8], value: &[u8], out: &mut Vec<u8>)
    requires { length out.old.items + length (separator ∷ (name.now ++ 61 ∷ value.now)) ≤ vec_capacity out.old }
    ensures items { out.new.items ≡ out.old.items ++ separator ∷ (name.now ++ 61 ∷ value.now) }
    ensures capacity { vec_capacity out.old ≤ vec_capacity out.new }
{
    push(&[separator], out);
    push(name, out);
    push(b"=", out);
    push(value, out);
}

// A number in decimal digits.
fn push_number(number: u32, out: &mut Vec<u8>)
    requires { length out.old.items + length (decimal number) ≤ vec_capacity out.old }
    ensures items { out.new.items ≡ out.old.items ++ decimal number }
    ensures capacity { vec_capacity out.old ≤ vec_capacity out.new }
{
    let mut digits = Buffer::new();
    push(digits.format(number).as_bytes(), out);
}

fn push(bytes: &[u8], out: &mut Vec<u8>)
    requires { length out.old.items + length bytes.now ≤ vec_capacity out.old }
    ensures items { out.new.items ≡ out.old.items ++ bytes.now }
    ensures capacity { vec_capacity out.old ≤ vec_capacity out.new }
{
    out.extend_from_slice(bytes).unwrap();
}

/// The numbers in the order of the table.
pub(crate) fn numbers(fmtp: &Fmtp) -> [Option<u32>; ROWS]
    ensures { result ≡ numbers_of fmtp.now }
{
    [
        fmtp.max_playback_rate,
        fmtp.max_capture_rate,
        fmtp.max_average_bitrate,
        flag_number(fmtp.stereo),
        flag_number(fmtp.sprop_stereo),
        flag_number(fmtp.cbr),
        flag_number(fmtp.in_band_fec),
        flag_number(fmtp.dtx),
    ]
}

fn flag_number(flag: Option<bool>) -> Option<u32>
    ensures { result ≡ flag_number flag }
{
    flag.map(u32::from)
}
