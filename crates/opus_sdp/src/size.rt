//! How many bytes the two lines take.
ghost use Rattle.std.specs.Prelude.{◌≡◌, ◌+◌, ◌∷◌, [], ◌++◌, decimal, length};
ghost use Rattle.opus_sdp.specs.Printed.{known_params, params_after, fmtp_text, rtpmap_text};
ghost use Rattle.opus_sdp.specs.Writing.{separator_behind, Counts};

use crate::table::Row;
use crate::write::numbers;
use crate::{Fmtp, Param, Rtpmap};
use itoa::Buffer;

/// Bytes of a line `a=fmtp:` with its newline, or the most that there are where they are more.
pub(crate) fn fmtp_size(fmtp: &Fmtp) -> usize
    ensures { Counts result (length (fmtp_text fmtp.now ++ 10 ∷ [])) }
{
    digits(u32::from(fmtp.payload_type))
        .saturating_add(b"a=fmtp:\n".len())
        .saturating_add(known_size(fmtp))
        .saturating_add(others_size(fmtp.others.as_slice()))
}

/// Bytes of a line `a=rtpmap:` with its newline.
pub(crate) fn rtpmap_size(rtpmap: Rtpmap) -> usize
    ensures { Counts result (length (rtpmap_text rtpmap ++ 10 ∷ [])) }
{
    digits(u32::from(rtpmap.payload_type)).saturating_add(b"a=rtpmap: opus/48000/2\n".len())
}

// Bytes of the known parameters.
fn known_size(fmtp: &Fmtp) -> usize
    ensures { Counts result (length (params_after 32 (known_params fmtp.now))) }
{
    let mut size: usize = 0;
    for (row, number) in numbers(fmtp).iter().enumerate() {
        if let Some(number) = number {
            size = size.saturating_add(param_size(Row::at(row).name.len(), digits(*number)));
        }
    }
    size
}

// Bytes of parameters, whatever stands in front of the first.
fn others_size(params: &[Param]) -> usize
    ensures { Counts result (length (params_after 59 params.now)) }
{
    let mut size: usize = 0;
    for param in params {
        size = size.saturating_add(param_size(
            param.name.as_slice().len(),
            param.value.as_slice().len(),
        ));
    }
    size
}

// Bytes of a parameter with the byte in front of it.
fn param_size(name: usize, value: usize) -> usize
    ensures { Counts result (name + value + 2) }
{
    name.saturating_add(value).saturating_add(2)
}

// Decimal digits of a number.
fn digits(number: u32) -> usize
    ensures { result ≡ length (decimal number) }
{
    let mut buffer = Buffer::new();
    buffer.format(number).as_bytes().len()
}
