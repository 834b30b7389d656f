//! A line read and printed.
ghost use Rattle.std.specs.Prelude.{◌≡◌, ◌⊎◌, ◌∷◌, ◌++◌, [], IsTrue, None, Some, OnOk, IfErr};
ghost use Rattle.opus_sdp.specs.Text.{is_line};
ghost use Rattle.opus_sdp.specs.Grammar.{are_blank};
ghost use Rattle.opus_sdp.specs.SdpLine.{sdp_fault, sdp_text};
ghost use Rattle.text_jobs.specs.Sdp.{sdp_in};

use opus_sdp::{SdpFault, read_fmtp, read_rtpmap, write_fmtp, write_rtpmap};
use std::alloc::Global;

/// Whether a line is of blanks alone, or empty.
pub(crate) fn are_blank(line: &[u8]) -> bool
    ensures { result ≡ are_blank line.now }
{
    line.iter().all(|byte| is_blank(*byte))
}

fn is_blank(byte: u8) -> bool
    ensures { result ≡ Rattle.opus_sdp.specs.Text.is_blank byte }
{
    byte == b' ' || byte == b'\t' || byte == b'\r'
}

/// Appends what a line says in its printed form, and a newline.
pub(crate) fn print_line(alloc: Global, line: &[u8], out: &mut Vec<u8>) -> Result<(), SdpFault>
    requires { IsTrue (is_line line.now) }
    ensures none { OnOk result (sdp_fault line.now ≡ None) }
    ensures ok { OnOk result (out.new.items ≡ out.old.items ++ (sdp_text (sdp_in line.now) ++ 10 ∷ [])) }
    ensures fault { IfErr result (λ fault. (fault ≡ SdpFault.NoMemory) ⊎ (sdp_fault line.now ≡ Some fault)) }
{
    if line.starts_with(b"a=rtpmap:") {
        write_rtpmap(read_rtpmap(line)?, out)?;
    } else {
        write_fmtp(&read_fmtp(alloc, line)?, out)?;
    }
    Ok(())
}
