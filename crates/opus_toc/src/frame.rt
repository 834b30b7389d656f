//! Reading the flags of a SILK or Hybrid frame.
ghost use Rattle.std.specs.Prelude.{◌≡◌, ◌≤◌, ◌↔◌, ◌⊎◌, [], None};
ghost use Rattle.opus_toc.specs.Configuration.{samples_of, mode_of};
ghost use Rattle.opus_toc.specs.Flags.{silk_frames_in, flags_in, frame_flags};

use crate::{Flags, Mode, Toc};

/// The flags of `frame` in a packet with this TOC. A CELT frame and one without data have none.
pub fn flags(toc: Toc, frame: &[u8]) -> Option<Flags>
    ensures exact { result ≡ frame_flags toc.config toc.stereo frame.now }
    ensures none { (result ≡ None) ↔ ((mode_of toc.config ≡ Mode.Celt) ⊎ (frame.now ≡ [])) }
{
    match (toc.mode(), frame) {
        (Mode::Silk | Mode::Hybrid, [first, ..]) => {
            Some(flags_in(silk_frames(toc), toc.stereo, *first))
        }
        _ => None,
    }
}

// SILK frames of each channel of a frame, one for each 20 ms begun.
#[tactic(auto, using(crate::proofs::Table::bounds))]
fn silk_frames(toc: Toc) -> u8
    ensures count { result ≡ silk_frames_in (samples_of toc.config) }
    ensures least { 1 ≤ result }
    ensures most { result ≤ 3 }
{
    toc.samples().div_ceil(960) as u8
}

// The flags of a frame with so many SILK frames.
fn flags_in(silk_frames: u8, stereo: bool, first: u8) -> Flags
    requires least { 1 ≤ silk_frames }
    requires most { silk_frames ≤ 3 }
    ensures { result ≡ flags_in silk_frames stereo first }
{
    // The bits of mid, and those of side behind them.
    let (mid, behind) = match silk_frames {
        1 => (first / 64, first / 16 % 4),
        2 => (first / 32, first / 4 % 8),
        _ => (first / 16, first % 16),
    };
    let side = if stereo { behind } else { 0 };
    Flags {
        silk_frames,
        vad_mid: mid / 2,
        lbrr_mid: mid % 2 == 1,
        vad_side: side / 2,
        lbrr_side: side % 2 == 1,
    }
}
