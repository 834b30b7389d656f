//! Whether a packet is lent in its canonical form, and how long it lasts.
ghost use Rattle.std.specs.Prelude.{◌≡◌, IfSome};
ghost use Rattle.opus_feed.specs.declared.framing.Framing.TheVariants.{Whole};
ghost use Rattle.pack_records.specs.Fits.{IsForm};
ghost use Rattle.net_jobs.specs.Plain.{IsPlain, plain_frames};

use opus_feed::Framing;
use opus_toc::Toc;

/// How many samples a packet lasts that is lent in its kept form, where that is its canonical form: it isn't
/// self-delimited, and has no padding.
#[inline(always)]
pub(crate) fn plain_samples(framing: Framing, bytes: &[u8]) -> Option<u32>
    requires { IsForm framing bytes.now }
    ensures { IfSome result (λ n. IsPlain framing bytes.now n) }
{
    match framing {
        Framing::Whole => whole_samples(bytes),
        Framing::SelfDelimited => None,
    }
}

// The same of an undelimited packet, by its first bytes (RFC 6716, 3.1).
#[inline(always)]
fn whole_samples(bytes: &[u8]) -> Option<u32>
    requires { IsForm Whole bytes.now }
    ensures { IfSome result (λ n. IsPlain Whole bytes.now n) }
{
    let (first, rest) = bytes.split_first()?;
    let toc = Toc::of_byte(*first);
    let frames = plain_frames(toc.code, rest)?;
    Some(u32::from(frames) * toc.samples())
}

// How many frames a packet of this code has, by what stands behind its TOC byte, where it has no padding.
#[inline(always)]
fn plain_frames(code: u8, rest: &[u8]) -> Option<u8>
    ensures { result ≡ plain_frames code rest.now }
{
    match code {
        0 => Some(1),
        1 => Some(2),
        2 => Some(2),
        _ if rest.is_empty() => None,
        _ if rest[0] / 64 % 2 == 1 => None,
        _ => Some(rest[0] % 64),
    }
}
