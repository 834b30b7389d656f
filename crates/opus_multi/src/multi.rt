//! Reading a multistream packet (RFC 7845, section 3).
ghost use Rattle.std.specs.Prelude.{◌≡◌, ℕ, ◌-◌, ◌≤◌, List, [], ◌∷◌, ◌++◌, false, length, drop, Err, IfOk, IfErr};
ghost use Rattle.opus_packet.specs.Value.{PacketValue};
ghost use Rattle.opus_multi.specs.Multistream.{IsMultistream};
ghost use Rattle.opus_multi.specs.MultiAnswers.{IsSomeMultistream};
ghost use Rattle.opus_multi.specs.Readings.{AreRead, IsFaultOf, IsOkUnlessFull, ReadSoFar};

use crate::durations::Durations;
use crate::fault::MultiFault;
use opus_packet::{Packet, decode};
use opus_self::decode_self;
use std::alloc::Global;
use std::marker::Model;

/// The packets of all streams, in order. Their frames borrow from the bytes that were read.
#[derive(Drop)]
pub struct Multi<'a> {
    packets: Vec<Packet<'a>>,
}

impl<'a> Model for Multi<'a> {
    ghost use Rattle.std.specs.Prelude.{List};
    ghost use Rattle.opus_packet.specs.Read.{PacketRead};

    ghost Value = { List PacketRead };

    ghost view = { λ m. m.packets.items };
}

impl<'a> Multi<'a> {
    ghost use Rattle.std.specs.Prelude.{◌<◌, slice_get, Some};

    /// How many streams there are, 1 to 255.
    pub fn count(&self) -> usize
        ensures { result ≡ length self.now }
    {
        self.packets.len()
    }

    /// The packet of stream `k`, from 0.
    pub fn stream(&self, k: usize) -> &Packet<'a>
        requires { k < length self.now }
        ensures { slice_get self.now k ≡ Some result.now }
    {
        &self.packets[k]
    }
}

/// Reads the whole of `bytes` as a multistream packet of so many streams: self-delimited packets of all but the last,
/// and then an undelimited one, all of one duration (RFC 7845, section 3). A stream that doesn't read comes before
/// unequal durations, and want of memory last: where there is none, the streams that are left are read without being
/// kept. Padding bytes are kept up to 65,535 of each packet.
pub fn decode_multi(alloc: Global, bytes: &[u8], streams: u8) -> Result<Multi<'_>, MultiFault>
    requires { 1 ≤ streams }
    // What is read is spelled so, each byte of it; and what is spelled so is read, where memory is found.
    ensures found { IfOk result (λ m. AreRead streams bytes.now m) }
    ensures only { (vs : List PacketValue) (qs : List (List ℕ)) → length vs ≡ streams
        → IsMultistream vs qs bytes.now → IsOkUnlessFull result }
    ensures fault { IfErr result (λ f. IsFaultOf streams bytes.now f) }
    // Want of memory comes only where there is no other fault.
    ensures last { result ≡ Err MultiFault.NoMemory → IsSomeMultistream streams bytes.now }
{
    let mut packets = Vec::new(alloc);
    let mut full = false;
    let mut durations = Durations::new();
    let mut rest = bytes;
    for k in 0..streams - 1 {
        let read = match decode_self(rest) {
            Ok(read) => read,
            Err(fault) => return Err(MultiFault::Stream(k, fault)),
        };
        durations.add(usize::from(k), read.packet.duration());
        rest = behind(rest, read.used);
        full = keep(&mut packets, read.packet, full);
    }
    end(rest, streams, durations, packets, full)
}

// Keeps a packet, unless memory was refused before. Whether it is refused by now.
fn keep<'a>(packets: &mut Vec<Packet<'a>>, packet: Packet<'a>, full: bool) -> bool
    ensures before { result ≡ false → full ≡ false }
    ensures kept { result ≡ false → packets.new.items ≡ packets.old.items ++ packet.entry ∷ [] }
{
    full || packets.push(packet).is_err()
}

// The bytes behind so many.
pub(crate) fn behind(bytes: &[u8], at: usize) -> &[u8]
    requires { at ≤ length bytes.now }
    ensures { result.now ≡ drop at bytes.now }
{
    &bytes[at..]
}

// Behind the packets of all streams but the last: `rest` is the last one. `full` where memory was refused.
fn end<'a>(
    rest: &'a [u8],
    streams: u8,
    durations: Durations,
    packets: Vec<Packet<'a>>,
    full: bool,
) -> Result<Multi<'a>, MultiFault>
    requires { 1 ≤ streams }
    ensures found { (bytes : List ℕ) → ReadSoFar (streams - 1) bytes rest.now durations full packets.entry.items
        → IfOk result (λ m. AreRead streams bytes m) }
    ensures fault { (bytes : List ℕ) → ReadSoFar (streams - 1) bytes rest.now durations full packets.entry.items
        → IfErr result (λ f. IsFaultOf streams bytes f) }
    ensures last { (bytes : List ℕ) → ReadSoFar (streams - 1) bytes rest.now durations full packets.entry.items
        → result ≡ Err MultiFault.NoMemory → IsSomeMultistream streams bytes }
{
    let last = streams - 1;
    let mut durations = durations;
    let mut packets = packets;
    let packet = match decode(rest) {
        Ok(packet) => packet,
        Err(fault) => return Err(MultiFault::Stream(last, fault)),
    };
    durations.add(usize::from(last), packet.duration());
    let full = keep(&mut packets, packet, full);
    match durations.other {
        Some(other) => Err(MultiFault::Unequal(other.min(254) as u8)),
        None if full => Err(MultiFault::NoMemory),
        None => Ok(Multi { packets }),
    }
}
