//! The written forms to a sink: a few pieces, with no list between.
ghost use Rattle.opus_packet.specs.Tail.{IsKept};
ghost use Rattle.opus_packet.specs.Canonical.{canonical, canonical_self_delimited};
ghost use Rattle.std.specs.Prelude.{◌++◌};
ghost use Rattle.opus_io.specs.Sink.{SinkCause, Onward};
ghost use Rattle.opus_writer.specs.Forms.{kept_of, kept_self_of, canonical_in, kept_of_in};
ghost use Rattle.opus_writer.specs.Puts.{Puts};

use crate::header::{push_canon_in, push_keep_in};
use crate::size::tail_bytes;
use arrayvec::ArrayVec;
use opus_io::{Sink, SinkStop, write_all};
use opus_packet::Packet;

/// Writes the canonical form. A stop is the sink's own, and after it a front of the form is written; it takes no
/// memory of its own.
#[inline(always)]
pub fn put_canon<O: Sink>(packet: &Packet<'_>, sink: &mut O) -> Result<(), SinkStop>
    ensures bytes { Puts (O.contents sink.old) (O.contents sink.new) (canonical packet.now.value) result }
    ensures cause { SinkCause (O.faults sink.old) (O.faults sink.new)
        (O.refusals sink.old) (O.refusals sink.new) result }
    ensures onward { Onward (O.onto sink.old) (O.onto sink.new) (O.handed sink.old) (O.handed sink.new) }
{
    put_canon_in(packet, false, sink)
}

/// Writes the canonical self-delimited form, with stops as those of `put_canon`.
#[inline(always)]
pub fn put_canon_self<O: Sink>(packet: &Packet<'_>, sink: &mut O) -> Result<(), SinkStop>
    ensures bytes { Puts (O.contents sink.old) (O.contents sink.new)
        (canonical_self_delimited packet.now.value) result }
    ensures cause { SinkCause (O.faults sink.old) (O.faults sink.new)
        (O.refusals sink.old) (O.refusals sink.new) result }
    ensures onward { Onward (O.onto sink.old) (O.onto sink.new) (O.handed sink.old) (O.handed sink.new) }
{
    put_canon_in(packet, true, sink)
}

/// Writes the kept form, with stops as those of `put_canon`.
#[inline(always)]
pub fn put_keep<O: Sink>(packet: &Packet<'_>, sink: &mut O) -> Result<(), SinkStop>
    requires { IsKept packet.now.tail }
    ensures bytes { Puts (O.contents sink.old) (O.contents sink.new) (kept_of packet.now) result }
    ensures cause { SinkCause (O.faults sink.old) (O.faults sink.new)
        (O.refusals sink.old) (O.refusals sink.new) result }
    ensures onward { Onward (O.onto sink.old) (O.onto sink.new) (O.handed sink.old) (O.handed sink.new) }
{
    put_keep_in(packet, false, sink)
}

/// Writes the kept self-delimited form, with stops as those of `put_canon`.
#[inline(always)]
pub fn put_keep_self<O: Sink>(packet: &Packet<'_>, sink: &mut O) -> Result<(), SinkStop>
    requires { IsKept packet.now.tail }
    ensures bytes { Puts (O.contents sink.old) (O.contents sink.new) (kept_self_of packet.now) result }
    ensures cause { SinkCause (O.faults sink.old) (O.faults sink.new)
        (O.refusals sink.old) (O.refusals sink.new) result }
    ensures onward { Onward (O.onto sink.old) (O.onto sink.new) (O.handed sink.old) (O.handed sink.new) }
{
    put_keep_in(packet, true, sink)
}

// Writes the canonical form, self-delimited where `own` says so.
#[inline(always)]
fn put_canon_in<O: Sink>(packet: &Packet<'_>, own: bool, sink: &mut O) -> Result<(), SinkStop>
    ensures bytes { Puts (O.contents sink.old) (O.contents sink.new) (canonical_in own packet.now.value) result }
    ensures cause { SinkCause (O.faults sink.old) (O.faults sink.new)
        (O.refusals sink.old) (O.refusals sink.new) result }
    ensures onward { Onward (O.onto sink.old) (O.onto sink.new) (O.handed sink.old) (O.handed sink.new) }
{
    let mut header: ArrayVec<u8, 98> = ArrayVec::new();
    push_canon_in(packet, own, &mut header);
    put_two(header.as_slice(), packet.body(), sink)
}

// Writes the kept form, self-delimited where `own` says so.
#[inline(always)]
fn put_keep_in<O: Sink>(packet: &Packet<'_>, own: bool, sink: &mut O) -> Result<(), SinkStop>
    requires { IsKept packet.now.tail }
    ensures bytes { Puts (O.contents sink.old) (O.contents sink.new) (kept_of_in own packet.now) result }
    ensures cause { SinkCause (O.faults sink.old) (O.faults sink.new)
        (O.refusals sink.old) (O.refusals sink.new) result }
    ensures onward { Onward (O.onto sink.old) (O.onto sink.new) (O.handed sink.old) (O.handed sink.new) }
{
    let tail = tail_bytes(packet);
    let mut header: ArrayVec<u8, 360> = ArrayVec::new();
    push_keep_in(packet, own, tail.len() as u32, &mut header);
    put_three(header.as_slice(), packet.body(), tail, sink)
}

// Writes one piece behind another.
#[inline(always)]
fn put_two<O: Sink>(first: &[u8], second: &[u8], sink: &mut O) -> Result<(), SinkStop>
    ensures bytes { Puts (O.contents sink.old) (O.contents sink.new) (first.now ++ second.now) result }
    ensures cause { SinkCause (O.faults sink.old) (O.faults sink.new)
        (O.refusals sink.old) (O.refusals sink.new) result }
    ensures onward { Onward (O.onto sink.old) (O.onto sink.new) (O.handed sink.old) (O.handed sink.new) }
{
    write_all(sink, first)?;
    write_all(sink, second)
}

// Writes three pieces, one behind another.
#[inline(always)]
fn put_three<O: Sink>(
    first: &[u8],
    second: &[u8],
    third: &[u8],
    sink: &mut O,
) -> Result<(), SinkStop>
    ensures bytes { Puts (O.contents sink.old) (O.contents sink.new) (first.now ++ second.now ++ third.now) result }
    ensures cause { SinkCause (O.faults sink.old) (O.faults sink.new)
        (O.refusals sink.old) (O.refusals sink.new) result }
    ensures onward { Onward (O.onto sink.old) (O.onto sink.new) (O.handed sink.old) (O.handed sink.new) }
{
    put_two(first, second, sink)?;
    write_all(sink, third)
}
