//! The lines of a packet: one of the packet, and one of each of its frames.
ghost use Rattle.std.specs.Prelude.{◌≡◌, ◌+◌, ◌≤◌, ◌++◌, [], OnOk, OnErr, length};
ghost use Rattle.std.specs.Io.KnownBytes.{Appends};
ghost use Rattle.opus_io.specs.Sink.{SinkCause, Onward};
ghost use Rattle.job_loop.specs.Telling.{Front};
ghost use Rattle.opus_toc.specs.Flags.{frame_flags};
ghost use Rattle.pack_jobs.specs.PacketLines.{mode_name, band_name, channels_name, stream_name, kind_text, spelling_text, packet_line, channel_text, side_text, flags_text, frame_line, frame_lines, packet_lines};

use crate::line::Line;
use opus_io::{Sink, SinkStop, write_all};
use opus_packet::{Packet, Shape};
use opus_toc::{Band, Flags, Mode, Toc, flags};

// Room for the line of a packet in bytes, where each number has 20 digits.
const PACKET: usize = 256;

// The same for the line of a frame.
const FRAME: usize = 128;

/// Writes the lines of a packet that is stream `stream` of record `number`, in the shape and the size in bytes that it was
/// spelled in.
pub fn write_packet_lines<O: Sink>(
    number: u64,
    stream: u8,
    shape: Shape,
    size: u32,
    packet: &Packet<'_>,
    out: &mut O,
) -> Result<(), SinkStop>
    ensures ok { OnOk result (Appends (O.contents out.old) (O.contents out.new)
        (packet_lines number stream shape size packet.now.value)) }
    ensures front { OnErr result (Front (packet_lines number stream shape size packet.now.value)
        (O.contents out.old) (O.contents out.new)) }
    ensures cause { SinkCause (O.faults out.old) (O.faults out.new)
        (O.refusals out.old) (O.refusals out.new) result }
    ensures onward { Onward (O.onto out.old) (O.onto out.new) (O.handed out.old) (O.handed out.new) }
{
    let mut line = Line::<PACKET>::new();
    push_packet(number, stream, shape, size, packet, &mut line);
    write_all(out, line.as_slice())?;
    write_frame_lines(number, stream, packet, out)
}

// Puts the line of the packet where no text is yet.
#[tactic(auto, using(crate::proofs::PacketLineLemmas::packet_pieces))]
fn push_packet(
    number: u64,
    stream: u8,
    shape: Shape,
    size: u32,
    packet: &Packet<'_>,
    line: &mut Line<PACKET>,
)
    requires { line.old ≡ [] }
    ensures { line.new ≡ packet_line number stream shape size packet.now.value }
{
    line.piece(b"\n");
    push_spelling(shape, packet.count(), size, line);
    line.piece(b", ");
    push_kind(packet.toc(), line);
    line.piece(b": ");
    push_stream(number, stream, line);
}

// Writes a line for each frame.
fn write_frame_lines<O: Sink>(
    number: u64,
    stream: u8,
    packet: &Packet<'_>,
    out: &mut O,
) -> Result<(), SinkStop>
    ensures ok { OnOk result (Appends (O.contents out.old) (O.contents out.new)
        (frame_lines number stream 0 packet.now.value.config packet.now.value.stereo packet.now.value.frames)) }
    ensures front { OnErr result
        (Front (frame_lines number stream 0 packet.now.value.config packet.now.value.stereo packet.now.value.frames)
        (O.contents out.old) (O.contents out.new)) }
    ensures cause { SinkCause (O.faults out.old) (O.faults out.new)
        (O.refusals out.old) (O.refusals out.new) result }
    ensures onward { Onward (O.onto out.old) (O.onto out.new) (O.handed out.old) (O.handed out.new) }
{
    let toc = packet.toc();
    let mut frames = packet.frames();
    'frames: for index in 0..packet.count() as u64 {
        if let Some(frame) = frames.next() {
            write_frame_line(number, stream, index, toc, frame, out)?;
        }
    }
    Ok(())
}

// Writes the line of frame `index` of a packet with this TOC.
#[tactic(auto, using(crate::proofs::PacketLineLemmas::frame_pieces))]
fn write_frame_line<O: Sink>(
    number: u64,
    stream: u8,
    index: u64,
    toc: Toc,
    frame: &[u8],
    out: &mut O,
) -> Result<(), SinkStop>
    ensures ok { OnOk result (Appends (O.contents out.old) (O.contents out.new)
        (frame_line number stream index toc.config toc.stereo frame.now)) }
    ensures front { OnErr result (Front (frame_line number stream index toc.config toc.stereo frame.now)
        (O.contents out.old) (O.contents out.new)) }
    ensures cause { SinkCause (O.faults out.old) (O.faults out.new)
        (O.refusals out.old) (O.refusals out.new) result }
    ensures onward { Onward (O.onto out.old) (O.onto out.new) (O.handed out.old) (O.handed out.new) }
{
    let mut line = Line::<FRAME>::new();
    line.piece(b"\n");
    push_flags(toc, frame, &mut line);
    line.piece(b" bytes");
    line.number(frame.len() as u64);
    line.piece(b": ");
    line.number(index);
    line.piece(b".");
    push_stream(number, stream, &mut line);
    write_all(out, line.as_slice())
}

// Puts `K.S` before a text.
fn push_stream<const N: usize>(number: u64, stream: u8, line: &mut Line<N>)
    requires { 41 + length line.old ≤ N }
    ensures { line.new ≡ stream_name number stream ++ line.old }
{
    line.number(u64::from(stream));
    line.piece(b".");
    line.number(number);
}

// Puts `config C MODE BAND N samples CH` before a text.
#[tactic(auto, using(crate::proofs::PacketLineLemmas::kind_before))]
fn push_kind<const N: usize>(toc: Toc, line: &mut Line<N>)
    requires { 74 + length line.old ≤ N }
    ensures text { line.new ≡ kind_text toc.config toc.stereo ++ line.old }
    ensures most { length line.new ≤ 74 + length line.old }
{
    line.piece(channels_name(toc.stereo));
    line.piece(b" samples ");
    line.number(u64::from(toc.samples()));
    line.piece(b" ");
    line.piece(band_name(toc.bandwidth()));
    line.piece(b" ");
    line.piece(mode_name(toc.mode()));
    line.piece(b" ");
    line.number(u64::from(toc.config));
    line.piece(b"config ");
}

// Puts `code X, M frames, pad P, B bytes` before a text.
#[tactic(auto, using(crate::proofs::PacketLineLemmas::spelling_before))]
fn push_spelling<const N: usize>(shape: Shape, count: usize, size: u32, line: &mut Line<N>)
    requires { 108 + length line.old ≤ N }
    ensures text { line.new ≡ spelling_text shape count size ++ line.old }
    ensures most { length line.new ≤ 108 + length line.old }
{
    line.piece(b" bytes");
    line.number(u64::from(size));
    line.piece(b", ");
    line.number(u64::from(shape.pad));
    line.piece(b" frames, pad ");
    line.number(count as u64);
    line.piece(b", ");
    line.number(u64::from(shape.code));
    line.piece(b"code ");
}

// Puts the flags of a frame before a text, if it has some.
#[tactic(auto, using(crate::proofs::PacketLineLemmas::flags_count))]
fn push_flags<const N: usize>(toc: Toc, frame: &[u8], line: &mut Line<N>)
    requires { 31 + length line.old ≤ N }
    ensures text { line.new ≡ flags_text toc.stereo (frame_flags toc.config toc.stereo frame.now) ++ line.old }
    ensures most { length line.new ≤ 31 + length line.old }
{
    if let Some(flags) = flags(toc, frame) {
        push_side(toc.stereo, flags, line);
        push_channel(
            b" mid ",
            flags.silk_frames,
            flags.vad_mid,
            flags.lbrr_mid,
            line,
        );
    }
}

// Puts the flags of side before a text, in stereo.
fn push_side<const N: usize>(stereo: bool, flags: Flags, line: &mut Line<N>)
    requires count { flags.silk_frames ≤ 8 }
    requires room { 16 + length line.old ≤ N }
    ensures text { line.new ≡ side_text stereo flags ++ line.old }
    ensures most { length line.new ≤ 16 + length line.old }
{
    if stereo {
        push_channel(
            b" side ",
            flags.silk_frames,
            flags.vad_side,
            flags.lbrr_side,
            line,
        );
    }
}

// Puts ` NAME V/F` before a text.
fn push_channel<const N: usize>(name: &[u8], count: u8, vad: u8, lbrr: bool, line: &mut Line<N>)
    requires name { length name.now ≤ 6 }
    requires count { count ≤ 8 }
    requires room { 10 + length name.now + length line.old ≤ N }
    ensures text { line.new ≡ channel_text name.now count vad lbrr ++ line.old }
    ensures most { length line.new ≤ 10 + length name.now + length line.old }
{
    line.piece(if lbrr { b"1" } else { b"0" });
    line.piece(b"/");
    line.bits(count, vad);
    line.piece(name);
}

fn mode_name(mode: Mode) -> &'static [u8]
    ensures name { result.now ≡ mode_name mode }
    ensures most { length result.now ≤ 6 }
{
    match mode {
        Mode::Silk => b"silk",
        Mode::Hybrid => b"hybrid",
        Mode::Celt => b"celt",
    }
}

fn band_name(band: Band) -> &'static [u8]
    ensures name { result.now ≡ band_name band }
    ensures most { length result.now ≤ 3 }
{
    match band {
        Band::Narrow => b"nb",
        Band::Medium => b"mb",
        Band::Wide => b"wb",
        Band::SuperWide => b"swb",
        Band::Full => b"fb",
    }
}

fn channels_name(stereo: bool) -> &'static [u8]
    ensures name { result.now ≡ channels_name stereo }
    ensures most { length result.now ≤ 6 }
{
    if stereo { b"stereo" } else { b"mono" }
}
