//! Records written to a sink, in each form.
ghost use Rattle.std.specs.Prelude.{◌≡◌, ◌^◌, ◌<◌, ◌≤◌, ◌++◌, [], length, OnOk, OnErr};
ghost use Rattle.std.specs.List.{concat};
ghost use Rattle.std.specs.Io.KnownBytes.{Appends};
ghost use Rattle.opus_io.specs.Sink.{SinkCause, Onward};
ghost use Rattle.job_loop.specs.Telling.{Front};
ghost use Rattle.pack_jobs.specs.Records.{record_bytes, canonical_record};

use arrayvec::ArrayVec;
use job_loop::write_both;
use opus_io::{Sink, SinkStop, write_all};
use opus_packet::Packet;
use opus_words::Form;
use opus_writer::{canon_size, push_canon_header, push_canon_self_header};
use rec_store::demo_head;

// Most bytes before the frames: a store's head of 8 and a packet's header of 98.
const FRONT: usize = 106;

/// Writes the bytes of a packet, or none, as a record of this form.
#[inline(always)]
pub fn write_record<O: Sink>(
    form: Form,
    range: u32,
    bytes: &[u8],
    out: &mut O,
) -> Result<(), SinkStop>
    requires { length bytes.now < 2 ^ 32 }
    ensures ok { OnOk result (Appends (O.contents out.old) (O.contents out.new)
        (record_bytes form range bytes.now)) }
    ensures front { OnErr result (Front (record_bytes form range bytes.now)
        (O.contents out.old) (O.contents out.new)) }
    ensures cause { SinkCause (O.faults out.old) (O.faults out.new)
        (O.refusals out.old) (O.refusals out.new) result }
    ensures onward { Onward (O.onto out.old) (O.onto out.new) (O.handed out.old) (O.handed out.new) }
{
    match form {
        Form::Demo => write_both(out, &demo_head(bytes.len() as u32, range), bytes),
        Form::Raw => write_all(out, bytes),
        Form::SelfDelimited => write_all(out, bytes),
    }
}

/// Writes a packet in its canonical form as a record of this form, in two pieces: what stands before the frames, and
/// the frames.
#[inline(always)]
pub fn write_packet<O: Sink>(
    form: Form,
    range: u32,
    packet: &Packet<'_>,
    out: &mut O,
) -> Result<(), SinkStop>
    ensures ok { OnOk result (Appends (O.contents out.old) (O.contents out.new)
        (canonical_record form range packet.now.value)) }
    ensures front { OnErr result (Front (canonical_record form range packet.now.value)
        (O.contents out.old) (O.contents out.new)) }
    ensures cause { SinkCause (O.faults out.old) (O.faults out.new)
        (O.refusals out.old) (O.refusals out.new) result }
    ensures onward { Onward (O.onto out.old) (O.onto out.new) (O.handed out.old) (O.handed out.new) }
{
    let mut front = ArrayVec::new();
    push_front(form, range, packet, &mut front);
    write_both(out, front.as_slice(), packet.body())
}

// Puts what stands before the frames of such a record.
#[inline(always)]
fn push_front(form: Form, range: u32, packet: &Packet<'_>, front: &mut ArrayVec<u8, FRONT>)
    requires { front.old.items ≡ [] }
    ensures { front.new.items ++ concat packet.now.value.frames
        ≡ canonical_record form range packet.now.value }
{
    match form {
        Form::Raw => push_canon_header(packet, front),
        Form::Demo => {
            front
                .try_extend_from_slice(&demo_head(canon_size(packet), range))
                .unwrap();
            push_canon_header(packet, front);
        }
        Form::SelfDelimited => push_canon_self_header(packet, front),
    }
}
