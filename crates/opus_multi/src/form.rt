//! The written forms of one packet.
ghost use Rattle.std.specs.Prelude.{◌≡◌, ◌+◌, ◌++◌, ◌<◌, ◌≤◌, length, vec_len, vec_capacity, OnOk, OnErr};
ghost use Rattle.opus_packet.specs.Tail.{IsKept};

use opus_io::NoMemory;
use opus_packet::Packet;
use opus_writer::{
    canon_self_size, canon_size, keep_self_size, keep_size, write_canon, write_canon_self,
    write_keep, write_keep_self,
};

/// A written form of one packet.
#[derive(Clone, Copy)]
pub(crate) enum Form {
    /// Canonical, without padding bytes.
    Canonical,
    /// The same, self-delimited.
    CanonicalSelf,
    /// With the padding bytes.
    Kept,
    /// The same, self-delimited.
    KeptSelf,
}

impl Form {
    ghost use Rattle.opus_multi.specs.Parts.{held_in};
    ghost use Rattle.opus_multi.specs.WrittenForms.{spelled_as};

    /// Bytes of the packet in this form.
    pub fn size(self, packet: &Packet<'_>) -> u32
        requires { IsKept packet.now.tail }
        ensures { result ≡ length (spelled_as self (held_in packet.now)) }
    {
        match self {
            Form::Canonical => canon_size(packet),
            Form::CanonicalSelf => canon_self_size(packet),
            Form::Kept => keep_size(packet),
            Form::KeptSelf => keep_self_size(packet),
        }
    }

    /// Appends the packet in this form.
    pub fn write(self, packet: &Packet<'_>, out: &mut Vec<u8>) -> Result<(), NoMemory>
        requires { IsKept packet.now.tail }
        ensures ok { OnOk result (out.new.items ≡ out.old.items ++ spelled_as self (held_in packet.now)) }
        ensures err { OnErr result (out.new.items ≡ out.old.items) }
        ensures full { OnErr result
            (vec_capacity out.old < vec_len out.old + length (spelled_as self (held_in packet.now))) }
        ensures capacity { vec_capacity out.old ≤ vec_capacity out.new }
    {
        match self {
            Form::Canonical => write_canon(packet, out),
            Form::CanonicalSelf => write_canon_self(packet, out),
            Form::Kept => write_keep(packet, out),
            Form::KeptSelf => write_keep_self(packet, out),
        }
    }
}
