//! The group of packets that is joined, and written once the next packet doesn't go behind it.
ghost use Rattle.std.specs.Prelude.{◌≡◌, ◌↔◌, ◌+◌, ◌<◌, ◌++◌, length, vec_len, vec_capacity, Some, None, false, IsTrue, IfOk, OnOk, OnErr};
ghost use Rattle.opus_repack.specs.Collected.{with_frames};
ghost use Rattle.example_repack.specs.Groups.{Goes, group_text, Repacks};

use opus_io::NoMemory;
use opus_packet::Packet;
use opus_repack::Repacketizer;
use opus_repack::laws::parts_join_again;
use opus_writer::write_canon_self;
use std::alloc::Global;
use std::marker::Model;

/// Most samples at 48 kHz of joined packets: 60 ms.
pub const MOST_SAMPLES: u32 = 2880;

/// Joins packets of one kind up to 60 ms, and appends each group as one self-delimited packet. It keeps the group that
/// more packets may go behind.
#[derive(Drop)]
pub struct Repacker {
    frames: Repacketizer,
}

impl Model for Repacker {
    ghost use Rattle.std.specs.Prelude.{Option};
    ghost use Rattle.opus_packet.specs.Value.{PacketValue};

    ghost Value = { Option PacketValue };

    ghost view = { λ r. r.frames };
}

impl Repacker {
    /// A repacker without a group. All memory of its own is taken here.
    pub fn new(alloc: Global) -> Result<Repacker, NoMemory>
        ensures { IfOk result (λ r. r ≡ None) }
    {
        Ok(Repacker {
            frames: Repacketizer::new(alloc)?,
        })
    }

    /// Takes a packet. Where it doesn't go behind the group, the group is appended, and the packet begins the next one. Where
    /// there is no memory, nothing changes.
    pub fn take(&mut self, packet: &Packet<'_>, out: &mut Vec<u8>) -> Result<(), NoMemory>
        ensures ok { OnOk result (Repacks self.old packet.now.value self.new out.old.items out.new.items) }
        ensures kept { OnErr result (self.new ≡ self.old) }
        ensures err { OnErr result (out.new.items ≡ out.old.items) }
        ensures full { OnErr result (vec_capacity out.old < vec_len out.old + length (group_text self.old)) }
    {
        if self.join(packet) {
            return Ok(());
        }
        self.write(out)?;
        self.begin(packet);
        Ok(())
    }

    /// Appends the group, and keeps none. Where there is no memory, nothing changes.
    pub fn finish(&mut self, out: &mut Vec<u8>) -> Result<(), NoMemory>
        ensures ok { OnOk result (out.new.items ≡ out.old.items ++ group_text self.old) }
        ensures none { OnOk result (self.new ≡ None) }
        ensures kept { OnErr result (self.new ≡ self.old) }
        ensures err { OnErr result (out.new.items ≡ out.old.items) }
        ensures full { OnErr result (vec_capacity out.old < vec_len out.old + length (group_text self.old)) }
    {
        self.write(out)?;
        self.frames.clear();
        Ok(())
    }

    // Joins the packet to the group where it goes behind it, and tells whether it does.
    fn join(&mut self, packet: &Packet<'_>) -> bool
        ensures goes { IsTrue result ↔ Goes self.old packet.now.value }
        ensures joined { IsTrue result → self.new ≡ Some (with_frames self.old packet.now.value) }
        ensures same { result ≡ false → self.new ≡ self.old }
    {
        if self.frames.duration() + packet.duration() > MOST_SAMPLES {
            return false;
        }
        self.frames.cat(packet).is_ok()
    }

    // Appends the group as one packet, or nothing where there is none.
    fn write(&self, out: &mut Vec<u8>) -> Result<(), NoMemory>
        ensures ok { OnOk result (out.new.items ≡ out.old.items ++ group_text self.now) }
        ensures err { OnErr result (out.new.items ≡ out.old.items) }
        ensures full { OnErr result (vec_capacity out.old < vec_len out.old + length (group_text self.now)) }
    {
        let count = self.frames.count();
        if count == 0 {
            return Ok(());
        }
        parts_join_again();
        write_canon_self(&self.frames.part(0, count), out)
    }

    // Begins a group with the packet.
    fn begin(&mut self, packet: &Packet<'_>)
        ensures { self.new ≡ Some packet.now.value }
    {
        self.frames.clear();
        let _ = self.frames.cat(packet);
    }
}
