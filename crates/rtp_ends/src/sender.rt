//! Sending packets.
ghost use Rattle.std.specs.Prelude.{◌≡◌, ◌+◌, ◌^◌, ◌<◌, ◌≤◌, ◌++◌, ◌∷◌, [], List, Option, Some, None, false, length, vec_len, vec_capacity, OnOk, OnErr};
ghost use Rattle.opus_packet.specs.Canonical.{canonical};
ghost use Rattle.opus_packet.specs.Value.{PacketValue, duration_of};
ghost use Rattle.rtp_packet.specs.RtpRead.{plain_bytes};

use opus_io::NoMemory;
use opus_packet::Packet;
use opus_writer::{canon_size, write_canon};
use rtp_packet::{RtpFields, write_rtp};
use std::marker::Model;

/// Numbers and stamps the packets of one stream (RFC 3550, 5.1; RFC 7587, 4.1).
#[derive(Drop)]
pub struct Sender {
    first: RtpFields,
    sent: u64,
    elapsed: u64,
    step: u32,
}

impl Model for Sender {
    ghost use Rattle.rtp_ends.specs.Sends.{SenderState};

    ghost Value = { SenderState };

    ghost use Rattle.rtp_ends.specs.Sends.{state_inside, IsSenderInside};

    ghost view = { state_inside };

    ghost invariant = { IsSenderInside };
}

impl Sender {
    ghost use Rattle.rtp_ends.specs.Sent.{fields_behind, packet_bytes, first_fields};
    ghost use Rattle.rtp_ends.specs.Sends.{SenderStands, next_fields, passed};

    /// A sender whose first packet has this sequence number and this timestamp, in samples at 48 kHz.
    pub fn new(seq: u16, stamp: u32, ssrc: u32, payload_type: u8) -> Sender
        requires { payload_type < 2 ^ 7 }
        ensures first { result.first ≡ first_fields seq stamp ssrc payload_type }
        ensures sent { result.sent ≡ 0 }
        ensures stands { SenderStands result [] }
    {
        let first = RtpFields {
            marker: false,
            payload_type,
            seq,
            stamp,
            ssrc,
        };
        Sender {
            first,
            sent: 0,
            elapsed: 0,
            step: 0,
        }
    }

    /// Appends one RTP packet with the packet's canonical form, and no marker. The next one has the next sequence number,
    /// and a timestamp that is this packet's duration later. Where there is no memory, nothing changes.
    pub fn send(&mut self, packet: &Packet<'_>, out: &mut Vec<u8>) -> Result<(), NoMemory>
        requires { self.old.sent < 2 ^ 40 }
        ensures ok { OnOk result ((records : List (Option PacketValue)) → SenderStands self.old records
            → out.new.items ≡ out.old.items
            ++ packet_bytes self.old.first records packet.now.value) }
        ensures stands { OnOk result ((records : List (Option PacketValue)) → SenderStands self.old records
            → SenderStands self.new (records ++ Some packet.now.value ∷ [])) }
        ensures sent { OnOk result (self.new.sent ≡ self.old.sent + 1) }
        ensures first { self.new.first ≡ self.old.first }
        ensures length { OnOk result (vec_len out.new
            ≡ vec_len out.old + (12 + length (canonical packet.now.value))) }
        ensures most { length (canonical packet.now.value) ≤ 61295 }
        ensures err { OnErr result (out.new.items ≡ out.old.items) }
        ensures kept { OnErr result (self.new ≡ self.old) }
        ensures full { OnErr result (vec_capacity out.old
            < vec_len out.old + (12 + length (canonical packet.now.value))) }
        ensures capacity { vec_capacity out.old ≤ vec_capacity out.new }
    {
        out.reserve(12 + canon_size(packet) as usize)?;
        push_packet(self.next(), packet, out);
        self.pass(packet.duration());
        Ok(())
    }

    /// The same for a packet that lies there in its canonical form already, and lasts so many samples: `form` is the payload.
    pub fn send_form(
        &mut self,
        form: &[u8],
        samples: u32,
        out: &mut Vec<u8>,
    ) -> Result<(), NoMemory>
        requires sent { self.old.sent < 2 ^ 40 }
        requires samples { samples ≤ 5760 }
        ensures ok { OnOk result ((records : List (Option PacketValue)) (v : PacketValue)
            → SenderStands self.old records → form.now ≡ canonical v
            → out.new.items ≡ out.old.items ++ packet_bytes self.old.first records v) }
        ensures stands { OnOk result ((records : List (Option PacketValue)) (v : PacketValue)
            → SenderStands self.old records → samples ≡ duration_of v
            → SenderStands self.new (records ++ Some v ∷ [])) }
        ensures sent { OnOk result (self.new.sent ≡ self.old.sent + 1) }
        ensures first { self.new.first ≡ self.old.first }
        ensures length { OnOk result (vec_len out.new ≡ vec_len out.old + (12 + length form.now)) }
        ensures err { OnErr result (out.new.items ≡ out.old.items) }
        ensures kept { OnErr result (self.new ≡ self.old) }
        ensures full { OnErr result (vec_capacity out.old < vec_len out.old + (12 + length form.now)) }
        ensures capacity { vec_capacity out.old ≤ vec_capacity out.new }
    {
        write_rtp(self.next(), form, out)?;
        self.pass(samples);
        Ok(())
    }

    /// Passes over a packet that is lost: it takes a sequence number, and as much time as the packet sent last, or none where
    /// none was sent.
    pub fn skip(&mut self)
        requires { self.old.sent < 2 ^ 40 }
        ensures stands { (records : List (Option PacketValue)) → SenderStands self.old records
            → SenderStands self.new (records ++ None ∷ []) }
        ensures sent { self.new.sent ≡ self.old.sent + 1 }
        ensures first { self.new.first ≡ self.old.first }
    {
        self.pass(self.step);
    }

    /// Packets sent, and passed over.
    pub fn sent(&self) -> u64
        ensures count { result ≡ self.now.sent }
        ensures most { result ≤ 2 ^ 40 }
    {
        self.sent
    }

    /// How much later the next packet's timestamp is than the first one's, in samples at 48 kHz.
    pub fn elapsed(&self) -> u64
        ensures { result ≡ self.now.elapsed }
    {
        self.elapsed
    }

    // One record more, which lasts so many samples.
    fn pass(&mut self, step: u32)
        requires sent { self.old.sent < 2 ^ 40 }
        requires most { step ≤ 5760 }
        ensures { self.new ≡ passed self.old step }
    {
        self.sent += 1;
        self.elapsed += u64::from(step);
        self.step = step;
    }

    // The fields of the next packet.
    fn next(&self) -> RtpFields
        ensures fields { result ≡ next_fields self.now }
        ensures fits { result.payload_type < 2 ^ 7 }
    {
        RtpFields {
            marker: false,
            seq: ((u64::from(self.first.seq) + self.sent) % 65_536) as u16,
            stamp: ((u64::from(self.first.stamp) + self.elapsed) % 4_294_967_296) as u32,
            ..self.first
        }
    }
}

// Appends a packet for which there is room.
fn push_packet(fields: RtpFields, packet: &Packet<'_>, out: &mut Vec<u8>)
    requires payload_type { fields.payload_type < 2 ^ 7 }
    requires room { vec_len out.old + (12 + length (canonical packet.now.value)) ≤ vec_capacity out.old }
    ensures bytes { out.new.items ≡ out.old.items ++ plain_bytes fields (canonical packet.now.value) }
    ensures length { vec_len out.new ≡ vec_len out.old + (12 + length (canonical packet.now.value)) }
    ensures capacity { vec_capacity out.old ≤ vec_capacity out.new }
{
    write_rtp(fields, &[], out).unwrap();
    write_canon(packet, out).unwrap();
}
