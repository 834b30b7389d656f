//! From a datagram's bytes to the events of a receiver.
ghost use Rattle.std.specs.Prelude.{◌≡◌, ◌+◌, List, [], IfOk, IfErr, OnOk, OnErr};
ghost use Rattle.rtp_packet.specs.RtpValue.{RtpValue};
ghost use Rattle.rtp_packet.specs.RtpBytes.{IsRtp};
ghost use Rattle.rtp_ends.specs.Numbers.{Heard};
ghost use Rattle.rtp_ends.specs.Report.{certain_events, arrival_report};
ghost use Rattle.rtp_ends.specs.Receives.{ReceiverStands, HasArrived, GivesOut};
ghost use Rattle.example_gateway.specs.Datagrams.{heard_of, IsSomeRtp, HasCause};

use crate::fault::GatewayFault;
use opus_io::NoMemory;
use rtp_ends::{Arrival, Event, Receiver};
use rtp_packet::read_rtp;
use std::alloc::Global;
use std::marker::Model;

/// Most packets that may arrive before `close`.
const MOST_ARRIVALS: u64 = 1 << 40;

/// Takes the datagrams of one stream, in whatever order they come.
#[derive(Drop)]
pub struct Gateway {
    receiver: Receiver,
}

impl Model for Gateway {
    ghost use Rattle.rtp_ends.specs.Receives.{ReceiverState};

    ghost Value = { ReceiverState };

    ghost view = { λ g. g.receiver };
}

impl Gateway {
    /// A gateway that got nothing yet. All memory but that of the payloads is taken here.
    pub fn new(alloc: Global) -> Result<Gateway, NoMemory>
        ensures stands { IfOk result (λ g. ReceiverStands g []) }
        ensures arrivals { IfOk result (λ g. g.arrivals ≡ 0) }
    {
        Ok(Gateway {
            receiver: Receiver::new(alloc)?,
        })
    }

    /// Takes a datagram, and appends the events that are certain with it. After a fault nothing has changed.
    pub fn take(&mut self, datagram: &[u8], out: &mut Vec<Event>) -> Result<Arrival, GatewayFault>
        ensures packet { OnOk result (IsSomeRtp datagram.now) }
        ensures heard { IfOk result (λ answer. (heard : List Heard) (p : RtpValue)
            → ReceiverStands self.old heard → IsRtp p datagram.now
            → HasArrived self.new heard (heard_of p) answer out.old.items out.new.items) }
        ensures arrivals { OnOk result (self.new.arrivals ≡ self.old.arrivals + 1) }
        ensures cause { IfErr result (HasCause datagram.now self.old.arrivals) }
        ensures kept { OnErr result (self.new ≡ self.old) }
        ensures err { OnErr result (out.new.items ≡ out.old.items) }
    {
        let packet = match read_rtp(datagram) {
            Ok(packet) => packet,
            Err(fault) => return Err(GatewayFault::NotRtp(fault)),
        };
        if self.receiver.arrivals() >= MOST_ARRIVALS {
            return Err(GatewayFault::Full);
        }
        let answer = self
            .receiver
            .arrive(packet.seq, packet.stamp, packet.payload, out)?;
        Ok(answer)
    }

    /// Appends all events that are left, and begins anew. Where there is no memory, nothing changes.
    pub fn close(&mut self, out: &mut Vec<Event>) -> Result<(), NoMemory>
        ensures ok { OnOk result ((heard : List Heard) → ReceiverStands self.old heard
            → GivesOut (certain_events heard) (arrival_report heard) out.old.items out.new.items) }
        ensures stands { OnOk result (ReceiverStands self.new []) }
        ensures kept { OnErr result (self.new ≡ self.old) }
        ensures err { OnErr result (out.new.items ≡ out.old.items) }
    {
        self.receiver.close(out)
    }
}
