//! Why a datagram isn't taken.
ghost use Rattle.std.specs.Prelude.{◌≡◌};
ghost use Rattle.example_gateway.specs.declared.fault.GatewayFault.TheVariants.{OutOfMemory};

use opus_io::NoMemory;
use rtp_packet::RtpFault;

/// Why a datagram isn't taken.
#[derive(Clone, Copy, Debug, PartialEq, Eq)]
pub enum GatewayFault {
    /// It is no RTP packet: the first check that fails.
    NotRtp(RtpFault),
    /// 2^40 packets arrived already. `close` begins anew.
    Full,
    /// There is no memory for its payload or its events.
    OutOfMemory,
}

impl From<NoMemory> for GatewayFault {
    ghost from_gives = { λ _ fault. fault ≡ OutOfMemory };

    fn from(_: NoMemory) -> Self {
        GatewayFault::OutOfMemory
    }
}
