//! Laws of RTP packets: each is the contract of a function that does nothing.
ghost use Rattle.std.specs.Prelude.{◌≡◌, ℕ, List, None};
ghost use Rattle.rtp_packet.specs.RtpValue.{RtpValue, AreBytes};
ghost use Rattle.rtp_packet.specs.RtpBytes.{IsRtp};
ghost use Rattle.rtp_packet.specs.RtpFault.{rtp_fault};
ghost use Rattle.rtp_packet.specs.RtpRead.{AreFields, plain_packet, plain_bytes};
ghost use Rattle.rtp_packet.specs.declared.packet.RtpFields.{RtpFields};

/// The same bytes are one packet at most.
pub fn bytes_are_one_packet()
    ensures same { (p q : RtpValue) (bytes : List ℕ) → IsRtp p bytes → IsRtp q bytes → p ≡ q }
{}

/// Bytes have no fault exactly where they are a packet.
pub fn bytes_without_a_fault_are_a_packet()
    ensures packet { (bytes : List ℕ) → AreBytes bytes → rtp_fault bytes ≡ None
        → (p : RtpValue) × IsRtp p bytes }
    ensures none { (p : RtpValue) (bytes : List ℕ) → IsRtp p bytes → rtp_fault bytes ≡ None }
{}

/// What is written with some fields and a payload is the packet that says just these, and no other one.
pub fn what_is_written_is_read()
    ensures read { (fields : RtpFields) (payload : List ℕ) → AreFields fields
        → IsRtp (plain_packet fields payload) (plain_bytes fields payload) }
    ensures only { (fields : RtpFields) (payload : List ℕ) (p : RtpValue) → AreFields fields
        → IsRtp p (plain_bytes fields payload) → p ≡ plain_packet fields payload }
{}
