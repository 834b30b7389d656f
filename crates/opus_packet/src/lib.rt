//! Undelimited Opus packets over a slice (RFC 6716, section 3): what is a packet, what can become one, which
//! rule the bytes break and where, and the canonical form.
#![tactic(auto)]

mod fault;
mod frames;
mod header;
mod held;
pub mod laws;
mod lens;
mod packet;
mod places;
mod shape;
mod spelled;
mod spelling;
mod tail;
mod undelimited;

pub use fault::{Fault, Rule};
pub use frames::Frames;
pub use header::{Header, HeaderRead, MAX_FRAME, Sizes, padding_len, read_header};
pub use held::Held;
pub use lens::Lens;
pub use packet::Packet;
pub use places::{Places, locate};
pub use shape::Shape;
pub use spelled::Spelled;
pub use spelling::gives_lens;
pub use tail::{MAX_TAIL, Tail};
pub use undelimited::decode;
