//! RTP packets over a slice (RFC 3550, sections 5.1 and 5.3.1): read with the first check that fails, and written.
#![tactic(auto)]

mod checks;
mod fault;
pub mod laws;
mod packet;
mod read;
mod write;

pub use fault::RtpFault;
pub use packet::{Rtp, RtpFields};
pub use read::read_rtp;
pub use write::write_rtp;
