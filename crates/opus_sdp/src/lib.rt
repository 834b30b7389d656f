//! Lines `a=rtpmap:` and `a=fmtp:` of a session description that speak of Opus (RFC 7587, 6 and 7).
#![tactic(auto)]

mod fault;
mod fmtp;
mod found;
pub mod laws;
mod names;
mod param;
mod read;
mod size;
mod table;
mod text;
mod write;
mod written;

pub use fault::SdpFault;
pub use fmtp::{Fmtp, Rtpmap};
pub use param::{Param, Params};
pub use read::{read_fmtp, read_rtpmap};
pub use text::is_line;
pub use write::{write_fmtp, write_rtpmap};
