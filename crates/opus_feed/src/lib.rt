//! Opus packets in pieces of any size, undelimited and self-delimited (RFC 6716, section 3 and Appendix B), in
//! memory that is taken once. A fault is told at the very byte after which no packet can follow.
#![tactic(auto)]

mod advance;
mod body;
mod feed;
mod framing;
mod head;
pub mod laws;
mod moved;
mod packet;
mod padding;
mod place;
mod rule;
mod stage;
mod step;
mod take;

pub use feed::Feed;
pub use framing::Framing;
pub use padding::Padding;
pub use step::Step;
