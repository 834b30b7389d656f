//! Joins the frames of Opus packets to longer packets, and gives parts of them as shorter ones (RFC 6716, 3.2).
#![tactic(auto)]

mod fault;
pub mod laws;
mod part;
mod place;
mod repacketizer;

pub use fault::CatFault;
pub use repacketizer::Repacketizer;
