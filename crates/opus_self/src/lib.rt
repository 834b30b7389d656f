//! Self-delimited Opus packets over a slice (RFC 6716, Appendix B): packets that say themselves where they end,
//! which rule the bytes break and where.
#![tactic(auto)]

pub mod laws;
mod places;
mod self_delimited;

pub use places::{SelfPlaces, locate_self};
pub use self_delimited::{SelfRead, decode_self};
