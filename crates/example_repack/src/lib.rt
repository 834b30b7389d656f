//! Packets of one kind joined up to 60 ms, over the public calls of opus_repack and opus_writer (RFC 6716, 3.2 and Appendix B).
#![tactic(auto)]

pub mod laws;
mod repacker;

pub use repacker::{MOST_SAMPLES, Repacker};
