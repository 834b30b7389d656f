//! Self-delimited packets that come in pieces, kept as the records of an `opus_demo` store, over the public calls of opus_feed,
//! opus_writer and rec_store (RFC 6716, Appendix B).
#![tactic(auto)]

pub mod laws;
mod record;
mod recorder;
mod took;

pub use record::MOST_RECORD;
pub use recorder::Recorder;
pub use took::Took;
