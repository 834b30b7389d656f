//! Writing Opus packets (RFC 6716, section 3 and Appendix B): the canonical form of a packet's value, the kept
//! form with its padding bytes, each undelimited and self-delimited, and a form padded to a size.
#![tactic(auto)]

mod header;
pub mod laws;
mod list;
mod padded;
mod put;
mod size;

pub use header::{
    push_canon_header, push_canon_self_header, push_keep_header, push_keep_self_header, push_lens,
};
pub use list::{write_canon, write_canon_self, write_keep, write_keep_self};
pub use padded::{PadFault, write_padded};
pub use put::{put_canon, put_canon_self, put_keep, put_keep_self};
pub use size::{canon_self_size, canon_size, keep_self_size, keep_size};
