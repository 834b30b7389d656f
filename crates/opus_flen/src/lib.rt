//! The lengths inside Opus packets: frame lengths and padding lengths (RFC 6716, 3.2.1 and 3.2.5).
#![tactic(auto)]

mod frame_length;
pub mod laws;
mod padding_length;

pub use frame_length::{LenRead, len_bytes, read_len};
pub use padding_length::{PadParts, PadRead, pad_parts, read_pad, write_pad};
