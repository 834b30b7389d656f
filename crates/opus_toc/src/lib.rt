//! The TOC byte, which begins each Opus packet, the 32 configurations (RFC 6716, 3.1), and the flags of a
//! SILK frame (4.2.3).
#![tactic(auto)]

mod frame;
pub mod laws;
mod silk_flags;
mod toc;

pub use frame::flags;
pub use silk_flags::Flags;
pub use toc::{Band, Mode, Toc};
