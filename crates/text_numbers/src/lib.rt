//! Numbers in decimal digits, as a text of bytes writes them.
#![tactic(auto)]

mod number;

pub use number::read_number;
