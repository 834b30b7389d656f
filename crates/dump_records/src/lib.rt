//! The records of a capture in the rtpdump layout, as a form for `job_loop`.
//!
//! Fed a capture in pieces of any size, it says which records its bytes decide, and lends each one's packet. A first line
//! or a record's length that goes wrong is told at the byte that decides it.
#![tactic(auto)]

mod form;
mod item;
pub mod laws;
mod mode;

pub use form::DumpForm;
pub use item::{Found, Item};
