//! The identification header of an Ogg Opus stream, `OpusHead` (RFC 7845, 5.1), in the mapping families 0, 1, 2, 3
//! and 255 (RFC 8486 for 2 and 3).
#![tactic(auto)]

mod channel;
mod checks;
mod counts;
mod fault;
mod head;
pub mod laws;
mod output;
mod read;
mod table;
mod write;

pub use channel::route;
pub use fault::HeadFault;
pub use head::Head;
pub use output::Route;
pub use read::read_head;
pub use table::Table;
pub use write::write_head;
