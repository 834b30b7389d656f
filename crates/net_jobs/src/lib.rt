//! The jobs over RTP: what each makes of a record, and how the program's run of one ends.
#![tactic(auto)]

mod capture_refusal;
mod counts;
mod events;
pub mod laws;
mod net;
mod plain;
mod receive;
mod send;
mod stream;

pub use capture_refusal::CaptureRefusal;
pub use events::Telling;
pub use net::net_job;
pub use receive::ReceiveJob;
pub use send::SendJob;
pub use stream::{Asked, Stream};
