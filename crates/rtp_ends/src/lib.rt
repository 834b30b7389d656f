//! The two ends of an RTP stream of Opus packets (RFC 3550, RFC 7587): a sender, which numbers and stamps what is sent, and
//! a receiver, which puts what arrives in order.
#![tactic(auto)]

mod buffer;
mod event;
pub mod laws;
mod receiver;
mod ring;
mod sender;

pub use event::{Arrival, Event};
pub use receiver::Receiver;
pub use sender::Sender;
