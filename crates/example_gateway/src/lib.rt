//! Datagrams taken as RTP packets, and put in order, over the public calls of rtp_packet and rtp_ends (RFC 3550).
#![tactic(auto)]

mod fault;
mod gateway;

pub use fault::GatewayFault;
pub use gateway::Gateway;
