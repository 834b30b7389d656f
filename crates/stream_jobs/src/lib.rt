//! The jobs over multistream packets (RFC 7845, section 3): what each makes of a record, and how the program's run of
//! one ends.
//!
//! A job knows no form's bytes and no reading; `job_loop` hands it each record as soon as its bytes decide it.
#![tactic(auto)]

pub mod again_laws;
pub mod agree_laws;
mod apart;
mod bad;
mod check;
mod extract;
mod join;
pub mod join_laws;
pub mod laws;
mod norm;
pub mod norm_laws;
mod of_streams;
mod refusal;
mod show;
mod stream;
mod stream_packets;

pub use join::{Join, join_job};
pub use refusal::{StreamRefusal, StreamWhy};
pub use stream::stream_job;
