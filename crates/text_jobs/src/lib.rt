//! The job over an input of lines: sdp.
//!
//! The lines of an input as a form for `job_loop`, and the job that prints those of a session description that speak of
//! Opus in one form (RFC 7587, 6 and 7).
#![tactic(auto)]

pub mod laws;
mod line;
mod lines;
mod print;
mod refusal;
mod run;
mod sdp;

pub use line::{Line, NoCut};
pub use lines::LineForm;
pub use refusal::SdpRefusal;
pub use run::text_job;
pub use sdp::Sdp;
