//! The records of an input of multistream packets (RFC 7845, section 3), in two forms: one packet that is the whole
//! input, and an `opus_demo` store.
//!
//! Each form is a machine for `job_loop`: fed an input in pieces of any size, it says which records its bytes decide,
//! and lends each one. A packet is lent in its kept form, from memory that is taken once.
#![tactic(auto)]

mod demo;
mod durations;
mod item;
pub mod laws;
mod raw;
mod stream_pieces;
mod streams_form;

pub use demo::DemoStreams;
pub use item::{Spelling, StreamsFound, StreamsItem};
pub use raw::RawStreams;
pub use streams_form::StreamsForm;
