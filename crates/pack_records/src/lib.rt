//! The records of an input of packets, in three forms: one packet that is the whole input, an `opus_demo` store,
//! and self-delimited packets one after another.
//!
//! Each form is a machine for `job_loop`: fed an input in pieces of any size, it says which records its bytes decide,
//! and lends each one. A packet is lent in its kept form, from where it lies or from memory that is taken once.
#![tactic(auto)]

mod cut;
mod demo;
mod first;
mod item;
mod kept_form;
pub mod laws;
mod lent;
mod payload;
mod piece_taken;
mod pieces;
mod raw;
mod self_form;
mod store;
mod undelimited;

pub use cut::Cut;
pub use demo::DemoForm;
pub use item::{Found, Item};
pub use kept_form::{MOST_KEPT, append_form};
pub use lent::lent_packet;
pub use payload::PayloadReader;
pub use raw::{Raw, RawForm};
pub use self_form::SelfForm;
pub use store::Store;
pub use undelimited::Undelimited;
