//! The words of the command line: which job they stand for, and how a job can end.
//! They are read with `clap` as one simple command, and then by the product's own table of options.
#![tactic(auto)]

mod command;
mod ending;
mod fault;
mod form;
mod job;
mod kind;
pub mod laws;
mod matched;
mod option;
mod padding;
mod table;
mod words;

pub use ending::{Ending, JobFault};
pub use fault::{UsageKind, WordsFault};
pub use form::Form;
pub use job::Job;
pub use kind::JobKind;
pub use option::Opt;
pub use padding::padding_name;
pub use words::job_of;
