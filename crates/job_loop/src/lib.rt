//! One loop for all jobs: what a job over records is, what a form of records is, and what a run says of both.
//!
//! Each record is handed on as soon as its bytes decide it, before the next read. A refusal comes at the byte that
//! decides it. Where a read fails, the output holds exactly what the bytes taken settle. This is proved here once,
//! for every form and every job; nothing here knows what a record is.
#![tactic(auto)]

mod ending;
mod form;
mod gather;
mod gathered;
mod hand;
mod input_end;
mod job;
mod job_run;
pub mod laws;
mod lent;
mod put;
mod records;
mod run;

pub use ending::Ending;
pub use form::{Close, Fed, Form};
pub use gather::Gather;
pub use gathered::{Gathered, take_room};
pub use input_end::InputEnd;
pub use job::{JobStop, RecordJob};
pub use job_run::run_job;
pub use lent::{Lent, Numbers};
pub use put::write_both;
