//! The jobs over packets: what each makes of a record, and how the program's run of one ends.
//!
//! A job knows no form's bytes and no reading; `job_loop` hands it each record as soon as its bytes decide it.
#![tactic(auto)]

mod check;
pub mod laws;
mod line;
mod merge;
mod norm;
mod pack;
mod packet_lines;
mod pad;
mod record;
mod refusal;
mod show;
mod split;
mod text;

pub use check::Check;
pub use merge::Merge;
pub use pack::pack_job;
pub use packet_lines::write_packet_lines;
pub use record::{write_packet, write_record};
pub use refusal::{Refusal, Why, refusal_at};
pub use text::{decimal_text, fault_text, push_named};
