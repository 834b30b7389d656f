//! How the program's run of a job ends: what `job_loop` says of the run, and the fault that the program names. And the job
//! that makes something of each record by itself.
#![tactic(auto)]

mod choices;
mod cut;
mod each;
mod first;
mod over;
mod refusal;
mod run;
mod task;
mod told;

pub use choices::{form_in, padding_in, stream_count};
pub use cut::CutReason;
pub use each::{Each, Make};
pub use first::end_by_first;
pub use over::run_over;
pub use refusal::{Answer, Reason, Refusal, text_of};
pub use run::run_told;
pub use task::Task;
pub use told::Told;
