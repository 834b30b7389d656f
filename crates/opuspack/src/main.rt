//! `opuspack`: Opus packets checked and rewritten, from standard input to standard output.
#![tactic(auto)]

mod arguments;
mod finish;
mod head;
mod head_texts;
pub mod laws;
mod line;
mod made;
mod make;
mod never;
mod run;
mod run_generated;
mod status;
#[cfg(test)]
mod tests;
mod texts;
mod totals;
mod trial;
mod whole;

use crate::arguments::words_of;
use crate::run::{max_input, run};
use opus_io::{FromRead, ToWrite};
use std::process::ExitCode;

fn main(rt: HostRuntime) -> ExitCode {
    let mut note = ToWrite::new(rt.stderr());
    let status = match words_of(&rt) {
        Ok(words) => {
            let mut source = FromRead::new(rt.stdin());
            let mut out = ToWrite::new(rt.stdout());
            let words = words.as_slice();
            run(
                rt.alloc(),
                words,
                max_input(),
                &mut source,
                &mut out,
                &mut note,
            )
        }
        Err(finish) => finish.tell(&mut note),
    };
    ExitCode::from(status.code())
}
