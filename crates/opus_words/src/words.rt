//! From words to a job.
ghost use Rattle.std.specs.Prelude.{◌≡◌, IfErr, IfOk, Ok, map, string_bytes};
ghost use Rattle.clap.specs.Words.{found_of, rows_of};
ghost use Rattle.opus_words.specs.Fit.{IsFit};
ghost use Rattle.opus_words.specs.Words.{IsUsage, job_of_rows, job_of_words, judged, weighed};

use crate::command::{line, parse};
use crate::fault::{UsageKind, WordsFault};
use crate::job::Job;
use crate::kind::JobKind;
use crate::matched::{foreign, job, kind, missing, unfit};
use crate::option::Opt;
use clap::ArgMatches;
use std::alloc::Global;

/// The job that the words stand for. `words` are the program's arguments, without its name.
///
/// Memory may run out; every other answer is that of the words alone.
pub fn job_of(alloc: Global, words: &[String]) -> Result<Job, WordsFault>
    ensures ok { IfOk result (λ job. job_of_words (map string_bytes words.now) ≡ Ok job) }
    ensures fit { IfOk result IsFit }
    ensures usage { IfErr result (λ fault.
        IsUsage fault (job_of_words (map string_bytes words.now))) }
{
    let line = line(alloc, words)?;
    let matches = parse(alloc, line.as_slice())?;
    match job_of_matches(&matches) {
        Ok(job) => Ok(job),
        Err(kind) => Err(WordsFault::Usage(kind)),
    }
}

/// The job of what `clap` found.
fn job_of_matches(matches: &ArgMatches<'_>) -> Result<Job, UsageKind>
    ensures { result ≡ job_of_rows (rows_of (found_of matches.now)) }
{
    match kind(matches) {
        Some(kind) => judge(matches, kind),
        None => Err(UsageKind::Job),
    }
}

/// Judges the options by the table, one rule after the other.
fn judge(matches: &ArgMatches<'_>, kind: JobKind) -> Result<Job, UsageKind>
    ensures { result ≡ judged kind (rows_of (found_of matches.now)) }
{
    if let Some(opt) = foreign(matches, kind) {
        return Err(UsageKind::Option(opt));
    }
    if let Some(opt) = unfit(matches, kind) {
        return Err(UsageKind::Value(opt));
    }
    if let Some(opt) = missing(matches, kind) {
        return Err(UsageKind::Missing(opt));
    }
    weigh(job(matches, kind))
}

/// The rules between options.
fn weigh(job: Job) -> Result<Job, UsageKind>
    ensures { result ≡ weighed job }
{
    if !job.has_own_stream() {
        Err(UsageKind::Value(Opt::Stream))
    } else if job.is_self_of_many() {
        Err(UsageKind::Value(Opt::Streams))
    } else {
        Ok(job)
    }
}
