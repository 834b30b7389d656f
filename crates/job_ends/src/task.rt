//! What a run of a job is given beside its input and its output.
ghost use Rattle.std.specs.Prelude.{◌≤◌};
ghost use Rattle.opus_io.specs.Reader.{max_input};

use opus_words::Job;
use std::alloc::Global;

/// A job to be done: what a run of it is given beside its input and its output.
#[derive(Clone, Copy)]
pub struct Task<'a> {
    /// Where memory comes from.
    pub alloc: Global,
    /// The job with its options.
    pub job: &'a Job,
    /// Bytes that are read at most, from 1 to 2^40.
    pub limit: u64,
    pub ghost some: { 1 ≤ limit },
    pub ghost most: { limit ≤ max_input },
}
