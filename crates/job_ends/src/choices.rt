//! What the words say of the input of a job.
ghost use Rattle.std.specs.Prelude.{◌≡◌, ◌≤◌};
ghost use Rattle.job_ends.specs.Choices.{form_in, padding_in, stream_count};

use opus_feed::Padding;
use opus_words::{Form, Job};

/// The form of the input.
pub fn form_in(job: &Job) -> Form
    ensures { result ≡ form_in job.now }
{
    job.form.unwrap_or(Form::Raw)
}

/// What becomes of padding bytes.
pub fn padding_in(job: &Job) -> Padding
    ensures { result ≡ padding_in job.now }
{
    job.padding.unwrap_or(Padding::Drop)
}

/// How many streams a packet has, or records a group: one at least, also where the words name none.
pub fn stream_count(job: &Job) -> u8
    ensures is { result ≡ stream_count job.now }
    ensures some { 1 ≤ result }
{
    job.streams.unwrap_or(1).max(1)
}
