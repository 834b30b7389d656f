//! What never comes.

/// The cut of an input that can't be cut, and the refusal of a job that refuses nothing.
#[derive(Clone, Copy)]
pub(crate) enum Never {}
