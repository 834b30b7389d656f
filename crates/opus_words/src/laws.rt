//! A law on words: the contract of a function that does nothing.
ghost use Rattle.std.specs.Prelude.{◌≡◌, ℕ, List, Ok};
ghost use Rattle.opus_words.specs.declared.job.Job.{Job};
ghost use Rattle.opus_words.specs.Fit.{IsFit};
ghost use Rattle.opus_words.specs.Words.{job_of_words};

/// A job that words stand for has the options that the table gives it.
pub fn what_words_stand_for_fits_the_table()
    ensures { (words : List (List ℕ)) (job : Job) → job_of_words words ≡ Ok job → IsFit job }
{}
