//! Refusals that the program can name.
ghost use Rattle.opus_words.specs.declared.ending.JobFault.{JobFault as FaultTold};

use opus_words::JobFault;

/// What tells a refusal within a job, in numbers. Its text is made at the end of the run alone.
pub trait Told: Copy {
    // The program's fault tells this refusal.
    ghost tells: { FaultTold → Self → Type 0 };

    /// The fault that the program names.
    fn fault(self) -> JobFault
        ensures { tells result self };
}
