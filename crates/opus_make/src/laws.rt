//! A law of what is drawn: the contract of a function that does nothing.
ghost use Rattle.std.specs.Prelude.{ℕ};
ghost use Rattle.opus_make.specs.Plan.{plan_at, IsPlan};

/// What is drawn for a packet keeps the standard's limits.
pub fn what_is_drawn_keeps_the_limits()
    ensures { (state : ℕ) → IsPlan (plan_at state) }
{}
