//! Laws of verdicts: the contract of the function is the law.

ghost use Rattle.rl_check.specs.Laws.{RightIsYes};

/// A right text has no other verdict than that it is right.
pub fn verdicts()
    ensures { RightIsYes }
{}
