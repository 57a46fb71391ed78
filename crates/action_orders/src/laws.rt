//! Laws of the definitions, as contracts of functions that do nothing.

ghost use Rattle.action_orders.specs.Laws.{AloneInOrder, CommitsInOneStep, CommitsInTwoSteps};
ghost use Rattle.action_orders.specs.Verdict.{BoundsOnlyNarrow};

/// What is possible within bounds is possible.
pub fn bounds_only_narrow()
    ensures { BoundsOnlyNarrow }
{}

/// Where one thread acts alone, happens-before is within its program order, and the default writes before it.
pub fn alone_in_order()
    ensures { AloneInOrder }
{}

/// An execution whose reads see writes that happen before them commits itself: first all but the reads, then all.
pub fn commits_in_two_steps()
    ensures { CommitsInTwoSteps }
{}

/// An execution without reads commits itself in one step.
pub fn commits_in_one_step()
    ensures { CommitsInOneStep }
{}
