//! Laws of the executions of straight programs, as contracts of functions that do nothing.

ghost use Rattle.straight_executions.specs.Laws.{OneThreadActs, OrderIsEarlier, ReadsSeeLastWrites, RunsAreOne, StraightForbids, StraightIntsFit, StraightIsWhole, StraightPrintsOnce};

/// Main acts alone.
pub fn one_thread_acts()
    ensures { OneThreadActs }
{}

/// Happens-before is main's program order, and each default write happens before each action of main.
pub fn order_is_earlier()
    ensures { OrderIsEarlier }
{}

/// A read sees the last write to its variable before it in program order, or the default write where there is none.
pub fn reads_see_last_writes()
    ensures { ReadsSeeLastWrites }
{}

/// Each run of main that has the events of its actions goes along the code, with the values of the walk along it.
pub fn runs_are_one()
    ensures { RunsAreOne }
{}

/// In each well-formed execution main prints the values of the walk, and no other thread prints.
pub fn straight_prints_once()
    ensures { StraightPrintsOnce }
{}

/// Where a well-formed execution is in bounds, the ints of the walk have the width.
pub fn straight_ints_fit()
    ensures { StraightIntsFit }
{}

/// An outcome that is possible within bounds names main alone, with the values of the walk, whose ints have the width.
pub fn straight_forbids()
    ensures { StraightForbids }
{}

/// The bounds of a straight program leave nothing out exactly where the width is that of an int.
pub fn straight_is_whole()
    ensures { StraightIsWhole }
{}
