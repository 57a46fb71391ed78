//! Laws of straight programs, as contracts of functions that do nothing.

ghost use Rattle.straight.specs.Laws.{StraightIsJustified};

/// The one execution of a straight program is well-formed and in bounds, where its ints have the width, its sequence commits
/// it, and main prints what the walk prints.
pub fn straight_is_justified()
    ensures { StraightIsJustified }
{}
