//! Laws of the refusals, as contracts of functions that do nothing.

ghost use Rattle.well_formed.specs.Laws.{FailingIsNotWellFormed, FailsOnce};

use thread_runs::laws::consistent_threads_keep;

/// Where a clause fails, the execution is not both well-formed and within the bounds.
pub fn failing_is_not_well_formed()
    ensures { FailingIsNotWellFormed }
{
    consistent_threads_keep();
}

/// An execution has one least clause that fails, at one least place.
pub fn fails_once()
    ensures { FailsOnce }
{}
