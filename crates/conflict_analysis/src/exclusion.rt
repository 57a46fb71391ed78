//! The clause of the opposites of all decisions, and the reasons that it follows from.

ghost use Rattle.std.specs.Prelude.{◌≡◌, ◌+◌, ◌<◌, ◌≤◌, ◌++◌, length, map, vec_capacity};
ghost use Rattle.literals.specs.Literal.{opposite_of};
ghost use Rattle.trail.specs.Steps.{decisions_of};
ghost use Rattle.conflict_analysis.specs.Exclusions.{opposites_of_step, hints_of_reason, reason_hints};

use crate::hint::Hint;
use literals::opposite;
use trail::{Reason, Step, Trail};

/// Adds the opposite of a step that was decided.
fn put_decision(literals: &mut Vec<u32>, step: &Step)
    requires { length literals.old.items < vec_capacity literals.old }
    ensures items { literals.new.items ≡ literals.old.items ++ opposites_of_step step.now }
    ensures capacity { vec_capacity literals.new ≡ vec_capacity literals.old }
{
    if let Reason::Decision = step.reason {
        literals.push_reserved(opposite(step.literal));
    }
}

/// The opposites of all decisions, the last one first.
pub fn put_decisions(literals: &mut Vec<u32>, trail: &Trail)
    requires { length trail.now.steps ≤ vec_capacity literals.old }
    ensures items { literals.new.items ≡ map opposite_of (decisions_of trail.now.steps) }
    ensures capacity { vec_capacity literals.new ≡ vec_capacity literals.old }
{
    literals.clear();
    for place in 0..trail.len() {
        put_decision(literals, &trail.step(place));
    }
    literals.reverse();
}

/// Adds the reason of a step that was not decided.
fn put_reason(hints: &mut Vec<Hint>, step: &Step)
    requires { length hints.old.items < vec_capacity hints.old }
    ensures items { hints.new.items ≡ hints.old.items ++ hints_of_reason step.now.reason step.now.literal }
    ensures capacity { vec_capacity hints.new ≡ vec_capacity hints.old }
{
    match step.reason {
        Reason::Decision => {}
        Reason::Clause(clause) => hints.push_reserved(Hint::Stored(clause)),
        Reason::Decisions => hints.push_reserved(Hint::Excluded(step.literal)),
    }
}

/// The reasons of all steps, the oldest first.
pub fn put_reasons(hints: &mut Vec<Hint>, trail: &Trail)
    requires { length trail.now.steps ≤ vec_capacity hints.old }
    ensures items { hints.new.items ≡ reason_hints trail.now.steps }
    ensures few { length hints.new.items ≤ length trail.now.steps }
    ensures capacity { vec_capacity hints.new ≡ vec_capacity hints.old }
{
    hints.clear();
    for place in 0..trail.len() {
        put_reason(hints, &trail.step(place));
    }
}
