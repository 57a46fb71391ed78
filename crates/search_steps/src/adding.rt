//! Clauses that are added before any decision.

ghost use Rattle.std.specs.Prelude.{◌≡◌, ◌*◌, ◌<◌, All, IfOk};
ghost use Rattle.clause_pool.specs.PoolValue.{IsFree, NoneTwice, put_clause};
ghost use Rattle.trail.specs.Steps.{level_of};
ghost use Rattle.search_steps.specs.States.{IsState, IsGrown};
ghost use Rattle.search_steps.specs.Adding.{IsAdded, MakesTrue, clause_of};

use crate::state::State;
use clause_pool::{ClauseRef, Full};
use trail::{Reason, Trail, Value};

/// What was made of a clause that was added.
#[derive(Clone, Copy, Debug, PartialEq, Eq)]
pub enum Added {
    /// Where it has one literal only, that is true.
    Kept(ClauseRef),
    /// All its literals are false.
    Conflict(ClauseRef),
}

/// Makes the only literal of a clause true, where it has no value, and says whether it is true then.
fn make_true(trail: &mut Trail, clause: ClauseRef, literal: u32) -> bool
    requires { literal < 2 * trail.old.variables }
    ensures { MakesTrue trail.old trail.new clause literal result }
{
    match trail.value(literal) {
        Value::True => true,
        Value::False => false,
        Value::Open => {
            trail.assign(literal, Reason::Clause(clause));
            true
        }
    }
}

/// Adds a clause before any decision. Where it has one literal only, that becomes true, if it can.
///
/// # Errors
///
/// `Full` where the pool has no room for the clause.
pub fn add(state: &mut State, literals: &[u32]) -> Result<Added, Full>
    requires state { IsState state.old }
    requires undecided { level_of state.old.trail.steps ≡ 0 }
    requires below { All (λ x. x < 2 * state.old.trail.variables) literals.now }
    requires different { NoneTwice literals.now }
    ensures added { IfOk result (IsAdded state.new) }
    ensures fresh { IfOk result (λ added. IsFree state.old.pool (clause_of added)) }
    ensures put { IfOk result (λ added. state.new.pool ≡ put_clause state.old.pool (clause_of added) literals.now) }
    ensures undecided { level_of state.new.trail.steps ≡ 0 }
    ensures grown { IsGrown state.old.trail state.new.trail }
{
    let clause = state.pool.put(literals)?;
    if literals.len() >= 2 {
        return Ok(Added::Kept(clause));
    }
    if literals.is_empty() {
        return Ok(Added::Conflict(clause));
    }
    if make_true(&mut state.trail, clause, literals[0]) {
        Ok(Added::Kept(clause))
    } else {
        Ok(Added::Conflict(clause))
    }
}
