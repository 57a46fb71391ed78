//! The state of a search.

ghost use Rattle.std.specs.Prelude.{◌≡◌, ◌*◌, ◌<◌, ◌^◌, IfNone, IfSome, length};
ghost use Rattle.trail.specs.Steps.{literals_of};
ghost use Rattle.propagation.specs.Ready.{IsReady, IsConflict, IsSamePool};
ghost use Rattle.search_steps.specs.States.{IsState, AreTrue, IsGrown};

use crate::choice::next_open;
use clause_pool::{ClauseRef, Pool};
use decision_order::DecisionOrder;
use propagation::propagate;
use trail::{Reason, Trail};

/// The clauses of a search, what was made true, and the variables that wait for a decision.
#[derive(Debug, Drop)]
pub struct State {
    pub pool: Pool,
    pub trail: Trail,
    pub order: DecisionOrder,
}

/// Makes true what follows, and decides, by turns, until all literals of a clause are false, which is
/// the answer, or until every variable has a value.
///
/// `handled` is the number of the oldest steps that were propagated before.
pub fn settle(state: &mut State, handled: usize) -> Option<ClauseRef>
    requires state { IsState state.old }
    requires ready { IsReady state.old.pool state.old.trail handled }
    ensures state { IsState state.new }
    ensures conflict { IfSome result (IsConflict state.new.pool state.new.trail) }
    ensures satisfied { IfNone result (AreTrue state.new.pool.clauses (literals_of state.new.trail.steps)) }
    ensures same_pool { IsSamePool state.old.pool state.new.pool }
    ensures grown { IsGrown state.old.trail state.new.trail }
{
    let mut handled = handled;
    loop {
        if let Some(conflict) = propagate(&mut state.pool, &mut state.trail, handled) {
            return Some(conflict);
        }
        handled = state.trail.len();
        let Some(literal) = next_open(&mut state.order, &state.trail) else {
            return None;
        };
        state.trail.assign(literal, Reason::Decision);
    }
}
