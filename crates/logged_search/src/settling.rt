//! Decisions and what follows from them, up to a conflict.

ghost use Rattle.std.specs.Prelude.{◌≡◌, IfNone, IfSome, ℕ, List, Option};
ghost use Rattle.trail.specs.Steps.{literals_of};
ghost use Rattle.var_names.specs.Formulas.{FormulaValue};
ghost use Rattle.propagation.specs.Ready.{IsReady, IsConflict};
ghost use Rattle.search_steps.specs.States.{IsState, AreTrue};
ghost use Rattle.logged_search.specs.Logged.{IsLogged};

use crate::search::LoggedSearch;
use clause_pool::ClauseRef;

/// Makes true what follows, and decides, by turns, until all literals of a clause are false, which is the answer, or until
/// every variable has a value. `handled` is the number of the oldest steps that were propagated before.
pub fn settle(search: &mut LoggedSearch, handled: usize) -> Option<ClauseRef>
    requires state { IsState search.old.state }
    requires ready { IsReady search.old.state.pool search.old.state.trail handled }
    ensures state { IsState search.new.state }
    ensures logged { (formula : FormulaValue) (clauses : List (Option (List ℕ))) → IsLogged formula search.old clauses → IsLogged formula search.new clauses }
    ensures conflict { IfSome result (IsConflict search.new.state.pool search.new.state.trail) }
    ensures satisfied { IfNone result (AreTrue search.new.state.pool.clauses (literals_of search.new.state.trail.steps)) }
    ensures log { search.new.log ≡ search.old.log }
{
    search_steps::settle(&mut search.state, handled)
}
