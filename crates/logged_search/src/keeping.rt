//! What was logged last becomes a reason.

ghost use Rattle.std.specs.Prelude.{◌≡◌, ◌*◌, ◌<◌, ◌≤◌, ℕ, All, List, Option, length};
ghost use Rattle.clause_pool.specs.PoolValue.{IsFull, NoneTwice};
ghost use Rattle.var_names.specs.Formulas.{FormulaValue};
ghost use Rattle.propagation.specs.Ready.{IsReady};
ghost use Rattle.search_steps.specs.States.{IsState};
ghost use Rattle.learning_steps.specs.Reasons.{IsNextReason, IsSettled};
ghost use Rattle.logged_search.specs.Answers.{ExcludesDecisions};
ghost use Rattle.logged_search.specs.Ranks.{next_rank};
ghost use Rattle.logged_search.specs.Tied.{IsPending, HoldsFormula};
ghost use Rattle.logged_search.specs.Logged.{IsLogged, IsSized, HasPendingOf};

use crate::search::LoggedSearch;
use clause_pool::Full;
use conflict_analysis::Hint;
use learning_steps::{add_reason, exclude};

/// Lets the clause that was logged last give its first literal its value: as a clause of the pool, where that has room for
/// it, or else as the clause of the decisions.
pub fn keep(search: &mut LoggedSearch)
    requires state { IsState search.old.state }
    requires settled { IsSettled search.old.state.pool search.old.state.trail }
    requires below { All (λ literal. literal < 2 * search.old.state.trail.variables) search.old.analysis.learned }
    requires different { NoneTwice search.old.analysis.learned }
    requires next { IsNextReason search.old.state.trail.steps search.old.analysis.learned }
    requires excludes { IsFull search.old.state.pool (length search.old.analysis.learned) → ExcludesDecisions search.old.state.trail.steps search.old.analysis.learned }
    requires pending { HasPendingOf search.old }
    ensures ready { IsReady search.new.state.pool search.new.state.trail (length search.old.state.trail.steps) }
    ensures logged { (formula : FormulaValue) (clauses : List (Option (List ℕ))) → IsPending formula search.old.state search.old.log clauses search.old.analysis.learned
        → IsSized formula search.old → HoldsFormula formula search.old.state.pool.clauses
        → search.old.log.derived ≤ next_rank search.old.state.trail.variables search.old.state.trail.steps → IsLogged formula search.new clauses }
    ensures derived { search.new.log.derived ≡ search.old.log.derived }
{
    match add_reason(&mut search.state, search.analysis.learned()) {
        Ok(clause) => {
            search.log.name_last(&Hint::Stored(clause));
            search.spare -= 1;
        }
        Err(Full) => {
            let first = search.analysis.learned()[0];
            exclude(&mut search.state, first);
            search.log.name_last(&Hint::Excluded(first));
        }
    }
}
