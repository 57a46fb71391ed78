//! Which clause answers a conflict.

ghost use Rattle.std.specs.Prelude.{◌≡◌, ◌+◌, ◌*◌, ◌<◌, ◌⊎◌, length, true};
ghost use Rattle.clause_pool.specs.PoolValue.{IsFull};
ghost use Rattle.trail.specs.Steps.{level_of};
ghost use Rattle.propagation.specs.Ready.{IsFit, IsConflict};
ghost use Rattle.logged_search.specs.Answers.{IsAnswer};
ghost use Rattle.logged_search.specs.Used.{in_use};

use clause_pool::{ClauseRef, Pool};
use conflict_analysis::Analysis;
use search_steps::State;

/// Whether the pool, which has so many words and free handles, has room for a clause of so many literals.
fn has_room(pool: &Pool, words: u32, spare: u32, literals: usize) -> bool
    requires words { words ≡ pool.now.words }
    requires spare { spare + in_use pool.now.clauses ≡ length pool.now.clauses }
    ensures { result ≡ true → IsFull pool.now literals → ⊥ }
{
    let used = pool.used();
    if spare == 0 || words < used {
        return false;
    }
    let free = (words - used) as usize;
    if free < 3 {
        return false;
    }
    literals <= free - 3
}

/// Answers a conflict: by the clause that is learned from it, where the pool, which has so many words and free handles, has
/// room for that, or else by the clause of the present decisions. Says to which level it leads back.
pub fn choose(
    analysis: &mut Analysis,
    state: &State,
    words: u32,
    spare: u32,
    conflict: ClauseRef,
) -> u32
    requires fit { IsFit state.now.pool state.now.trail }
    requires decided { 0 < level_of state.now.trail.steps }
    requires literals { analysis.old.literals ≡ 2 * state.now.trail.variables }
    requires words { words ≡ state.now.pool.words }
    requires spare { spare + in_use state.now.pool.clauses ≡ length state.now.pool.clauses }
    requires conflict { IsConflict state.now.pool state.now.trail conflict }
    ensures answer { IsAnswer state.now.pool state.now.trail analysis.new.learned analysis.new.hints result }
    ensures literals { analysis.new.literals ≡ analysis.old.literals }
{
    let back = analysis.analyze(&state.pool, &state.trail, conflict);
    if has_room(&state.pool, words, spare, analysis.learned().len()) {
        return back;
    }
    analysis.exclude(&state.trail, conflict);
    state.trail.level() - 1
}
