//! Propagation of all literals that were not handled yet.

ghost use Rattle.std.specs.Prelude.{◌≡◌, ◌+◌, ◌<◌, ℕ, IfNone, IfSome, length};
ghost use Rattle.trail.specs.Steps.{literals_of};
ghost use Rattle.propagation.specs.Watches.{AreWatched, NothingFollows};
ghost use Rattle.propagation.specs.Ready.{IsFit, IsReady, IsConflict, IsSamePool, IsExtended};

use crate::visit::{Visit, visit_clause};
use clause_pool::{ClauseRef, Pool};
use literals::opposite;
use trail::Trail;

/// Visits each clause that watches the literal which the step in this place made false, and answers a
/// clause all of whose literals are false, where it comes to one.
fn visit_watches(pool: &mut Pool, trail: &mut Trail, place: usize) -> Option<ClauseRef>
    requires fit { IsFit pool.old trail.old }
    requires ready { IsReady pool.old trail.old place }
    requires more { place < length trail.old.steps }
    ensures fit { IsFit pool.new trail.new }
    ensures ready { IfNone result (IsReady pool.new trail.new (place + 1)) }
    ensures conflict { IfSome result (IsConflict pool.new trail.new) }
    ensures same_pool { IsSamePool pool.old pool.new }
    ensures extended { IsExtended trail.old trail.new }
{
    let literal = opposite(trail.step(place).literal);
    let mut at = pool.first_watch(literal);
    while let Some(clause) = at {
        let next = pool.next_watch(clause, literal);
        if let Visit::Conflict = visit_clause(pool, trail, clause, literal) {
            return Some(clause);
        }
        at = next;
    }
    None
}

/// Makes true what follows by unit propagation, until nothing more follows, or until all literals of a
/// clause are false. That clause is the answer, and None where nothing more follows.
///
/// `handled` is the number of the oldest steps that were propagated before.
pub fn propagate(pool: &mut Pool, trail: &mut Trail, handled: usize) -> Option<ClauseRef>
    requires fit { IsFit pool.old trail.old }
    requires ready { IsReady pool.old trail.old handled }
    ensures fit { IsFit pool.new trail.new }
    ensures watched { IfNone result
        (AreWatched (literals_of trail.new.steps) (literals_of trail.new.steps) pool.new.clauses) }
    ensures nothing_follows { IfNone result
        (NothingFollows pool.new.clauses (literals_of trail.new.steps)) }
    ensures conflict { IfSome result (IsConflict pool.new trail.new) }
    ensures same_pool { IsSamePool pool.old pool.new }
    ensures extended { IsExtended trail.old trail.new }
{
    let mut place = handled;
    while place < trail.len() {
        if let Some(conflict) = visit_watches(pool, trail, place) {
            return Some(conflict);
        }
        place += 1;
    }
    None
}
