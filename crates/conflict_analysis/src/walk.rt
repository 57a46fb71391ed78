//! The walk back along the trail.

ghost use Rattle.std.specs.Prelude.{◌≡◌, ◌+◌, ◌<◌, vec_capacity};
ghost use Rattle.trail.specs.Steps.{level_of};
ghost use Rattle.conflict_analysis.specs.Resolvents.{IsLastPending, IsMorePending};
ghost use Rattle.conflict_analysis.specs.Walks.{IsWalk};

use crate::hint::Hint;
use crate::resolvent::Resolvent;
use clause_pool::Pool;
use trail::Trail;

/// How many literals are pending at the end of the walk.
fn last_pending(trail: &Trail) -> usize
    ensures none { level_of trail.now.steps ≡ 0 → result ≡ 0 }
    ensures one { 0 < level_of trail.now.steps → result ≡ 1 }
{
    if trail.level() == 0 { 0 } else { 1 }
}

/// Goes back along the trail until one literal of the last decision is left, or none where there was no
/// decision.
pub fn walk_back(resolvent: &mut Resolvent, hints: &mut Vec<Hint>, pool: &Pool, trail: &Trail)
    requires { IsWalk resolvent.old hints.old.items (vec_capacity hints.old) pool.now trail.now }
    ensures walk { IsWalk resolvent.new hints.new.items (vec_capacity hints.new) pool.now trail.now }
    ensures last { IsLastPending resolvent.new trail.now }
    ensures capacity { vec_capacity hints.new ≡ vec_capacity hints.old }
{
    let last = last_pending(trail);
    while resolvent.pending > last {
        go_back(resolvent, hints, pool, trail);
    }
}

/// Looks at one more step.
fn go_back(resolvent: &mut Resolvent, hints: &mut Vec<Hint>, pool: &Pool, trail: &Trail)
    requires walk { IsWalk resolvent.old hints.old.items (vec_capacity hints.old) pool.now trail.now }
    requires more { IsMorePending resolvent.old trail.now }
    ensures walk { IsWalk resolvent.new hints.new.items (vec_capacity hints.new) pool.now trail.now }
    ensures place { resolvent.new.place + 1 ≡ resolvent.old.place }
    ensures capacity { vec_capacity hints.new ≡ vec_capacity hints.old }
{
    if let Some(hint) = resolvent.step_back(pool, trail) {
        hints.push_reserved(hint);
    }
}
