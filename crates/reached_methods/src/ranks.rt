//! A quick test that no call of a method leads back to it.

ghost use Rattle.std.specs.Prelude.{◌≡◌, ◌<◌, ◌≤◌, ◌+◌, ◌↔◌, Contains, IsTrue, length};
ghost use Rattle.program.specs.declared.method.MethodId.{MethodId};
ghost use Rattle.resolution.specs.declared.target.Target.TheVariants as named;
ghost use Rattle.reached_methods.specs.Cycles.{AreClosed};
ghost use Rattle.reached_methods.specs.Exploring.{AreByPlace, ids_of};
ghost use Rattle.reached_methods.specs.Ranks.{AllFallBy, FallsBy, NoneRises, rank_at};

use crate::places::place_of;
use crate::survey::Surveyed;
use resolution::Target;

/// The rank of the method at this place; 0 where there is none.
fn rank_at(ranks: &[usize], at: usize) -> usize
    ensures { result ≡ rank_at ranks.now at }
{
    match ranks.get(at) {
        Some(rank) => *rank,
        None => 0,
    }
}

/// Whether a rank is lower than another by `drop` or more.
fn is_lower_by(lower: usize, rank: usize, drop: usize) -> bool
    ensures { IsTrue result ↔ (lower + drop ≤ rank) }
{
    lower <= rank && drop <= rank - lower
}

/// Whether an instruction of the method at this place, if it is a call, calls a method whose rank is lower by `drop`.
fn falls_by(surveys: &[Surveyed], ranks: &[usize], at: usize, drop: usize, target: Target) -> bool
    requires by_place { AreByPlace surveys.now }
    requires known { (called : MethodId) → target ≡ named.Call called → Contains (ids_of surveys.now) called }
    ensures { IsTrue result ↔ FallsBy surveys.now ranks.now at drop target }
{
    match target {
        Target::Call(called) => {
            let to = place_of(surveys, called);
            is_lower_by(rank_at(ranks, to), rank_at(ranks, at), drop)
        }
        _ => true,
    }
}

/// Whether each call of the method at this place calls a method whose rank is lower by `drop`.
pub fn all_fall_by(surveys: &[Surveyed], ranks: &[usize], at: usize, drop: usize) -> bool
    requires by_place { AreByPlace surveys.now }
    requires closed { AreClosed surveys.now }
    requires within { at < length surveys.now }
    ensures { IsTrue result ↔ AllFallBy surveys.now ranks.now drop at }
{
    let targets = surveys[at].method.targets.as_slice();
    for target in targets {
        if !falls_by(surveys, ranks, at, drop, *target) {
            return false;
        }
    }
    true
}

/// Whether no call makes the rank greater. The numbers of the components are such ranks. A call of a method of the same rank
/// then leads back, so that the search for the first one has to be made for one method alone.
pub fn none_rises(surveys: &[Surveyed], ranks: &[usize]) -> bool
    requires by_place { AreByPlace surveys.now }
    requires closed { AreClosed surveys.now }
    ensures { IsTrue result ↔ NoneRises surveys.now ranks.now }
{
    for at in 0..surveys.len() {
        if !all_fall_by(surveys, ranks, at, 0) {
            return false;
        }
    }
    true
}
