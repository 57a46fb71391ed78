//! Propagation from a first decision, and what is learned from the conflict that it leads to.

ghost use Rattle.std.specs.Prelude.{◌≡◌, ◌*◌, ◌<◌, [], IfSome, length};
ghost use Rattle.propagation.specs.Ready.{IsConflict, IsFit};

use clause_pool::{ClauseRef, Pool};
use conflict_analysis::{Analysis, Hint};
use propagation::propagate;
use std::test::Fail;
use trail::{Reason, Trail, Value};

/// Decides a literal first of all, and propagates.
fn decide_first(pool: &mut Pool, trail: &mut Trail, literal: u32) -> Option<ClauseRef>
    requires first { trail.old.steps ≡ [] }
    requires literal { literal < 2 * trail.old.variables }
    requires literals { length pool.old.watches ≡ 2 * trail.old.variables }
    ensures fit { IfSome result (λ clause. IsFit pool.new trail.new) }
    ensures conflict { IfSome result (IsConflict pool.new trail.new) }
    ensures variables { trail.new.variables ≡ trail.old.variables }
{
    let _used = pool.used();
    match trail.value(literal) {
        Value::Open => {
            trail.assign(literal, Reason::Decision);
            propagate(pool, trail, 0)
        }
        Value::True | Value::False => None,
    }
}

#[test]
fn learns_a_unit(rt: HostRuntime) -> Result<(), Fail> {
    let mut pool = Pool::open(rt.alloc(), 40, 4, 6)?;
    let first = pool.put(&[1, 2])?;
    let second = pool.put(&[1, 3, 4])?;
    let third = pool.put(&[3, 5])?;
    let mut trail = Trail::open(rt.alloc(), 3)?;
    let mut analysis = Analysis::open(rt.alloc(), 3)?;
    let Some(conflict) = decide_first(&mut pool, &mut trail, 0) else {
        return Err(Fail::from("no conflict"));
    };
    assert_eq!(rt; analysis.analyze(&pool, &trail, conflict), 0);
    assert!(rt; *analysis.learned() == *[1].as_slice());
    let hints = analysis.hints();
    assert_eq!(rt; hints.len(), 3);
    assert!(rt; hints[0] == Hint::Stored(first));
    assert!(rt; hints[1] == Hint::Stored(second) || hints[1] == Hint::Stored(third));
    Ok(())
}

#[test]
fn propagates_to_the_end(rt: HostRuntime) -> Result<(), Fail> {
    let mut pool = Pool::open(rt.alloc(), 40, 4, 6)?;
    let _first = pool.put(&[1, 2])?;
    let _second = pool.put(&[1, 3, 4])?;
    let mut trail = Trail::open(rt.alloc(), 3)?;
    assert!(rt; decide_first(&mut pool, &mut trail, 0).is_none());
    assert_eq!(rt; trail.len(), 3);
    assert_eq!(rt; trail.value(2), Value::True);
    assert_eq!(rt; trail.value(5), Value::False);
    Ok(())
}
