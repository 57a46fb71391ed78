//! A trail over three variables.

ghost use Rattle.std.specs.Prelude.{◌≡◌, ◌*◌, ◌<◌};

use std::test::Fail;
use trail::{Reason, Trail, Value};

/// Makes a literal true where it has no value, and says whether.
fn assign_open(trail: &mut Trail, literal: u32, reason: Reason) -> bool
    requires { literal < 2 * trail.old.variables }
    ensures { trail.new.variables ≡ trail.old.variables }
{
    match trail.value(literal) {
        Value::Open => {
            trail.assign(literal, reason);
            true
        }
        Value::True | Value::False => false,
    }
}

/// The level and the reason of a literal that has a value.
fn kept(trail: &Trail, literal: u32) -> Option<(u32, Reason)>
    requires { literal < 2 * trail.now.variables }
{
    match trail.value(literal) {
        Value::Open => None,
        Value::True | Value::False => Some((trail.level_of(literal), trail.reason_of(literal))),
    }
}

#[test]
fn decides_and_goes_back(rt: HostRuntime) -> Result<(), Fail> {
    let mut trail = Trail::open(rt.alloc(), 3)?;
    assert!(rt; trail.is_empty());
    assert!(rt; assign_open(&mut trail, 0, Reason::Decisions));
    assert!(rt; assign_open(&mut trail, 3, Reason::Decision));
    assert!(rt; !assign_open(&mut trail, 2, Reason::Decision));
    assert_eq!(rt; trail.len(), 2);
    assert_eq!(rt; trail.level(), 1);
    assert_eq!(rt; trail.value(2), Value::False);
    assert_eq!(rt; trail.value(3), Value::True);
    assert!(rt; kept(&trail, 1) == Some((0, Reason::Decisions)));
    assert!(rt; kept(&trail, 2) == Some((1, Reason::Decision)));
    assert!(rt; kept(&trail, 4) == None);
    trail.back_to(0);
    assert_eq!(rt; trail.len(), 1);
    assert_eq!(rt; trail.value(2), Value::Open);
    assert_eq!(rt; trail.value(0), Value::True);
    Ok(())
}

#[test]
fn steps_in_order(rt: HostRuntime) -> Result<(), Fail> {
    let mut trail = Trail::open(rt.alloc(), 3)?;
    assert!(rt; assign_open(&mut trail, 5, Reason::Decision));
    assert!(rt; assign_open(&mut trail, 1, Reason::Decisions));
    assert_eq!(rt; trail.len(), 2);
    assert_eq!(rt; trail.step(0).literal, 5);
    assert_eq!(rt; trail.step(1).literal, 1);
    Ok(())
}
