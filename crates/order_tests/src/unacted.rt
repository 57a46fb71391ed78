//! The orders of an execution in which no thread acts.

use action_orders::{ActionRef, Execution};
use mutual_exclusion::check_locks;
use orders::orders;
use program::{Name, Program};
use std::test::Fail;

#[test]
fn no_action(rt: HostRuntime) -> Result<(), Fail> {
    let program = Program::new(rt.alloc());
    let execution = Execution::new(rt.alloc());
    let all = orders(rt.alloc(), &program, &execution)?;
    let action = ActionRef::Id(7);
    let default = ActionRef::Default {
        class: Name::copied(rt.alloc(), b"M")?,
        name: Name::copied(rt.alloc(), b"x")?,
    };
    assert!(rt; !all.po(&action, &action));
    assert!(rt; !all.so(&action, &action));
    assert!(rt; !all.so(&default, &action));
    assert!(rt; !all.so(&default, &default));
    assert!(rt; !all.so(&action, &default));
    assert!(rt; !all.hb(&action, &action));
    assert!(rt; !all.hb(&default, &action));
    assert!(rt; !all.hb(&action, &default));
    assert!(rt; !all.sw(&action, &action));
    assert!(rt; !all.sw(&default, &action));
    assert!(rt; !all.ssw(&action, &action));
    assert!(rt; !all.ssw(&default, &action));
    assert!(rt; check_locks(rt.alloc(), &all)?.is_none());
    Ok(())
}
