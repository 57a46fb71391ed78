//! The form of executions: one execution for each way to break it.

ghost use Rattle.action_orders.specs.Execution.{IsEntryOf};
ghost use Rattle.action_orders.specs.Spelling.{IsSpeltEntry};

use crate::pieces::{on_field, on_monitor, on_nothing, on_thread, program};
use action_orders::{Entry, Execution, Note};
use execution_form::check_form;
use program::Kind;
use std::test::Fail;

/// Main alone, with action 0 first, one more action, and action 9 last; and the synchronization order.
fn alone(rt: &HostRuntime, entry: Entry, so: &[u64]) -> Result<Execution, Fail>
    requires fits { IsEntryOf 0 entry }
    requires spelt { IsSpeltEntry entry }
{
    let mut execution = Execution::new(rt.alloc());
    execution.thread(0)?;
    execution.entry(on_nothing(0, 0, Kind::First))?;
    execution.entry(entry)?;
    execution.entry(on_nothing(0, 9, Kind::Last))?;
    for id in so {
        execution.order(*id)?;
    }
    Ok(execution)
}

/// The least identifier at which the form is wrong.
fn found(rt: &HostRuntime, entry: Entry, so: &[u64]) -> Result<Option<u64>, Fail>
    requires fits { IsEntryOf 0 entry }
    requires spelt { IsSpeltEntry entry }
{
    let program = program(rt)?;
    let execution = alone(rt, entry, so)?;
    Ok(check_form(rt.alloc(), &program, &execution)?)
}

#[test]
fn right(rt: HostRuntime) -> Result<(), Fail> {
    let write = on_field(&rt, Kind::Write, b'x', Note::Stores(1))?;
    assert_eq!(rt; found(&rt, write, &[0, 9])?, None);
    let read = on_field(&rt, Kind::Read, b'x', Note::Sees(None))?;
    assert_eq!(rt; found(&rt, read, &[0, 9])?, None);
    let volatile = on_field(&rt, Kind::VolatileRead, b'v', Note::Sees(None))?;
    assert_eq!(rt; found(&rt, volatile, &[0, 5, 9])?, None);
    let lock = on_monitor(&rt, Kind::Lock, b'M')?;
    assert_eq!(rt; found(&rt, lock, &[0, 5, 9])?, None);
    assert_eq!(rt; found(&rt, on_thread(5, Kind::Start, 1), &[0, 5, 9])?, None);
    assert_eq!(rt; found(&rt, on_nothing(0, 5, Kind::Print), &[0, 9])?, None);
    Ok(())
}

#[test]
fn identifier_twice(rt: HostRuntime) -> Result<(), Fail> {
    assert_eq!(rt;
        found(&rt, on_nothing(0, 9, Kind::Print), &[0, 9])?,
        Some(9)
    );
    Ok(())
}

#[test]
fn operand_that_is_not_there(rt: HostRuntime) -> Result<(), Fail> {
    let write = on_field(&rt, Kind::Write, b'y', Note::Stores(1))?;
    assert_eq!(rt; found(&rt, write, &[0, 9])?, Some(5));
    let lock = on_monitor(&rt, Kind::Lock, b'N')?;
    assert_eq!(rt; found(&rt, lock, &[0, 5, 9])?, Some(5));
    assert_eq!(rt;
        found(&rt, on_thread(5, Kind::Detect, 2), &[0, 5, 9])?,
        Some(5)
    );
    Ok(())
}

#[test]
fn write_that_is_none(rt: HostRuntime) -> Result<(), Fail> {
    let sees_last = on_field(&rt, Kind::Read, b'x', Note::Sees(Some(9)))?;
    assert_eq!(rt; found(&rt, sees_last, &[0, 9])?, Some(5));
    let sees_itself = on_field(&rt, Kind::VolatileRead, b'v', Note::Sees(Some(5)))?;
    assert_eq!(rt; found(&rt, sees_itself, &[0, 5, 9])?, Some(5));
    Ok(())
}

#[test]
fn volatile_or_not(rt: HostRuntime) -> Result<(), Fail> {
    let volatile_read = on_field(&rt, Kind::VolatileRead, b'x', Note::Sees(None))?;
    assert_eq!(rt; found(&rt, volatile_read, &[0, 5, 9])?, Some(5));
    let plain_write = on_field(&rt, Kind::Write, b'v', Note::Stores(1))?;
    assert_eq!(rt; found(&rt, plain_write, &[0, 9])?, Some(5));
    Ok(())
}

#[test]
fn synchronization_order(rt: HostRuntime) -> Result<(), Fail> {
    let lock = on_monitor(&rt, Kind::Lock, b'M')?;
    assert_eq!(rt; found(&rt, lock, &[0, 9])?, Some(5));
    assert_eq!(rt;
        found(&rt, on_nothing(0, 5, Kind::Print), &[0, 5, 9])?,
        Some(5)
    );
    assert_eq!(rt;
        found(&rt, on_nothing(0, 5, Kind::Print), &[0, 7, 9])?,
        Some(7)
    );
    assert_eq!(rt;
        found(&rt, on_nothing(0, 5, Kind::Print), &[0, 9, 0])?,
        Some(0)
    );
    assert_eq!(rt;
        found(&rt, on_nothing(0, 5, Kind::Print), &[9, 9, 7, 0])?,
        Some(7)
    );
    Ok(())
}
