//! Reads against happens-before.

ghost use Rattle.action_orders.specs.Execution.{IsEntryOf};
ghost use Rattle.action_orders.specs.Spelling.{IsSpeltEntry};

use crate::pieces::{on_field, on_nothing, program, start};
use action_orders::{Entry, Execution, Note};
use execution_form::check_form;
use happens_before_reads::check_reads;
use orders::orders;
use program::Kind;
use std::test::Fail;
use sync_agreement::check_agreement;

/// The least read that disagrees with happens-before; 99 where the form of the execution is wrong, 98 where its order is.
fn found(rt: &HostRuntime, execution: &Execution) -> Result<Option<u64>, Fail> {
    let program = program(rt)?;
    let _threads = execution.threads();
    match check_form(rt.alloc(), &program, execution)? {
        Some(_) => Ok(Some(99)),
        None => match check_agreement(rt.alloc(), &program, execution)? {
            Some(_) => Ok(Some(98)),
            None => {
                let all = orders(rt.alloc(), &program, execution)?;
                Ok(check_reads(rt.alloc(), &all)?)
            }
        },
    }
}

/// Main alone, with two actions between its first one, 0, and its last one, 9; and the synchronization order.
fn alone(rt: &HostRuntime, one: Entry, other: Entry, so: &[u64]) -> Result<Option<u64>, Fail>
    requires fits { IsEntryOf 0 one }
    requires spelt { IsSpeltEntry one }
    requires other_fits { IsEntryOf 0 other }
    requires other_spelt { IsSpeltEntry other }
{
    let mut execution = Execution::new(rt.alloc());
    execution.thread(0)?;
    execution.entry(on_nothing(0, 0, Kind::First))?;
    execution.entry(one)?;
    execution.entry(other)?;
    execution.entry(on_nothing(0, 9, Kind::Last))?;
    for id in so {
        execution.order(*id)?;
    }
    found(rt, &execution)
}

/// Main alone, with three actions between its first one, 0, and its last one, 9.
fn alone_with_three(
    rt: &HostRuntime,
    one: Entry,
    other: Entry,
    third: Entry,
) -> Result<Option<u64>, Fail>
    requires fits { IsEntryOf 0 one }
    requires spelt { IsSpeltEntry one }
    requires other_fits { IsEntryOf 0 other }
    requires other_spelt { IsSpeltEntry other }
    requires third_fits { IsEntryOf 0 third }
    requires third_spelt { IsSpeltEntry third }
{
    let mut execution = Execution::new(rt.alloc());
    execution.thread(0)?;
    execution.entry(on_nothing(0, 0, Kind::First))?;
    execution.entry(one)?;
    execution.entry(other)?;
    execution.entry(third)?;
    execution.entry(on_nothing(0, 9, Kind::Last))?;
    execution.order(0)?;
    execution.order(9)?;
    found(rt, &execution)
}

/// Main, with a read between its start, 3, of thread 1 and its last action, 9; and thread 1, with a write between its first
/// action, 10, and its last one, 14.
fn race(rt: &HostRuntime, read: Entry, write: Entry, so: &[u64]) -> Result<Option<u64>, Fail>
    requires fits { IsEntryOf 0 read }
    requires spelt { IsSpeltEntry read }
    requires other_fits { IsEntryOf 1 write }
    requires other_spelt { IsSpeltEntry write }
{
    let mut execution = Execution::new(rt.alloc());
    execution.thread(0)?;
    execution.entry(on_nothing(0, 0, Kind::First))?;
    execution.entry(start(3))?;
    execution.entry(read)?;
    execution.entry(on_nothing(0, 9, Kind::Last))?;
    execution.thread(1)?;
    execution.entry(on_nothing(1, 10, Kind::First))?;
    execution.entry(write)?;
    execution.entry(on_nothing(1, 14, Kind::Last))?;
    for id in so {
        execution.order(*id)?;
    }
    found(rt, &execution)
}

#[test]
fn plain_race(rt: HostRuntime) -> Result<(), Fail> {
    let seen = on_field(&rt, 0, 4, Kind::Read, b'x', Note::Sees(Some(12)))?;
    let write = on_field(&rt, 1, 12, Kind::Write, b'x', Note::Stores(1))?;
    assert_eq!(rt; race(&rt, seen, write, &[0, 3, 10, 14, 9])?, None);
    let default = on_field(&rt, 0, 4, Kind::Read, b'x', Note::Sees(None))?;
    let write = on_field(&rt, 1, 12, Kind::Write, b'x', Note::Stores(1))?;
    assert_eq!(rt; race(&rt, default, write, &[0, 3, 10, 14, 9])?, None);
    Ok(())
}

#[test]
fn default_that_was_overwritten(rt: HostRuntime) -> Result<(), Fail> {
    let write = on_field(&rt, 0, 2, Kind::Write, b'x', Note::Stores(5))?;
    let read = on_field(&rt, 0, 4, Kind::Read, b'x', Note::Sees(None))?;
    assert_eq!(rt; alone(&rt, write, read, &[0, 9])?, Some(4));
    let read = on_field(&rt, 0, 2, Kind::Read, b'x', Note::Sees(None))?;
    let write = on_field(&rt, 0, 4, Kind::Write, b'x', Note::Stores(5))?;
    assert_eq!(rt; alone(&rt, read, write, &[0, 9])?, None);
    Ok(())
}

#[test]
fn write_that_was_overwritten(rt: HostRuntime) -> Result<(), Fail> {
    let first = on_field(&rt, 0, 2, Kind::Write, b'x', Note::Stores(5))?;
    let second = on_field(&rt, 0, 3, Kind::Write, b'x', Note::Stores(6))?;
    let read = on_field(&rt, 0, 4, Kind::Read, b'x', Note::Sees(Some(2)))?;
    assert_eq!(rt; alone_with_three(&rt, first, second, read)?, Some(4));
    let first = on_field(&rt, 0, 2, Kind::Write, b'x', Note::Stores(5))?;
    let second = on_field(&rt, 0, 3, Kind::Write, b'x', Note::Stores(6))?;
    let read = on_field(&rt, 0, 4, Kind::Read, b'x', Note::Sees(Some(3)))?;
    assert_eq!(rt; alone_with_three(&rt, first, second, read)?, None);
    Ok(())
}

#[test]
fn own_write(rt: HostRuntime) -> Result<(), Fail> {
    let write = on_field(&rt, 0, 2, Kind::Write, b'x', Note::Stores(5))?;
    let read = on_field(&rt, 0, 4, Kind::Read, b'x', Note::Sees(Some(2)))?;
    assert_eq!(rt; alone(&rt, write, read, &[0, 9])?, None);
    Ok(())
}

#[test]
fn later_write_of_its_thread(rt: HostRuntime) -> Result<(), Fail> {
    let read = on_field(&rt, 0, 2, Kind::Read, b'x', Note::Sees(Some(4)))?;
    let write = on_field(&rt, 0, 4, Kind::Write, b'x', Note::Stores(5))?;
    assert_eq!(rt; alone(&rt, read, write, &[0, 9])?, Some(2));
    Ok(())
}

#[test]
fn volatile_read(rt: HostRuntime) -> Result<(), Fail> {
    let write = on_field(&rt, 0, 2, Kind::VolatileWrite, b'v', Note::Stores(5))?;
    let read = on_field(&rt, 0, 4, Kind::VolatileRead, b'v', Note::Sees(None))?;
    assert_eq!(rt; alone(&rt, write, read, &[0, 2, 4, 9])?, Some(4));
    Ok(())
}

#[test]
fn volatile_write_of_another_thread(rt: HostRuntime) -> Result<(), Fail> {
    let seen = on_field(&rt, 0, 4, Kind::VolatileRead, b'v', Note::Sees(Some(12)))?;
    let write = on_field(&rt, 1, 12, Kind::VolatileWrite, b'v', Note::Stores(1))?;
    assert_eq!(rt; race(&rt, seen, write, &[0, 3, 10, 12, 4, 14, 9])?, None);
    let default = on_field(&rt, 0, 4, Kind::VolatileRead, b'v', Note::Sees(None))?;
    let write = on_field(&rt, 1, 12, Kind::VolatileWrite, b'v', Note::Stores(1))?;
    assert_eq!(rt;
        race(&rt, default, write, &[0, 3, 10, 12, 4, 14, 9])?,
        Some(4)
    );
    Ok(())
}
