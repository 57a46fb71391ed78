//! The synchronization order against program order, starts and ends.

use crate::pieces::{on_nothing, on_thread, program};
use action_orders::Execution;
use execution_form::check_form;
use program::Kind;
use std::test::Fail;
use sync_agreement::check_agreement;

/// Main starts thread 1 by action 3 and detects its end by action 6; 0, 9, 10 and 14 are the first and last actions.
fn two_threads(rt: &HostRuntime, so: &[u64]) -> Result<Execution, Fail> {
    let mut execution = Execution::new(rt.alloc());
    execution.thread(0)?;
    execution.entry(on_nothing(0, 0, Kind::First))?;
    execution.entry(on_thread(3, Kind::Start, 1))?;
    execution.entry(on_thread(6, Kind::Detect, 1))?;
    execution.entry(on_nothing(0, 9, Kind::Last))?;
    execution.thread(1)?;
    execution.entry(on_nothing(1, 10, Kind::First))?;
    execution.entry(on_nothing(1, 14, Kind::Last))?;
    for id in so {
        execution.order(*id)?;
    }
    Ok(execution)
}

/// The least identifier that comes too early in the synchronization order, or 99 where the form is wrong.
fn found(rt: &HostRuntime, so: &[u64]) -> Result<Option<u64>, Fail> {
    let program = program(rt)?;
    let execution = two_threads(rt, so)?;
    match check_form(rt.alloc(), &program, &execution)? {
        Some(_) => Ok(Some(99)),
        None => Ok(check_agreement(rt.alloc(), &program, &execution)?),
    }
}

#[test]
fn agrees(rt: HostRuntime) -> Result<(), Fail> {
    assert_eq!(rt; found(&rt, &[0, 3, 10, 14, 6, 9])?, None);
    Ok(())
}

#[test]
fn program_order(rt: HostRuntime) -> Result<(), Fail> {
    assert_eq!(rt; found(&rt, &[3, 0, 10, 14, 6, 9])?, Some(3));
    assert_eq!(rt; found(&rt, &[0, 3, 14, 10, 6, 9])?, Some(14));
    assert_eq!(rt; found(&rt, &[9, 0, 3, 10, 14, 6])?, Some(9));
    Ok(())
}

#[test]
fn least_of_several(rt: HostRuntime) -> Result<(), Fail> {
    assert_eq!(rt; found(&rt, &[6, 9, 3, 0, 10, 14])?, Some(3));
    Ok(())
}

#[test]
fn start_and_first(rt: HostRuntime) -> Result<(), Fail> {
    assert_eq!(rt; found(&rt, &[0, 10, 3, 14, 6, 9])?, Some(10));
    Ok(())
}

#[test]
fn last_and_detection(rt: HostRuntime) -> Result<(), Fail> {
    assert_eq!(rt; found(&rt, &[0, 3, 10, 6, 14, 9])?, Some(6));
    Ok(())
}
