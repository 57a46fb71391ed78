//! What is said of the runs of small executions.

use crate::classes::linked;
use crate::executions::built;
use crate::rows::{ROWS, Row};
use execution_form::check_form;
use line_text::bounds::Bounds;
use orders::orders;
use std::alloc::Global;
use std::process::Abort;
use std::test::Fail;
use sync_agreement::check_agreement;
use thread_runs::{Runs, check_runs};

/// The answer, or none where the execution doesn't meet the first two clauses of well-formedness.
fn judged(rt: &impl Abort, alloc: Global, row: &Row) -> Result<Option<Runs>, Fail> {
    let program = linked(alloc, row.main, row.run)?;
    let execution = built(rt, alloc, &row.execution)?;
    if check_form(alloc, &program, &execution)?.is_some() {
        return Ok(None);
    }
    if check_agreement(alloc, &program, &execution)?.is_some() {
        return Ok(None);
    }
    assert!(rt; row.jumps <= 255);
    assert!(rt; 2 <= row.width);
    assert!(rt; row.width <= 32);
    let bounds = Bounds {
        jumps: row.jumps,
        width: row.width,
    };
    let all = orders(alloc, &program, &execution)?;
    Ok(Some(check_runs(alloc, &all, &bounds)?))
}

#[test]
fn judges(rt: HostRuntime) -> Result<(), Fail> {
    for (place, row) in ROWS.iter().enumerate() {
        assert_eq!(rt;
            (place, judged(&rt, rt.alloc(), row)?),
            (place, Some(row.want))
        );
    }
    Ok(())
}
