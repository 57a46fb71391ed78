//! The check of all threads.

ghost use Rattle.std.specs.Prelude.{◌≡◌, ◌↔◌, IsTrue, IfOk};
ghost use Rattle.line_text.specs.Bounds.{IsBounds};
ghost use Rattle.orders.specs.Made.{IsMade};
ghost use Rattle.thread_runs.specs.Judged.{AreJudged, with_past};
ghost use Rattle.thread_runs.specs.Sound.{HasSoundRuns};

use crate::answers::{Runs, ThreadRun};
use crate::judge::judge;
use line_text::bounds::Bounds;
use orders::Orders;
use ports::Memory;
use std::alloc::Global;

/// Whether a thread breaks intra-thread consistency.
fn is_wrong(run: ThreadRun) -> bool
    ensures { IsTrue result ↔ (run ≡ ThreadRun.Wrong) }
{
    match run {
        ThreadRun::Wrong => true,
        _ => false,
    }
}

/// The first thread whose run leaves the bounds, with one more thread behind those before.
fn with_past(past: Option<u32>, thread: u32, run: ThreadRun) -> Option<u32>
    ensures { result ≡ with_past past thread run }
{
    match (past, run) {
        (None, ThreadRun::Past) => Some(thread),
        _ => past,
    }
}

/// Whether the threads of an execution act as runs of the program do (JLS 17.4.7: intra-thread consistency), and within the
/// bounds: the answer names the least thread that breaks intra-thread consistency, else the least one whose run leaves the
/// bounds. A run that leaves the bounds is not looked at beyond the step that does. It takes time and memory in proportion to
/// the actions and to the steps of the runs.
///
/// # Errors
///
/// `Memory` where an allocation fails.
pub fn check_runs(alloc: Global, orders: &Orders, bounds: &Bounds) -> Result<Runs, Memory>
    requires made { IsMade orders.now }
    requires bounds { IsBounds bounds.now }
    requires sound { HasSoundRuns orders.now.flat.program.now }
    ensures { IfOk result (AreJudged orders.now.flat.program.now orders.now.flat.execution.now bounds.now) }
{
    let mut past = None;
    for thread in 0..8 {
        let run = judge(alloc, orders, bounds, thread)?;
        if is_wrong(run) {
            return Ok(Runs::Wrong { thread });
        }
        past = with_past(past, thread, run);
    }
    match past {
        Some(thread) => Ok(Runs::Past { thread }),
        None => Ok(Runs::Within),
    }
}
