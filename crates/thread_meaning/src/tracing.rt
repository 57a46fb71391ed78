//! The trace of a thread.

ghost use Rattle.std.specs.Prelude.{◌<◌, length, IfOk, IfErr};
ghost use Rattle.line_text.specs.Bounds.{IsBounds};
ghost use Rattle.thread_meaning.specs.Tracing.{HasRun, IsRefused, FindsRun, has_ended};
ghost use Rattle.thread_meaning.specs.Paths.{IsOrdered};

use crate::end::TraceEnd;
use crate::walk::{Trace, begin};
use line_text::bounds::Bounds;
use program::Program;
use std::alloc::Global;

/// Goes along the run from its entry on.
fn follow(
    alloc: Global,
    program: &Program,
    thread: u32,
    reads: &[i32],
    ended: u8,
    bounds: &Bounds,
) -> Result<Trace, TraceEnd>
    requires thread { thread < length program.now.threads }
    requires bounds { IsBounds bounds.now }
    ensures ok { IfOk result (λ t. HasRun program.now thread (has_ended ended) reads.now bounds.now t.events t.printed) }
    ensures err { IfErr result (IsRefused program.now thread (has_ended ended) reads.now bounds.now) }
{
    let mut walk = begin(alloc, program, thread, bounds)?;
    'steps: while !walk.frames.is_empty() {
        walk.advance(alloc, program, reads, ended, bounds)?;
    }
    walk.finish(reads.len())
}

/// The trace of a thread, for the values of its reads and the threads that its `isAlive` calls find ended (bit k of `ended`
/// stands for thread k), within bounds.
///
/// # Errors
/// `ReadsShort` where the next step is a read and all values are used, `ReadsLeft` where the run ended with values left,
/// `PastJumps` and `PastWidth` at the first step that leaves the bounds, `NotLinked` where the program has no step or calls
/// a method within itself, `Memory` where there is no room.
pub fn trace(
    alloc: Global,
    program: &Program,
    thread: u32,
    reads: &[i32],
    ended: u8,
    bounds: &Bounds,
) -> Result<Trace, TraceEnd>
    requires thread { thread < length program.now.threads }
    requires bounds { IsBounds bounds.now }
    ensures ok { IfOk result (λ t. HasRun program.now thread (has_ended ended) reads.now bounds.now t.events t.printed) }
    ensures err { IfErr result (IsRefused program.now thread (has_ended ended) reads.now bounds.now) }
    ensures exactly { IsOrdered program.now → FindsRun program.now thread (has_ended ended) reads.now bounds.now result }
{
    follow(alloc, program, thread, reads, ended, bounds)
}
