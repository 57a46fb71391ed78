//! Laws of steps and runs, as contracts of functions that do nothing.

ghost use Rattle.thread_meaning.specs.Laws.{OneStep, OneRun, RefusalsAreExact};

/// A step is determined by its state and by the value that it reads.
pub fn one_step()
    ensures { OneStep }
{}

/// A run is determined by its reads and by the threads that it finds ended.
pub fn one_run()
    ensures { OneRun }
{}

/// A trace is refused, but for want of memory, only where there is no run to be had.
pub fn refusals_are_exact()
    ensures { RefusalsAreExact }
{}
