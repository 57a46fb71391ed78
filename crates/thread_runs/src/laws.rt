//! A law of the answers, as the contract of a function that does nothing.

ghost use Rattle.thread_runs.specs.Laws.{ConsistentThreadsKeep};

/// A thread that is consistent is so as far as the bounds reach: so one that breaks consistency as far as the bounds reach breaks
/// it.
pub fn consistent_threads_keep()
    ensures { ConsistentThreadsKeep }
{}
