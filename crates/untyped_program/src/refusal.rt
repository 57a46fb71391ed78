//! What limits refuse.

use thiserror::Error;

/// A limit of programs, in the order in which they are taken (docs/PROFILE.md, "Limits").
#[derive(Clone, Copy, Debug, PartialEq, Eq)]
pub enum LimitKind {
    /// More than 8 threads, main included.
    Threads,
    /// More than 16 variables.
    Variables,
    /// A chain of calls whose frames hold more than 16 ints.
    FrameSlots,
}

/// Why a program is refused.
#[derive(Debug, Drop, Error)]
pub enum LimitRefusal {
    #[error("the program passes a limit")]
    Passed(LimitKind),
    #[error("memory ran out")]
    Memory,
}
