//! The kinds of actions (JLS 17.4.2).

/// What an action does.
#[derive(Clone, Copy, Debug, PartialEq, Eq)]
pub enum Kind {
    /// Reads a variable that is not volatile.
    Read,
    /// Writes a variable that is not volatile.
    Write,
    /// Reads a volatile variable.
    VolatileRead,
    /// Writes a volatile variable.
    VolatileWrite,
    /// Locks a monitor.
    Lock,
    /// Unlocks a monitor.
    Unlock,
    /// The first action of a thread.
    First,
    /// The last action of a thread.
    Last,
    /// Starts a thread.
    Start,
    /// Detects that a thread has ended.
    Detect,
    /// Prints a value: the one external action.
    Print,
}
