//! What a run of a thread shows of itself to the other threads and to the outside.

/// An event of a thread's run (docs/MODEL.md, "Programs and runs"). Variables and monitors are places in the program's lists.
#[derive(Clone, Copy, Debug, PartialEq, Eq)]
pub enum Event {
    /// The run begins.
    First,
    /// The run has ended.
    Last,
    /// A variable is read, and gives this value.
    Read { variable: u32, value: i32 },
    /// A variable is written.
    Write { variable: u32, value: i32 },
    /// A monitor is locked.
    Lock { monitor: u32 },
    /// A monitor is unlocked.
    Unlock { monitor: u32 },
    /// A thread is started.
    Start { thread: u32 },
    /// The end of a thread is detected.
    Detect { thread: u32 },
    /// A value is printed.
    Print { value: i32 },
}
