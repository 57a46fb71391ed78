//! How threads stand to their runs.

/// How the threads of an execution stand to their runs.
#[derive(Clone, Copy, Debug, PartialEq, Eq)]
pub enum Runs {
    /// Each thread acts exactly where it may, and has a run within the bounds with exactly its actions.
    Within,
    /// The least thread that breaks intra-thread consistency: it acts where it may not, or doesn't act where it is started, or
    /// its run stays in bounds as far as its reads go, and is none with its actions.
    Wrong { thread: u32 },
    /// No thread breaks intra-thread consistency as far as the bounds reach; this is the least one whose run leaves the bounds.
    Past { thread: u32 },
}

/// How one thread stands to its run.
#[derive(Clone, Copy, Debug, PartialEq, Eq)]
pub enum ThreadRun {
    /// It has a run within the bounds with exactly its actions, or rightly doesn't act.
    Within,
    /// Its run leaves the bounds.
    Past,
    /// It breaks intra-thread consistency.
    Wrong,
}
