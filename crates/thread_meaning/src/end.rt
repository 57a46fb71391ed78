//! Why there is no trace.

use thiserror::Error;

/// Why a thread has no run with the given reads in the given bounds.
#[derive(Debug, Drop, Error)]
pub enum TraceEnd {
    /// The next step is a read, and all values are used.
    #[error("a read comes after the end of the list of reads")]
    ReadsShort,
    /// The run ended with this many values left.
    #[error("the run ended with {count} reads left")]
    ReadsLeft { count: u64 },
    /// The next step is a backward jump, and all of them are used.
    #[error("the run takes too many backward jumps")]
    PastJumps,
    /// The next step pushes or stores an int that is too wide.
    #[error("the run has an int that is too wide")]
    PastWidth,
    /// The program has no step here, or calls a method within itself.
    #[error("the program has no step here")]
    NotLinked,
    /// There was no room.
    #[error("out of memory")]
    Memory,
}
