use thiserror::Error;

/// Memory ran out.
#[derive(Clone, Copy, Debug, PartialEq, Eq, Drop, Error)]
#[error("memory ran out")]
pub struct Memory;

/// A file or a sink failed. Its count of faults rose in the call.
#[derive(Clone, Copy, Debug, PartialEq, Eq, Drop, Error)]
#[error("the file or sink failed")]
pub struct Failed;
