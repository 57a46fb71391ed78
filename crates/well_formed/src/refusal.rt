//! Why an execution is not well-formed within bounds.

ghost use Rattle.std.specs.Prelude.{◌≡◌};

use ports::Memory;
use thiserror::Error;

/// Why an execution is not well-formed within bounds.
#[derive(Debug, Drop, Error)]
pub enum NotWellFormed {
    /// The least clause that fails, by its number (docs/MODEL.md, "Well-formed executions"; 7 is the bounds), and the least
    /// place where it does: a thread for clauses 4 and 7, an identifier for the others.
    #[error("clause {number} fails at {at}")]
    Clause { number: u8, at: u64 },
    /// Want of memory.
    #[error("memory")]
    Memory,
}

impl From<Memory> for NotWellFormed {
    ghost use Rattle.well_formed.specs.declared.refusal.NotWellFormed.TheVariants.{Memory as NoMemory};

    ghost from_gives = { λ _ refusal. refusal ≡ NoMemory };

    fn from(_: Memory) -> NotWellFormed {
        NotWellFormed::Memory
    }
}
