//! Why there is no list of reached spots.

ghost use Rattle.std.specs.Prelude.{◌≡◌};

use ports::Memory;
use thiserror::Error;

/// Why there is no list of reached spots.
#[derive(Debug, Drop, Error)]
pub enum ReachRefusal {
    /// There are more of them than the limit.
    #[error("too many nodes")]
    TooMany,
    /// Want of memory.
    #[error("memory")]
    Memory,
}

impl From<Memory> for ReachRefusal {
    ghost use Rattle.reached_spots.specs.declared.refusal.ReachRefusal.TheVariants.{Memory as NoMemory};

    ghost from_gives = { λ _ refusal. refusal ≡ NoMemory };

    fn from(_: Memory) -> ReachRefusal {
        ReachRefusal::Memory
    }
}
