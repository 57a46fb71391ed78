//! Why a program has no graph.

ghost use Rattle.std.specs.Prelude.{◌≡◌};

use ports::Memory;
use thiserror::Error;

/// Why a program has no graph.
#[derive(Debug, Drop, Error)]
pub enum PruneRefusal {
    /// The threads reach more spots than the limit.
    #[error("too many nodes")]
    CodeNodes,
    /// This thread can't end.
    #[error("thread {thread} never ends")]
    NeverEnds { thread: u32 },
    /// Want of memory.
    #[error("memory")]
    Memory,
}

impl From<Memory> for PruneRefusal {
    ghost use Rattle.pruned_graph.specs.declared.refusal.PruneRefusal.TheVariants.{Memory as NoMemory};

    ghost from_gives = { λ _ refusal. refusal ≡ NoMemory };

    fn from(_: Memory) -> PruneRefusal {
        PruneRefusal::Memory
    }
}
