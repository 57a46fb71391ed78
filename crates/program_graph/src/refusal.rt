//! Why a program has no graph.

ghost use Rattle.std.specs.Prelude.{◌≡◌};
ghost use Rattle.program_graph.specs.Refusals.{refused_as};

use ports::Memory;
use pruned_graph::PruneRefusal;
use thiserror::Error;

/// Why a program has no graph, the first of these that holds.
#[derive(Debug, Drop, Error)]
pub enum GraphRefusal {
    /// The threads reach more spots than the limit.
    #[error("too many nodes")]
    CodeNodes,
    /// This thread can't end.
    #[error("thread {thread} never ends")]
    NeverEnds { thread: u32 },
    /// There are more actions than the limit.
    #[error("too many actions")]
    ActionNodes,
    /// There are more reads than the limit.
    #[error("too many reads")]
    ReadNodes,
    /// There are more multiplications than the limit.
    #[error("too many multiplications")]
    Multiplications,
    /// Want of memory.
    #[error("memory")]
    Memory,
}

impl From<Memory> for GraphRefusal {
    ghost use Rattle.program_graph.specs.declared.refusal.GraphRefusal.TheVariants.{Memory as NoMemory};

    ghost from_gives = { λ _ refusal. refusal ≡ NoMemory };

    fn from(_: Memory) -> GraphRefusal {
        GraphRefusal::Memory
    }
}

/// The same refusal.
pub fn refused(refusal: PruneRefusal) -> GraphRefusal
    ensures { result ≡ refused_as refusal }
{
    match refusal {
        PruneRefusal::CodeNodes => GraphRefusal::CodeNodes,
        PruneRefusal::NeverEnds { thread } => GraphRefusal::NeverEnds { thread },
        PruneRefusal::Memory => GraphRefusal::Memory,
    }
}
