//! Where a thread can stand.

ghost use Rattle.std.specs.Prelude.{◌≡◌, IfOk};

use crate::chain::Chain;
use ports::Memory;
use std::alloc::Global;

/// A thread before an instruction: how many backward jumps it has taken, where the instruction is, and what the instruction
/// answers, if it asks whether a thread is alive (true where it is; false at every other instruction).
#[derive(Debug, PartialEq, Eq, PartialOrd, Ord, Drop)]
pub struct Standing {
    pub jumps: u32,
    pub places: Chain,
    pub answer: bool,
}

/// Where a thread can stand: before it acts, before an instruction, or behind its last one.
#[derive(Debug, PartialEq, Eq, PartialOrd, Ord, Drop)]
pub enum Position {
    Begin,
    At(Standing),
    End,
}

/// A place of the graph: a thread, and where it stands. Spots are ordered by thread; in a thread its beginning comes first,
/// then the spots by jumps, by places, and by answer, and its end comes last.
#[derive(Debug, PartialEq, Eq, PartialOrd, Ord, Drop)]
pub struct Spot {
    pub thread: u32,
    pub position: Position,
}

impl Standing {
    /// The same one.
    ///
    /// # Errors
    /// `Memory` where there is no room for its places.
    fn copy(&self, alloc: Global) -> Result<Standing, Memory>
        ensures { IfOk result (λ copy. copy ≡ self.now) }
    {
        Ok(Standing {
            jumps: self.jumps,
            places: self.places.copy(alloc)?,
            answer: self.answer,
        })
    }
}

impl Position {
    /// The same one.
    ///
    /// # Errors
    /// `Memory` where there is no room for its places.
    fn copy(&self, alloc: Global) -> Result<Position, Memory>
        ensures { IfOk result (λ copy. copy ≡ self.now) }
    {
        match self {
            Position::Begin => Ok(Position::Begin),
            Position::At(stand) => Ok(Position::At(stand.copy(alloc)?)),
            Position::End => Ok(Position::End),
        }
    }
}

impl Spot {
    /// The same spot.
    ///
    /// # Errors
    /// `Memory` where there is no room for its places.
    pub fn copy(&self, alloc: Global) -> Result<Spot, Memory>
        ensures { IfOk result (λ copy. copy ≡ self.now) }
    {
        Ok(Spot {
            thread: self.thread,
            position: self.position.copy(alloc)?,
        })
    }
}
