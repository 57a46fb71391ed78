//! What can be wrong with the instructions of reached methods.

use program::{MethodId, Name};
use thiserror::Error;

/// What can be wrong with an instruction, in the order in which it counts at one place (docs/PROFILE.md, "Refusals of
/// instructions").
#[derive(Clone, Copy, Debug, PartialEq, Eq)]
pub enum CodeKind {
    /// The number is that of no instruction of the profile.
    Opcode,
    /// The operands pass the end of the code.
    CutInstruction,
    /// A successor lies outside the code, or the place inside another reached instruction.
    JumpTarget,
    /// A field, a method or a class is named that is not there.
    UnknownName,
    /// The profile has no such call.
    ForbiddenCall,
    /// A final field is read or written.
    FinalAccess,
    /// A call leads back to its own method.
    Recursion,
    /// A thread is made in a loop.
    ThreadInLoop,
}

/// What a refusal names beside the place.
#[derive(Debug, Drop)]
pub enum Detail {
    Nothing,
    /// The number of an unknown instruction.
    Number(u8),
    /// A class, `C.n` for a field, `C.n` and the descriptor for a method.
    Name(Name),
}

/// Why the code of the reached methods is not of the profile.
#[derive(Debug, Drop, Error)]
pub enum CodeRefusal {
    /// The first fault of all reached methods: by method, by place in its code, and by kind.
    #[error("the instruction at {pc} of a reached method is not of the profile")]
    Refused {
        kind: CodeKind,
        method: MethodId,
        pc: u32,
        detail: Detail,
    },
    /// There is not enough memory.
    #[error("not enough memory")]
    Memory,
}
