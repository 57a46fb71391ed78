//! Why a method can't be typed.

use thiserror::Error;

/// What can be wrong with the types of a method, in the order in which it is looked for (docs/PROFILE.md, "Typing").
#[derive(Clone, Copy, Debug, PartialEq, Eq)]
pub enum TypeKind {
    /// An operand or a local is missing or has another type than the instruction takes, or a return doesn't fit the method.
    TypeMisfit,
    /// The stack grows past its greatest height, or a local is used that the frame doesn't have.
    StackDepth,
    /// A monitor instruction takes something else than a class object.
    LockOperand,
    /// A monitor is left that isn't held, held at a return, or held differently on two paths.
    Unstructured,
    /// A thread is started that isn't ready, or waited for that isn't started.
    ThreadState,
}

/// Why a method has no types.
#[derive(Clone, Copy, Debug, PartialEq, Eq, Drop, Error)]
pub enum TypeRefusal {
    /// What is wrong on the shortest paths, at the least place in the code.
    #[error("the method can't be typed at {pc}")]
    Refused { kind: TypeKind, pc: u32 },
    /// There is not enough memory.
    #[error("not enough memory")]
    Memory,
}
