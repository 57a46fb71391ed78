use class_profile::ClassKind;
use program::MethodId;
use reached_methods::{CodeKind, Detail};
use thiserror::Error;
use typing::TypeKind;
use untyped_program::LimitKind;

/// Why classes make no program of the profile: the first of four phases that finds something, and the first that it finds
/// (docs/PROFILE.md, "Linking").
#[derive(Debug, Drop, Error)]
pub enum ProgramRefusal {
    /// The classes are not of the profile. NoMain has no class.
    #[error("the classes are not of the profile")]
    Class {
        kind: ClassKind,
        class: Option<u32>,
    },
    /// An instruction of a reached method is wrong.
    #[error("the instruction at {pc} of a reached method is not of the profile")]
    Code {
        kind: CodeKind,
        method: MethodId,
        pc: u32,
        detail: Detail,
    },
    /// A reached method can't be typed.
    #[error("a reached method can't be typed at {pc}")]
    Typing {
        kind: TypeKind,
        method: MethodId,
        pc: u32,
    },
    /// The program passes a limit.
    #[error("the program passes a limit")]
    Limit(LimitKind),
    /// There is not enough memory.
    #[error("not enough memory")]
    Memory,
}
