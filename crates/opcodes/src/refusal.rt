use crate::listed::Listing;
use thiserror::Error;

/// Why a method's code is no code of the profile. Each refusal but the last names the least place that
/// is wrong, and carries the list of all reached instructions.
#[derive(Debug, Drop, Error)]
pub enum OpcodeRefusal {
    /// The byte at `pc` is the number of no instruction of the profile.
    #[error("the opcode {number} at {pc} is not of the profile")]
    Opcode {
        pc: u32,
        number: u8,
        listing: Listing,
    },
    /// The operands of the instruction at `pc` pass the end of the code.
    #[error("the instruction at {pc} passes the end of the code")]
    CutInstruction {
        pc: u32,
        listing: Listing,
    },
    /// A successor of the instruction at `pc` lies outside the code, or `pc` lies inside another reached
    /// instruction that begins earlier.
    #[error("a jump at or to {pc} does not meet an instruction")]
    JumpTarget {
        pc: u32,
        listing: Listing,
    },
    /// Memory is short.
    #[error("out of memory")]
    Memory,
}
