//! The first of the faults of one method.

ghost use Rattle.std.specs.Prelude.{◌≡◌};
ghost use Rattle.reached_methods.specs.CodeFaults.{rank};
ghost use Rattle.reached_methods.specs.FirstFault.{comes_first, earlier_of};

use crate::refusal::{CodeKind, Detail};

/// What is wrong at a place of a method's code.
#[derive(Debug, Drop)]
pub struct Fault {
    pub pc: u32,
    pub kind: CodeKind,
    pub detail: Detail,
}

/// The place of a kind in the order in which kinds count at one place.
fn rank(kind: CodeKind) -> u32
    ensures { result ≡ rank kind }
{
    match kind {
        CodeKind::Opcode => 9,
        CodeKind::CutInstruction => 10,
        CodeKind::JumpTarget => 11,
        CodeKind::UnknownName => 12,
        CodeKind::ForbiddenCall => 13,
        CodeKind::FinalAccess => 14,
        CodeKind::Recursion => 15,
        CodeKind::ThreadInLoop => 16,
    }
}

/// Whether a fault stands at an earlier place than another, or is of an earlier kind at one place.
fn comes_first(fault: &Fault, other: &Fault) -> bool
    ensures { result ≡ comes_first fault.now other.now }
{
    fault.pc < other.pc || fault.pc == other.pc && rank(fault.kind) < rank(other.kind)
}

/// The earlier of two faults.
pub fn earlier(first: Option<Fault>, second: Option<Fault>) -> Option<Fault>
    ensures { result ≡ earlier_of first second }
{
    match (first, second) {
        (Some(first), Some(second)) => {
            if comes_first(&second, &first) {
                Some(second)
            } else {
                Some(first)
            }
        }
        (Some(first), None) => Some(first),
        (None, second) => second,
    }
}
