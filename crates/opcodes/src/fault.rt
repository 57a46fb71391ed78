//! The least place of a method's code with a fault.

ghost use Rattle.std.specs.Prelude.{◌≡◌, ◌<◌, ◌≤◌, ◌+◌, ◌^◌, ◌↔◌, ◌⊎◌, ℕ, length, IsTrue, IfSome, IfNone};
ghost use Rattle.relations.specs.Least.{IsLeast};
ghost use Rattle.opcodes.specs.Faults.{HasFault, LeavesCode, LiesInside};
ghost use Rattle.opcodes.specs.Instructions.{Decodes};
ghost use Rattle.opcodes.specs.Survey.{IsSurveyOf, Tells};
ghost use Rattle.opcodes.specs.Scan.{IsEndBefore, IsFault, IsTargetOutside, LeavesFrom};

use crate::instruction::Instr;
use crate::reading::Misread;
use crate::survey::{Place, fall_target, jump_target};

/// What is wrong at a place.
#[derive(Clone, Copy)]
pub enum Fault {
    /// No instruction can be read there.
    Unreadable(Misread),
    /// The instruction there leaves the code, or lies inside an earlier one.
    Target,
}

/// A place and what is wrong there.
#[derive(Clone, Copy)]
pub struct Faulty {
    pub pc: u32,
    pub fault: Fault,
}

/// Whether a target lies outside a code of this many bytes.
fn is_outside(target: Option<i64>, size: usize) -> bool
    requires { size < 2 ^ 32 }
    ensures { IsTrue result ↔ IsTargetOutside size target }
{
    match target {
        Some(to) => to < 0 || size as i64 <= to,
        None => false,
    }
}

/// Whether the instruction at a place has a successor outside a code of this many bytes.
fn leaves(instr: &Instr, pc: usize, size: usize) -> bool
    requires inside { pc < size }
    requires short { size < 2 ^ 32 }
    ensures { IsTrue result ↔ LeavesFrom size pc instr.now }
{
    is_outside(fall_target(instr, pc), size) || is_outside(jump_target(instr, pc), size)
}

/// Whether the instruction at a place leaves the code, or lies inside an earlier one. The instructions
/// before it end at `end`.
fn misses_target(code: &[u8], instr: &Instr, pc: usize, end: usize) -> bool
    requires inside { pc < length code.now }
    requires short { length code.now < 2 ^ 32 }
    requires decodes { Decodes code.now pc instr.now }
    requires before { IsEndBefore code.now pc end }
    ensures { IsTrue result ↔ (LeavesCode code.now pc ⊎ LiesInside code.now pc) }
{
    if pc < end {
        return true;
    }
    leaves(instr, pc, code.len())
}

/// The first thing that is wrong at a place. The instructions before it end at `end`.
fn fault_at(code: &[u8], place: &Place, pc: usize, end: usize) -> Option<Fault>
    requires inside { pc < length code.now }
    requires short { length code.now < 2 ^ 32 }
    requires tells { Tells code.now pc place.now }
    requires before { IsEndBefore code.now pc end }
    ensures some { IfSome result (λ fault. HasFault code.now pc × IsFault code.now pc fault) }
    ensures none { IfNone result (HasFault code.now pc → ⊥) }
{
    match place {
        Place::Unreached => None,
        Place::Unreadable(why) => Some(Fault::Unreadable(*why)),
        Place::Holds(instr) => {
            if misses_target(code, instr, pc, end) {
                Some(Fault::Target)
            } else {
                None
            }
        }
    }
}

/// Where the instructions end that begin at a faultless place and before.
fn end_after(code: &[u8], place: &Place, pc: usize, end: usize) -> usize
    requires short { length code.now < 2 ^ 32 }
    requires tells { Tells code.now pc place.now }
    requires before { IsEndBefore code.now pc end }
    requires faultless { HasFault code.now pc → ⊥ }
    ensures { IsEndBefore code.now (pc + 1) result }
{
    match place {
        Place::Holds(instr) => pc + instr.length() as usize,
        _ => end,
    }
}

/// The least place with a fault, if there is one.
pub fn first_fault(code: &[u8], places: &[Place]) -> Option<Faulty>
    requires some { 0 < length code.now }
    requires short { length code.now < 2 ^ 32 }
    requires survey { IsSurveyOf code.now places.now }
    ensures some { IfSome result (λ f. IsLeast (HasFault code.now) f.pc × IsFault code.now f.pc f.fault) }
    ensures none { IfNone result ((pc : ℕ) → HasFault code.now pc → ⊥) }
{
    let mut end = 0;
    for (pc, place) in places.iter().enumerate() {
        if let Some(fault) = fault_at(code, place, pc, end) {
            return Some(Faulty {
                pc: pc as u32,
                fault,
            });
        }
        end = end_after(code, place, pc, end);
    }
    None
}
