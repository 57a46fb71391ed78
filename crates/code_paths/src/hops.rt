//! The steps along the code from where a thread stands.

ghost use Rattle.std.specs.Prelude.{◌≡◌, ◌+ℤ◌, ◌∷◌, ◌↔◌, ℤ, IfOk, IsTrue, pos};
ghost use Rattle.program.specs.Bounds.{Hop, IsReturn, Successor};
ghost use Rattle.program.specs.Bounds as spec;
ghost use Rattle.thread_meaning.specs.Changes.{natural_of};
ghost use Rattle.code_paths.specs.Hops.{Is, IsCall, IsFall, IsJump, IsLeave, IsLeft, IsOneOf, place_of, places_of};

use crate::place::{CodeHop, CodePlace};
use opcodes::Instr;
use ports::Memory;
use program::{Items, Operand, Program};
use std::alloc::Global;
use thread_meaning::{Here, look};

/// The steps along the code from where a thread stands: at most one of each sort.
#[derive(Debug, Drop)]
pub struct Hops {
    /// To the next instruction.
    pub fall: Option<CodeHop>,
    /// Along a jump.
    pub jump: Option<CodeHop>,
    /// Into a called method.
    pub call: Option<CodeHop>,
    /// Out of a method: behind the call, or to the end.
    pub leave: Option<CodeHop>,
}

/// A place, and then these.
fn behind(alloc: Global, first: CodePlace, others: &[CodePlace]) -> Result<Items<CodePlace>, Memory>
    ensures { IfOk result (λ places. places ≡ first ∷ others.now) }
{
    let mut places = Items::new(alloc);
    places.push(first)?;
    for other in others {
        places.push(*other)?;
    }
    Ok(places)
}

/// The place to which a jump goes.
fn target(pc: u32, distance: i16) -> Option<u64>
    ensures { result ≡ natural_of (pos pc +ℤ distance) }
{
    let place = i64::from(pc) + i64::from(distance);
    if place < 0 { None } else { Some(place as u64) }
}

/// The place behind an instruction.
fn next(at: CodePlace, instr: &Instr, pc: u32) -> CodePlace
    requires { pc ≡ at.pc }
    ensures { place_of result ≡ spec.behind (place_of at) instr.now }
{
    CodePlace {
        method: at.method,
        pc: u64::from(pc) + u64::from(instr.length()),
    }
}

/// Whether no method is called.
fn calls_nothing(names: Operand) -> bool
    ensures { IsTrue result ↔ spec.CallsNothing names }
{
    !matches!(names, Operand::Method(_))
}

/// The step to the next instruction.
fn fall(
    alloc: Global,
    here: &Here,
    at: CodePlace,
    callers: &[CodePlace],
) -> Result<Option<CodeHop>, Memory>
    requires { here.now.pc ≡ at.pc }
    ensures { IfOk result (λ o. (hop : Hop) → Is o hop ↔ IsFall here.now.instr here.now.names (place_of at) (places_of callers.now) hop) }
{
    if !here.instr.falls_through() {
        return Ok(None);
    }
    if !calls_nothing(here.names) {
        return Ok(None);
    }
    let to = behind(alloc, next(at, &here.instr, here.pc), callers)?;
    Ok(Some(CodeHop {
        taken: false,
        backward: false,
        to,
    }))
}

/// The step along a jump.
fn jump(
    alloc: Global,
    here: &Here,
    at: CodePlace,
    callers: &[CodePlace],
) -> Result<Option<CodeHop>, Memory>
    requires { here.now.pc ≡ at.pc }
    ensures { IfOk result (λ o. (hop : Hop) → Is o hop ↔ IsJump here.now.instr (place_of at) (places_of callers.now) hop) }
{
    let Some(distance) = here.instr.jump() else {
        return Ok(None);
    };
    let Some(pc) = target(here.pc, distance) else {
        return Ok(None);
    };
    let place = CodePlace {
        method: at.method,
        pc,
    };
    let to = behind(alloc, place, callers)?;
    Ok(Some(CodeHop {
        taken: true,
        backward: pc <= u64::from(here.pc),
        to,
    }))
}

/// The step into a called method.
fn call(alloc: Global, names: Operand, places: &[CodePlace]) -> Result<Option<CodeHop>, Memory>
    ensures { IfOk result (λ o. (hop : Hop) → Is o hop ↔ IsCall names (places_of places.now) hop) }
{
    let Operand::Method(method) = names else {
        return Ok(None);
    };
    let to = behind(alloc, CodePlace { method, pc: 0 }, places)?;
    Ok(Some(CodeHop {
        taken: false,
        backward: false,
        to,
    }))
}

/// Whether an instruction returns.
fn is_return(instr: &Instr) -> bool
    ensures { IsTrue result ↔ IsReturn instr.now }
{
    matches!(instr, Instr::Ireturn | Instr::Return)
}

/// The step behind the call that led here, or to the end.
fn left(alloc: Global, program: &Program, callers: &[CodePlace]) -> Result<Option<CodeHop>, Memory>
    ensures { IfOk result (λ o. (hop : Hop) → Is o hop ↔ IsLeft program.now (places_of callers.now) hop) }
{
    let Some((caller, others)) = callers.split_first() else {
        return Ok(Some(CodeHop {
            taken: false,
            backward: false,
            to: Items::new(alloc),
        }));
    };
    let Ok(call) = look(program, caller.method, caller.pc) else {
        return Ok(None);
    };
    let to = behind(alloc, next(*caller, &call.instr, call.pc), others)?;
    Ok(Some(CodeHop {
        taken: false,
        backward: false,
        to,
    }))
}

/// The step out of a method.
fn leave(
    alloc: Global,
    program: &Program,
    instr: &Instr,
    callers: &[CodePlace],
) -> Result<Option<CodeHop>, Memory>
    ensures { IfOk result (λ o. (hop : Hop) → Is o hop ↔ IsLeave program.now instr.now (places_of callers.now) hop) }
{
    if is_return(instr) {
        left(alloc, program, callers)
    } else {
        Ok(None)
    }
}

/// No step.
fn none() -> Hops
    ensures { (hop : Hop) → IsOneOf result hop → ⊥ }
{
    Hops {
        fall: None,
        jump: None,
        call: None,
        leave: None,
    }
}

/// The steps along the code from where a thread stands: the place of the instruction, and those of the calls that led to it.
///
/// # Errors
/// `Memory` where there is no room for the places.
pub fn hops_from(alloc: Global, program: &Program, places: &[CodePlace]) -> Result<Hops, Memory>
    ensures { IfOk result (λ hops. (hop : Hop) → IsOneOf hops hop ↔ Successor program.now (places_of places.now) hop) }
{
    let Some((at, callers)) = places.split_first() else {
        return Ok(none());
    };
    let Ok(here) = look(program, at.method, at.pc) else {
        return Ok(none());
    };
    Ok(Hops {
        fall: fall(alloc, &here, *at, callers)?,
        jump: jump(alloc, &here, *at, callers)?,
        call: call(alloc, here.names, places)?,
        leave: leave(alloc, program, &here.instr, callers)?,
    })
}
