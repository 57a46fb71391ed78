//! The limits of programs.

ghost use Rattle.std.specs.Prelude.{◌≡◌, ◌↔◌, Any, IfErr, IfOk, IsTrue, OnOk};
ghost use Rattle.untyped_program.specs.Limits.{AreByPlace, HasDeepChain, IsRefusedFor, IsWithinLimits};

use crate::call_graph::{CUT, greatest_sums, slots_of};
use crate::edges::edges_of;
use crate::refusal::{LimitKind, LimitRefusal};
use crate::untyped::UntypedProgram;
use ports::Memory;
use std::alloc::Global;
use typing::UntypedMethod;

/// The most threads that a program may have, main included.
const MOST_THREADS: usize = 8;

/// The most variables that a program may have.
const MOST_VARIABLES: usize = 16;

/// Whether a sum is cut off.
fn has_cut(sums: &[u32]) -> bool
    ensures { IsTrue result ↔ Any (λ n. n ≡ 17) sums.now }
{
    sums.iter().any(|sum| *sum == CUT)
}

/// Whether a chain of calls holds more ints than there may be.
fn has_deep_chain(alloc: Global, methods: &[UntypedMethod]) -> Result<bool, Memory>
    requires { AreByPlace methods.now }
    ensures { IfOk result (λ deep. IsTrue deep ↔ HasDeepChain methods.now) }
{
    let slots = slots_of(alloc, methods)?;
    let edges = edges_of(alloc, methods)?;
    let sums = greatest_sums(alloc, &slots, &edges)?;
    Ok(has_cut(&sums))
}

/// Whether a program passes no limit (docs/PROFILE.md, "Limits").
///
/// # Errors
///
/// `Passed` where it passes one, with the first; `Memory` where memory ran out.
pub fn check_limits(alloc: Global, program: &UntypedProgram) -> Result<(), LimitRefusal>
    requires { AreByPlace program.now.methods }
    ensures ok { OnOk result (IsWithinLimits program.now) }
    ensures err { IfErr result (λ refusal. IsRefusedFor program.now refusal) }
{
    if program.threads.len() > MOST_THREADS {
        return Err(LimitRefusal::Passed(LimitKind::Threads));
    }
    if program.variables.len() > MOST_VARIABLES {
        return Err(LimitRefusal::Passed(LimitKind::Variables));
    }
    match has_deep_chain(alloc, program.methods.as_slice()) {
        Ok(true) => Err(LimitRefusal::Passed(LimitKind::FrameSlots)),
        Ok(false) => Ok(()),
        Err(Memory) => Err(LimitRefusal::Memory),
    }
}
