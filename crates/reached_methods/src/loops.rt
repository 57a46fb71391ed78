//! Threads that are made in loops.

ghost use Rattle.std.specs.Prelude.{◌≡◌, ◌↔◌, IsTrue};
ghost use Rattle.opcodes.specs.Listing.{IsByPc};
ghost use Rattle.reached_methods.specs.FirstFault.{IsFirstOrNone};
ghost use Rattle.reached_methods.specs.Surveys.{HasLoopFault, IsLooped, JumpsAcross, MakesObject};

use crate::fault::Fault;
use crate::refusal::{CodeKind, Detail};
use opcodes::{Instr, Listed};

/// Whether an instruction makes an object.
fn makes_object(instr: &Instr) -> bool
    ensures { IsTrue result ↔ MakesObject instr.now }
{
    matches!(instr, Instr::New { .. })
}

/// Whether an instruction jumps over this place: from it or from behind it, to it or before it.
fn jumps_across(item: &Listed, pc: u32) -> bool
    ensures { IsTrue result ↔ JumpsAcross pc item.now }
{
    match item.instr.jump() {
        Some(distance) => {
            pc <= item.pc && i64::from(item.pc) + i64::from(distance) <= i64::from(pc)
        }
        None => false,
    }
}

/// Whether a listed instruction makes an object in a loop.
fn is_looped(listing: &[Listed], item: &Listed) -> bool
    ensures { IsTrue result ↔ IsLooped listing.now item.now }
{
    makes_object(&item.instr) && listing.iter().any(|other| jumps_across(other, item.pc))
}

/// The first listed instruction that makes an object in a loop. It looks at the whole list for each instruction that makes
/// one.
pub fn first_in_loop(listing: &[Listed]) -> Option<Fault>
    requires { IsByPc listing.now }
    ensures { IsFirstOrNone (HasLoopFault listing.now) result }
{
    for item in listing {
        if is_looped(listing, item) {
            return Some(Fault {
                pc: item.pc,
                kind: CodeKind::ThreadInLoop,
                detail: Detail::Nothing,
            });
        }
    }
    None
}
