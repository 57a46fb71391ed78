//! The places of a listing that come after another one.

ghost use Rattle.std.specs.Prelude.{◌≡◌, ◌<◌, ◌≤◌, ◌+◌, ◌+ℤ◌, ◌↔◌, ℕ, ℤ, pos, length, Some, None, IfOk, Contains, slice_get, OnOk, ◌⊎◌};
ghost use Rattle.std.specs.List.{AllWithin};
ghost use Rattle.std.specs.Option.{option_copied, option_and_then};
ghost use Rattle.opcodes.specs.Instructions.{jump_of};
ghost use Rattle.opcodes.specs.Listing.{IsByPc};
ghost use Rattle.typing.specs.Levels.{IsPlaceOf, FallsTo, JumpsTo, StepsFrom, natural_of};

use opcodes::Listed;
use std::alloc::{AllocError, Global};

/// The first place of a listing with an instruction at `pc` or behind it.
fn place_from(listing: &[Listed], pc: u64) -> usize
    requires { IsByPc listing.now }
    ensures within { result ≤ length listing.now }
    ensures before { AllWithin (λ l. l.pc < pc) listing.now 0 result }
    ensures behind { AllWithin (λ l. pc ≤ l.pc) listing.now result (length listing.now) }
{
    listing.partition_point(|listed| u64::from(listed.pc) < pc)
}

/// The instruction at a place of a listing.
pub fn listed_at(listing: &[Listed], place: usize) -> Option<&Listed>
    ensures { option_copied result ≡ slice_get listing.now place }
{
    listing.get(place)
}

/// The place of a listing whose instruction stands at `pc`.
fn place_of(listing: &[Listed], pc: u64) -> Option<usize>
    requires { IsByPc listing.now }
    ensures { (to : ℕ) → (result ≡ Some to) ↔ IsPlaceOf listing.now pc to }
{
    let place = place_from(listing, pc);
    let found = listed_at(listing, place)?;
    if u64::from(found.pc) == pc {
        Some(place)
    } else {
        None
    }
}

/// The place to which an instruction falls through.
fn fall(listing: &[Listed], at: &Listed) -> Option<usize>
    requires { IsByPc listing.now }
    ensures { (to : ℕ) → (result ≡ Some to) ↔ FallsTo listing.now at.now to }
{
    if !at.instr.falls_through() {
        return None;
    }
    place_of(listing, u64::from(at.pc) + u64::from(at.instr.length()))
}

/// Where the jump of an instruction goes.
pub fn target(at: &Listed) -> Option<u64>
    ensures { result ≡ option_and_then (λ distance. natural_of (pos at.now.pc +ℤ distance)) (jump_of at.now.instr) }
{
    let distance = at.instr.jump()?;
    let place = i64::from(at.pc) + i64::from(distance);
    if place < 0 { None } else { Some(place as u64) }
}

/// The place to which an instruction jumps.
fn jump(listing: &[Listed], at: &Listed) -> Option<usize>
    requires { IsByPc listing.now }
    ensures { (to : ℕ) → (result ≡ Some to) ↔ JumpsTo listing.now at.now to }
{
    match target(at) {
        Some(pc) => place_of(listing, pc),
        None => None,
    }
}

/// Adds a place to others, if there is one.
fn add(targets: &mut Vec<usize>, to: Option<usize>) -> Result<(), AllocError>
    ensures { OnOk result ((q : ℕ) → Contains targets.new.items q ↔ (Contains targets.old.items q ⊎ (to ≡ Some q))) }
{
    if let Some(to) = to {
        targets.push(to)?;
    }
    Ok(())
}

/// The places of a listing that may come after one of its instructions.
pub fn targets(alloc: Global, listing: &[Listed], at: &Listed) -> Result<Vec<usize>, AllocError>
    requires { IsByPc listing.now }
    ensures { IfOk result (λ v. (to : ℕ) → Contains v.items to ↔ StepsFrom listing.now at.now to) }
{
    let mut targets = Vec::new(alloc);
    add(&mut targets, fall(listing, at))?;
    add(&mut targets, jump(listing, at))?;
    Ok(targets)
}
