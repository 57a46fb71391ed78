//! The instructions that a method's code reaches.

ghost use Rattle.std.specs.Prelude.{◌≡◌, ◌<◌, ◌≤◌, ◌^◌, ℕ, length, IfOk, IfErr, OnOk};
ghost use Rattle.relations.specs.Least.{IsLeast};
ghost use Rattle.opcodes.specs.Faults.{HasFault, RefusedFor};
ghost use Rattle.opcodes.specs.Reached.{IsListingOf};
ghost use Rattle.opcodes.specs.Scan.{IsFault};
ghost use Rattle.opcodes.specs.Survey.{IsSurveyOf, ListsBefore};

use crate::fault::{Fault, Faulty, first_fault};
use crate::listed::Listing;
use crate::reading::Misread;
use crate::refusal::OpcodeRefusal;
use crate::survey::{Place, reached_places};
use std::alloc::{AllocError, Global};

/// The instructions of a survey, by place.
fn listing_of(alloc: Global, places: &[Place]) -> Result<Listing, AllocError>
    requires { length places.now < 2 ^ 32 }
    ensures { IfOk result (λ listing. ListsBefore places.now (length places.now) listing) }
{
    let mut listing = Listing::new(alloc);
    for (pc, place) in places.iter().enumerate() {
        if let Place::Holds(instr) = place {
            listing.push(pc as u32, *instr)?;
        }
    }
    Ok(listing)
}

/// The instructions of a code whose reached places are known.
fn listed(alloc: Global, code: &[u8], places: &[Place]) -> Result<Listing, AllocError>
    requires some { 0 < length code.now }
    requires short { length code.now < 2 ^ 16 }
    requires survey { IsSurveyOf code.now places.now }
    ensures { IfOk result (λ listing. IsListingOf code.now listing) }
{
    listing_of(alloc, places)
}

/// The refusal for the least place with a fault.
fn refusal(code: &[u8], faulty: Faulty, listing: Listing) -> OpcodeRefusal
    requires least { IsLeast (HasFault code.now) faulty.pc }
    requires fault { IsFault code.now faulty.pc faulty.fault }
    requires listing { IsListingOf code.now listing }
    ensures { RefusedFor code.now result }
{
    let pc = faulty.pc;
    match faulty.fault {
        Fault::Unreadable(Misread::Opcode(number)) => OpcodeRefusal::Opcode {
            pc,
            number,
            listing,
        },
        Fault::Unreadable(Misread::Cut) => OpcodeRefusal::CutInstruction { pc, listing },
        Fault::Target => OpcodeRefusal::JumpTarget { pc, listing },
    }
}

/// The instructions that a code of 1 to 65535 bytes reaches from its first byte, by place (JVMS 4.9, 6.5).
///
/// Successors follow the next instruction and jumps, never the exception table. A place inside another
/// reached instruction that begins earlier is followed too, but the code is refused for it. Every refusal
/// but want of memory carries the list of all reached instructions.
pub fn decode(alloc: Global, code: &[u8]) -> Result<Listing, OpcodeRefusal>
    requires some { 0 < length code.now }
    requires short { length code.now < 2 ^ 16 }
    ensures listing { IfOk result (λ listing. IsListingOf code.now listing) }
    ensures faultless { OnOk result ((pc : ℕ) → HasFault code.now pc → ⊥) }
    ensures refused { IfErr result (λ refusal. RefusedFor code.now refusal) }
{
    let places = reached_places(alloc, code).map_err(|_| OpcodeRefusal::Memory)?;
    let listing = listed(alloc, code, &places).map_err(|_| OpcodeRefusal::Memory)?;
    match first_fault(code, &places) {
        Some(faulty) => Err(refusal(code, faulty, listing)),
        None => Ok(listing),
    }
}
