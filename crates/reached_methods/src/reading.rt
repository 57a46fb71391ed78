//! The reached instructions of a code, and what is wrong with the code itself.

ghost use Rattle.std.specs.Prelude.{◌≡◌, ◌<◌, ◌≤◌, length, IfOk, Some};
ghost use Rattle.opcodes.specs.Reached.{IsListingOf};
ghost use Rattle.reached_methods.specs.FirstFault.{IsFirstOrNone};
ghost use Rattle.reached_methods.specs.Surveys.{HasReadFault};

use crate::fault::Fault;
use crate::refusal::{CodeKind, Detail};
use opcodes::{Listing, OpcodeRefusal, decode};
use ports::Memory;
use std::alloc::Global;

/// The reached instructions of a code, and the first fault of the code itself.
#[derive(Drop)]
pub struct ReadCode {
    pub listing: Listing,
    pub fault: Option<Fault>,
}

/// What is read of a code with a fault.
fn with_fault(listing: Listing, pc: u32, kind: CodeKind, detail: Detail) -> ReadCode
    ensures listing { result.listing ≡ listing }
    ensures fault { result.fault ≡ Some (record { pc = pc; kind = kind; detail = detail }) }
{
    ReadCode {
        listing,
        fault: Some(Fault { pc, kind, detail }),
    }
}

/// Reads a code of 1 to 65535 bytes.
pub fn read_code(alloc: Global, code: &[u8]) -> Result<ReadCode, Memory>
    requires some { 0 < length code.now }
    requires short { length code.now ≤ 65535 }
    ensures listing { IfOk result (λ read. IsListingOf code.now read.listing) }
    ensures fault { IfOk result (λ read. IsFirstOrNone (HasReadFault code.now) read.fault) }
{
    match decode(alloc, code) {
        Ok(listing) => Ok(ReadCode {
            listing,
            fault: None,
        }),
        Err(
            OpcodeRefusal::Opcode {
                pc,
                number,
                listing,
            },
        ) => Ok(with_fault(listing, pc, CodeKind::Opcode, Detail::Number(number))),
        Err(OpcodeRefusal::CutInstruction { pc, listing }) => Ok(with_fault(
            listing,
            pc,
            CodeKind::CutInstruction,
            Detail::Nothing,
        )),
        Err(OpcodeRefusal::JumpTarget { pc, listing }) => Ok(with_fault(
            listing,
            pc,
            CodeKind::JumpTarget,
            Detail::Nothing,
        )),
        Err(OpcodeRefusal::Memory) => Err(Memory),
    }
}
