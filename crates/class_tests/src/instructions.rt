//! Listings, and the decoding of reached instructions.

ghost use Rattle.std.specs.Prelude.{◌<◌, ◌^◌, length};

use opcodes::{Instr, Listed, Listing, OpcodeRefusal, decode};
use std::alloc::Global;
use std::process::Abort;
use std::test::Fail;

#[test]
fn lists_by_place(rt: HostRuntime) -> Result<(), Fail> {
    let mut listing = Listing::new(rt.alloc());
    assert!(rt; listing.is_empty());
    listing.push(0, Instr::Iconst1)?;
    listing.push(1, Instr::Goto { distance: -1 })?;
    assert_eq!(rt; listing.len(), 2);
    assert_eq!(rt; listing.at(1), Some(&Instr::Goto { distance: -1 }));
    assert_eq!(rt; listing.at(2), None);
    assert_eq!(rt;
        listing.get(0),
        Some(&Listed {
            pc: 0,
            instr: Instr::Iconst1
        })
    );
    Ok(())
}

/// What is wrong, at which place, and how many instructions are reached.
enum Expected {
    Opcode(u32, u8, usize),
    CutInstruction(u32, usize),
    JumpTarget(u32, usize),
}

fn lists(rt: &impl Abort, alloc: Global, code: &[u8], pcs: &[u32], last: &Instr)
    requires some { 0 < length code.now }
    requires short { length code.now < 2 ^ 16 }
{
    let Ok(listing) = decode(alloc, code) else {
        assert!(rt; false, "refused");
        return;
    };
    let found = listing.as_slice();
    assert_eq!(rt; found.len(), pcs.len());
    for (item, pc) in found.iter().zip(pcs) {
        assert_eq!(rt; item.pc, *pc);
    }
    assert_eq!(rt; found.last().map(|item| &item.instr), Some(last));
}

fn refuses(rt: &impl Abort, alloc: Global, code: &[u8], expected: &Expected)
    requires some { 0 < length code.now }
    requires short { length code.now < 2 ^ 16 }
{
    match (decode(alloc, code), expected) {
        (
            Err(
                OpcodeRefusal::Opcode {
                    pc,
                    number,
                    listing,
                },
            ),
            Expected::Opcode(at, byte, count),
        ) => {
            assert!(rt; pc == *at && number == *byte && listing.len() == *count);
        }
        (Err(OpcodeRefusal::CutInstruction { pc, listing }), Expected::CutInstruction(at, count)) =>
            {
                assert!(rt; pc == *at && listing.len() == *count);
            }
        (Err(OpcodeRefusal::JumpTarget { pc, listing }), Expected::JumpTarget(at, count)) => {
            assert!(rt; pc == *at && listing.len() == *count);
        }
        _ => assert!(rt; false, "another answer"),
    }
}

#[test]
fn reached_instructions(rt: HostRuntime) {
    let alloc = rt.alloc();
    lists(&rt, alloc, &[0xb1], &[0], &Instr::Return);
    // a goto past bytes that are no instructions
    lists(
        &rt,
        alloc,
        &[0xa7, 0, 5, 0xff, 0xff, 0xb1],
        &[0, 5],
        &Instr::Return,
    );
    // a goto to itself
    lists(
        &rt,
        alloc,
        &[0xa7, 0, 0],
        &[0],
        &Instr::Goto { distance: 0 },
    );
    // iinc, and a goto back
    lists(
        &rt,
        alloc,
        &[0x84, 1, 0xff, 0xa7, 0xff, 0xfd],
        &[0, 3],
        &Instr::Goto { distance: -3 },
    );
    // ifeq to a sipush, and what follows it
    lists(
        &rt,
        alloc,
        &[0x03, 0x99, 0, 4, 0xb1, 0x11, 0xfe, 0xff, 0xac],
        &[0, 1, 4, 5, 8],
        &Instr::Ireturn,
    );
}

#[test]
fn refusals(rt: HostRuntime) {
    let alloc = rt.alloc();
    // iconst_5, iconst_1, idiv
    refuses(
        &rt,
        alloc,
        &[0x08, 0x04, 0x6c],
        &Expected::Opcode(2, 0x6c, 2),
    );
    refuses(
        &rt,
        alloc,
        &[0x00, 0x11, 0x01],
        &Expected::CutInstruction(1, 1),
    );
    // a nop that falls out of the code, and jumps that leave it at either end
    refuses(&rt, alloc, &[0x00], &Expected::JumpTarget(0, 1));
    refuses(&rt, alloc, &[0xa7, 0, 3], &Expected::JumpTarget(0, 1));
    refuses(
        &rt,
        alloc,
        &[0x00, 0xa7, 0xff, 0xfe],
        &Expected::JumpTarget(1, 2),
    );
    // ifeq into a sipush: an instruction there, and none
    refuses(
        &rt,
        alloc,
        &[0x03, 0x99, 0, 4, 0x11, 0x04, 0xac, 0xac],
        &Expected::JumpTarget(5, 6),
    );
    refuses(
        &rt,
        alloc,
        &[0x03, 0x99, 0, 4, 0x11, 0xff, 0xac, 0xac],
        &Expected::Opcode(5, 0xff, 4),
    );
    // two bad places, the lesser behind a jump back
    refuses(
        &rt,
        alloc,
        &[0xa7, 0, 5, 0xfe, 0x00, 0x03, 0x99, 0xff, 0xfd, 0xff],
        &Expected::Opcode(3, 0xfe, 3),
    );
}
