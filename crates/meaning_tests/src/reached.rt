//! The spots that small programs reach.

use crate::traces::{HELP, MAIN, alone, calling, frame};
use code_paths::CodePlace;
use graph_shape::{Edge, edges_among};
use kept_spots::marked_spots;
use opcodes::Instr;
use program::{MethodId, Operand};
use reached_spots::{ReachRefusal, Reached, reached_spots};
use spots::{Position, Spot, leads_from};
use std::test::Fail;

/// A place in the code of a method.
fn at(method: MethodId, pc: u64) -> CodePlace {
    CodePlace { method, pc }
}

/// Whether a thread stands before this instruction, after so many backward jumps, with this answer.
fn stands(spot: &Spot, jumps: u32, places: &[CodePlace], answer: bool) -> bool {
    match &spot.position {
        Position::At(stand) => {
            stand.jumps == jumps && stand.places.as_slice() == places && stand.answer == answer
        }
        Position::Begin => false,
        Position::End => false,
    }
}

/// Whether this spot stands at a place of the list.
fn holds(reached: &Reached, place: usize, jumps: u32, places: &[CodePlace], answer: bool) -> bool {
    match reached.spots.get(place) {
        Some(spot) => stands(spot, jumps, places, answer),
        None => false,
    }
}

/// An edge between the spots at two places.
fn edge(from: u32, taken: bool, to: u32) -> Edge {
    Edge { from, taken, to }
}

/// Whether the list begins where a thread begins, and ends where it ends.
fn is_whole(reached: &Reached) -> bool {
    let spots = reached.spots.as_slice();
    let begins = match spots.first() {
        Some(spot) => spot.position == Position::Begin,
        None => false,
    };
    let ends = match spots.last() {
        Some(spot) => spot.position == Position::End,
        None => false,
    };
    begins && ends
}

#[test]
fn straight_code(rt: HostRuntime) -> Result<(), Fail> {
    let alloc = rt.alloc();
    let code = [
        (Instr::Iconst5, Operand::Constant(5)),
        (Instr::Putstatic { index: 1 }, Operand::Variable(0)),
        (Instr::Return, Operand::Nothing),
    ];
    let program = alone(&rt, alloc, &code)?;
    let reached = reached_spots(alloc, &program, 0)?;
    assert_eq!(rt; reached.spots.len(), 5);
    assert!(rt; is_whole(&reached) && !reached.left_out);
    assert!(rt; holds(&reached, 1, 0, &[at(MAIN, 0)], false));
    assert!(rt; holds(&reached, 2, 0, &[at(MAIN, 1)], false));
    assert!(rt; holds(&reached, 3, 0, &[at(MAIN, 4)], false));
    Ok(())
}

#[test]
fn both_answers(rt: HostRuntime) -> Result<(), Fail> {
    let alloc = rt.alloc();
    let code = [
        (Instr::Nop, Operand::Nothing),
        (Instr::Invokevirtual { index: 1 }, Operand::Alive(1)),
        (Instr::Ifne { distance: 3 }, Operand::Nothing),
        (Instr::Return, Operand::Nothing),
    ];
    let program = alone(&rt, alloc, &code)?;
    let reached = reached_spots(alloc, &program, 0)?;
    assert_eq!(rt; reached.spots.len(), 7);
    assert!(rt; holds(&reached, 2, 0, &[at(MAIN, 1)], false));
    assert!(rt; holds(&reached, 3, 0, &[at(MAIN, 1)], true));
    let begin = Spot {
        thread: 0,
        position: Position::Begin,
    };
    let leads = leads_from(alloc, &program, 0, &begin)?;
    assert_eq!(rt; leads.steps.len(), 1);
    assert!(rt; !leads.left_out);
    Ok(())
}

#[test]
fn counted_jumps(rt: HostRuntime) -> Result<(), Fail> {
    let alloc = rt.alloc();
    let code = [(Instr::Goto { distance: 0 }, Operand::Nothing)];
    let program = alone(&rt, alloc, &code)?;
    let reached = reached_spots(alloc, &program, 2)?;
    assert_eq!(rt; reached.spots.len(), 4);
    assert!(rt; reached.left_out && !is_whole(&reached));
    assert!(rt; holds(&reached, 3, 2, &[at(MAIN, 0)], false));
    assert_eq!(rt; reached_spots(alloc, &program, 1022)?.spots.len(), 1024);
    let many = match reached_spots(alloc, &program, 1023) {
        Err(ReachRefusal::TooMany) => true,
        Err(ReachRefusal::Memory) => false,
        Ok(_) => false,
    };
    assert!(rt; many);
    Ok(())
}

#[test]
fn two_calls(rt: HostRuntime) -> Result<(), Fail> {
    let alloc = rt.alloc();
    let main = [
        (Instr::Invokestatic { index: 1 }, Operand::Method(HELP)),
        (Instr::Invokestatic { index: 1 }, Operand::Method(HELP)),
        (Instr::Return, Operand::Nothing),
    ];
    let help = [(Instr::Return, Operand::Nothing)];
    let program = calling(&rt, alloc, &main, frame(0, None), &help)?;
    let reached = reached_spots(alloc, &program, 0)?;
    assert_eq!(rt; reached.spots.len(), 7);
    assert!(rt; is_whole(&reached));
    assert!(rt; holds(&reached, 1, 0, &[at(MAIN, 0)], false));
    assert!(rt; holds(&reached, 2, 0, &[at(MAIN, 0), at(HELP, 0)], false));
    assert!(rt; holds(&reached, 3, 0, &[at(MAIN, 3)], false));
    assert!(rt; holds(&reached, 4, 0, &[at(MAIN, 3), at(HELP, 0)], false));
    assert!(rt; holds(&reached, 5, 0, &[at(MAIN, 6)], false));
    Ok(())
}

#[test]
fn edges_in_order(rt: HostRuntime) -> Result<(), Fail> {
    let alloc = rt.alloc();
    let code = [
        (Instr::Invokevirtual { index: 1 }, Operand::Alive(1)),
        (Instr::Ifne { distance: 3 }, Operand::Nothing),
        (Instr::Goto { distance: -6 }, Operand::Nothing),
    ];
    let program = alone(&rt, alloc, &code)?;
    let reached = reached_spots(alloc, &program, 1)?;
    assert_eq!(rt; reached.spots.len(), 9);
    let edges = edges_among(alloc, &program, 1, reached.spots.as_slice())?;
    let expected = [
        edge(0, false, 1),
        edge(0, false, 2),
        edge(1, false, 3),
        edge(2, false, 3),
        edge(3, false, 4),
        edge(3, true, 4),
        edge(4, true, 5),
        edge(4, true, 6),
        edge(5, false, 7),
        edge(6, false, 7),
        edge(7, false, 8),
        edge(7, true, 8),
    ];
    assert!(rt; edges.as_slice() == expected.as_slice());
    Ok(())
}

#[test]
fn ways_to_the_end(rt: HostRuntime) -> Result<(), Fail> {
    let alloc = rt.alloc();
    let code = [
        (Instr::Iconst0, Operand::Constant(0)),
        (Instr::Ifeq { distance: 4 }, Operand::Nothing),
        (Instr::Return, Operand::Nothing),
        (Instr::Goto { distance: 0 }, Operand::Nothing),
    ];
    let program = alone(&rt, alloc, &code)?;
    let marked = marked_spots(alloc, &program, 0)?;
    assert_eq!(rt; marked.spots.len(), 6);
    assert!(rt; marked.left_out);
    assert!(rt; marked.ends.as_slice() == [true, true, true, true, false, true].as_slice());
    Ok(())
}
