//! The one execution of a straight program.

ghost use Rattle.std.specs.Prelude.{◌≡◌, ◌<◌, ◌++◌, [], ◌∷◌, length, replicate, IfOk};
ghost use Rattle.program.specs.Straight.{IsStraight};
ghost use Rattle.straight.specs.Meaning.{unwritten};
ghost use Rattle.straight.specs.Runs.{IsRunOf, IsStart, Finishes};
ghost use Rattle.straight.specs.Walk.{IsAlone};

use crate::doing::{Cell, what_it_does};
use crate::stack::Stack;
use crate::walk::Walk;
use action_orders::{Action, ActionOperand, Entry, Execution, Note};
use line_text::Values;
use ports::Memory;
use program::{Kind, Program};
use std::alloc::Global;

/// The one execution of a straight program, what it prints, and the ints that it pushes or stores.
#[derive(Debug, Drop)]
pub struct StraightRun {
    pub execution: Execution,
    pub printed: Values,
    pub ints: Values,
}

/// An action of main that is on nothing.
fn own_entry(id: u64, kind: Kind) -> Entry
    ensures { result ≡ record { action = record { thread = 0; id = id; kind = kind; operand = ActionOperand.Nothing }; note = Note.Nothing } }
{
    let action = Action {
        thread: 0,
        id,
        kind,
        operand: ActionOperand::Nothing,
    };
    Entry {
        action,
        note: Note::Nothing,
    }
}

/// One cell for each variable, none of them written.
fn unwritten_cells(alloc: Global, count: usize) -> Result<Vec<Cell>, Memory>
    ensures { IfOk result (λ cells. cells.items ≡ replicate count unwritten) }
{
    vec![in alloc; Cell {
        seen: None,
        value: 0
    }; count]
    .map_err(|_| Memory)
}

/// The walk before the first instruction: main has begun.
fn start(alloc: Global, variables: usize) -> Result<Walk, Memory>
    ensures { IfOk result (IsStart variables) }
{
    let cells = unwritten_cells(alloc, variables)?;
    let mut execution = Execution::new(alloc);
    execution.thread(0)?;
    execution.entry(own_entry(0, Kind::First))?;
    execution.order(0)?;
    Ok(Walk {
        stack: Stack::new(alloc),
        cells,
        execution,
        printed: Values::new(alloc),
        ints: Values::new(alloc),
    })
}

/// The run after the last instruction: main ends.
fn finish(walk: Walk, last: u64) -> Result<StraightRun, Memory>
    requires { IsAlone walk.execution }
    ensures { IfOk result (Finishes last walk) }
{
    let Walk {
        stack: _,
        cells: _,
        mut execution,
        printed,
        ints,
    } = walk;
    execution.entry(own_entry(last, Kind::Last))?;
    execution.order(last)?;
    Ok(StraightRun {
        execution,
        printed,
        ints,
    })
}

/// The run of a straight program.
pub fn run_straight(alloc: Global, program: &Program) -> Result<StraightRun, Memory>
    requires { IsStraight program.now }
    ensures { IfOk result (IsRunOf program.now) }
{
    let main = program.method(program.entry(0));
    let mut walk = start(alloc, program.variables().len())?;
    for (place, item) in main.listing.as_slice().iter().enumerate() {
        let operand = main.operands.as_slice()[place];
        walk.execute(
            program,
            place as u64 + 1,
            what_it_does(&item.instr, &operand),
        )?;
    }
    finish(walk, main.listing.len() as u64 + 1)
}
