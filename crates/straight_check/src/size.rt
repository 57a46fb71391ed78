//! The limits of the graph.

ghost use Rattle.std.specs.Prelude.{◌≡◌, ◌≤◌, ◌↔◌, IsTrue, length, filter};
ghost use Rattle.straight_check.specs.StraightProgram.{IsSmall, acts, reads, reads_of};

use opcodes::{Instr, Listed};
use program::{Method, Operand};

/// The most nodes. An instruction makes one, and there are a first and a last one.
const MOST_NODES: usize = 1024;

/// The most actions. There are a first and a last one besides those that instructions make.
const MOST_ACTIONS: usize = 64;

/// The most reads.
const MOST_READS: usize = 24;

/// Whether an instruction that names this makes an action.
fn acts(operand: &Operand) -> bool
    ensures { result ≡ acts operand.now }
{
    matches!(operand, Operand::Variable(_) | Operand::Print)
}

/// How many instructions make an action, by what they name.
fn actions_of(operands: &[Operand]) -> usize
    ensures { result ≡ length (filter acts operands.now) }
{
    operands.iter().filter(|operand| acts(operand)).count()
}

/// Whether an instruction reads a variable.
fn reads(instr: &Instr, operand: &Operand) -> bool
    ensures { result ≡ reads instr.now operand.now }
{
    matches!(instr, Instr::Getstatic { .. }) && matches!(operand, Operand::Variable(_))
}

/// How many instructions read a variable.
fn reads_of(listing: &[Listed], operands: &[Operand]) -> usize
    requires { length operands.now ≡ length listing.now }
    ensures { result ≡ reads_of listing.now operands.now }
{
    let mut count = 0;
    for (place, item) in listing.iter().enumerate() {
        if reads(&item.instr, &operands[place]) {
            count += 1;
        }
    }
    count
}

/// Whether main passes no limit.
pub fn is_small(main: &Method) -> bool
    requires { length main.now.operands ≡ length main.now.listing }
    ensures { IsTrue result ↔ IsSmall main.now }
{
    main.listing.len() <= MOST_NODES - 2
        && actions_of(main.operands.as_slice()) <= MOST_ACTIONS - 2
        && reads_of(main.listing.as_slice(), main.operands.as_slice()) <= MOST_READS
}
