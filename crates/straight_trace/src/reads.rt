//! The values that the reads of a straight run give.

ghost use Rattle.std.specs.Prelude.{◌≡◌, ◌<◌, ◌+◌, ◌++◌, drop, length, IfOk, OnOk};
ghost use Rattle.straight.specs.Doing.{doing_of};
ghost use Rattle.straight_trace.specs.Reads.{move_of, read_by, reads_among, used_by};

use line_text::Values;
use opcodes::{Instr, Listed};
use ports::Memory;
use program::Operand;
use std::alloc::Global;

/// The int that an instruction of straight code pushes or stores.
#[derive(Clone, Copy, Debug)]
pub enum IntMove {
    /// The value of a variable, which it reads.
    Read,
    /// Another int: a constant, or the value that it writes.
    Other,
    /// It has none.
    None,
}

/// The int of the instruction that names this.
fn int_move(instr: &Instr, operand: &Operand) -> IntMove
    ensures { result ≡ move_of (doing_of instr.now operand.now) }
{
    match operand {
        Operand::Constant(_) => IntMove::Other,
        Operand::Variable(_) => match instr {
            Instr::Putstatic { index: _ } => IntMove::Other,
            _ => IntMove::Read,
        },
        _ => IntMove::None,
    }
}

/// Adds the next int to the values of the reads, where it is that of a read.
fn pick(reads: &mut Values, ints: &[i32], next: usize, moved: IntMove) -> Result<(), Memory>
    ensures { OnOk result (reads.new ≡ reads.old ++ read_by moved (drop next ints.now)) }
{
    match moved {
        IntMove::Read => match ints.get(next) {
            Some(int) => reads.push(*int),
            None => Ok(()),
        },
        IntMove::Other | IntMove::None => Ok(()),
    }
}

/// The place behind the int of an instruction, if it has one.
fn behind(next: usize, moved: IntMove) -> usize
    requires { next < usize.MAX }
    ensures { result ≡ next + used_by moved }
{
    match moved {
        IntMove::Read | IntMove::Other => next + 1,
        IntMove::None => next,
    }
}

/// The values that the reads of a run along these instructions give, where these are the ints that it pushes or stores: each
/// instruction that has an int has one, and that of a read is the value read.
pub(crate) fn values_read(
    alloc: Global,
    listing: &[Listed],
    operands: &[Operand],
    ints: &[i32],
) -> Result<Values, Memory>
    requires { length listing.now ≡ length operands.now }
    ensures { IfOk result (λ reads. reads ≡ reads_among listing.now operands.now ints.now) }
{
    let mut reads = Values::new(alloc);
    let mut next = 0;
    for (place, item) in listing.iter().enumerate() {
        let moved = int_move(&item.instr, &operands[place]);
        pick(&mut reads, ints, next, moved)?;
        next = behind(next, moved);
    }
    Ok(reads)
}
