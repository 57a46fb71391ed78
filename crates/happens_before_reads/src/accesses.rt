//! The variables that actions read and write, by their numbers.

ghost use Rattle.std.specs.Prelude.{IfNone, IfSome};
ghost use Rattle.happens_before_reads.specs.Accesses.{IsNumberNamed, IsNumberRead, IsNumberWritten, NamesNone, ReadsNone, WritesNone};

use action_orders::{Action, ActionOperand};
use orders::Orders;
use program::Kind;

/// The number of the variable that an operand names.
fn number_named(orders: &Orders, operand: &ActionOperand) -> Option<usize>
    ensures found { IfSome result (IsNumberNamed orders.now operand.now) }
    ensures none { IfNone result (NamesNone orders.now operand.now) }
{
    match operand {
        ActionOperand::Variable { class, name } => orders.variable_number(class, name),
        _ => None,
    }
}

/// The number of the variable that an action reads.
pub fn number_read(orders: &Orders, action: &Action) -> Option<usize>
    ensures found { IfSome result (IsNumberRead orders.now action.now) }
    ensures none { IfNone result (ReadsNone orders.now action.now) }
{
    match action.kind {
        Kind::Read | Kind::VolatileRead => number_named(orders, &action.operand),
        _ => None,
    }
}

/// The number of the variable that an action writes to.
pub fn number_written(orders: &Orders, action: &Action) -> Option<usize>
    ensures found { IfSome result (IsNumberWritten orders.now action.now) }
    ensures none { IfNone result (WritesNone orders.now action.now) }
{
    match action.kind {
        Kind::Write | Kind::VolatileWrite => number_named(orders, &action.operand),
        _ => None,
    }
}
