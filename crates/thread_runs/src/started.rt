//! The threads that are started, and those that act.

ghost use Rattle.std.specs.Prelude.{◌≡◌, ◌↔◌, Contains, IsTrue, IfSome, IfNone};
ghost use Rattle.action_orders.specs.Actions.{Is, Of};
ghost use Rattle.action_orders.specs.Runs.{Acts, IsStarted};
ghost use Rattle.orders.specs.Made.{IsMade};

use action_orders::{Action, ActionOperand, Execution, ThreadPart};
use orders::Orders;
use program::Kind;

/// Whether an action starts this thread.
fn starts(action: &Action, thread: u32) -> bool
    ensures { IsTrue result ↔ Is Kind.Start (ActionOperand.Thread thread) (Of action.now) }
{
    match (action.kind, &action.operand) {
        (Kind::Start, ActionOperand::Thread(started)) => *started == thread,
        _ => false,
    }
}

/// Whether some action starts this thread.
pub fn is_started(orders: &Orders, thread: u32) -> bool
    requires { IsMade orders.now }
    ensures { IsTrue result ↔ IsStarted orders.now.flat.program.now orders.now.flat.execution.now thread }
{
    for at in 0..orders.flat.entries.len() {
        if starts(orders.flat.action(at), thread) {
            return true;
        }
    }
    false
}

/// The actions of this thread, if it acts.
pub fn part_of(execution: &Execution, thread: u32) -> Option<&ThreadPart>
    ensures found { IfSome result (λ part. Contains execution.now.threads part.now) }
    ensures own { IfSome result (λ part. part.now.thread ≡ thread) }
    ensures none { IfNone result (Acts execution.now thread → ⊥) }
{
    for part in execution.threads() {
        if part.thread == thread {
            return Some(part);
        }
    }
    None
}
