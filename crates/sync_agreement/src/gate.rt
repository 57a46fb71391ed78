//! What lets synchronization actions come after others.

ghost use Rattle.std.specs.Prelude.{◌≡◌};
ghost use Rattle.sync_agreement.specs.Gates.{given_by, awaited_by};

use action_orders::{Action, ActionOperand};
use program::Kind;

/// By what an action comes after others of a thread in the synchronization order.
#[derive(Clone, Copy, Debug, PartialEq, Eq)]
pub enum Gate {
    /// Each first action of a thread comes after each start of it.
    Start,
    /// Each detection of a thread's end comes after each last action of it.
    End,
    /// Each action of a thread comes after those before it in program order.
    Thread,
}

/// The thread whose later actions have to come after this one.
pub fn given(gate: Gate, action: &Action) -> Option<usize>
    ensures { result ≡ given_by gate action.now }
{
    match (gate, action.kind, &action.operand) {
        (Gate::Start, Kind::Start, ActionOperand::Thread(thread)) => Some(*thread as usize),
        (Gate::End, Kind::Last, _) => Some(action.thread as usize),
        (Gate::Thread, _, _) => Some(action.thread as usize),
        _ => None,
    }
}

/// The thread after whose actions this one has to come.
pub fn awaited(gate: Gate, action: &Action) -> Option<usize>
    ensures { result ≡ awaited_by gate action.now }
{
    match (gate, action.kind, &action.operand) {
        (Gate::Start, Kind::First, _) => Some(action.thread as usize),
        (Gate::End, Kind::Detect, ActionOperand::Thread(thread)) => Some(*thread as usize),
        (Gate::Thread, _, _) => Some(action.thread as usize),
        _ => None,
    }
}
