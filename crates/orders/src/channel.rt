//! What actions synchronize by.

ghost use Rattle.std.specs.Prelude.{◌≡◌};
ghost use Rattle.orders.specs.Symbols.{gives_of, takes_of, symbol_given};

use action_orders::{Action, ActionOperand};
use program::Kind;

/// What a synchronizing action gives to, and the action that it synchronizes with takes from.
#[derive(Clone, Copy, Debug, PartialEq, Eq, Hash)]
pub enum Channel<'a> {
    /// A volatile variable.
    Variable { class: &'a [u8], name: &'a [u8] },
    /// A monitor.
    Monitor { class: &'a [u8] },
    /// The start of a thread.
    Start(u32),
    /// The end of a thread.
    End(u32),
}

/// The channel that an action gives to.
pub fn given<'a>(action: &'a Action) -> Option<Channel<'a>>
    ensures { symbol_given result ≡ gives_of action.now }
{
    match (action.kind, &action.operand) {
        (Kind::Unlock, ActionOperand::Monitor { class }) => Some(Channel::Monitor {
            class: class.as_slice(),
        }),
        (Kind::VolatileWrite, ActionOperand::Variable { class, name }) => Some(Channel::Variable {
            class: class.as_slice(),
            name: name.as_slice(),
        }),
        (Kind::Start, ActionOperand::Thread(thread)) => Some(Channel::Start(*thread)),
        (Kind::Last, _) => Some(Channel::End(action.thread)),
        _ => None,
    }
}

/// The channel that an action takes from.
pub fn taken<'a>(action: &'a Action) -> Option<Channel<'a>>
    ensures { symbol_given result ≡ takes_of action.now }
{
    match (action.kind, &action.operand) {
        (Kind::Lock, ActionOperand::Monitor { class }) => Some(Channel::Monitor {
            class: class.as_slice(),
        }),
        (Kind::VolatileRead, ActionOperand::Variable { class, name }) => Some(Channel::Variable {
            class: class.as_slice(),
            name: name.as_slice(),
        }),
        (Kind::Detect, ActionOperand::Thread(thread)) => Some(Channel::End(*thread)),
        (Kind::First, _) => Some(Channel::Start(action.thread)),
        _ => None,
    }
}
