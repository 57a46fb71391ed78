//! What the instructions of a typed method name.

ghost use Rattle.std.specs.Prelude.{◌≡◌, IfOk, length};
ghost use Rattle.linking.specs.Operands.{asked, constructed, joined, monitor_in, named, operand_of, operands_of, started, target_constructed, top_of, wrapped};

use opcodes::{Instr, Listed};
use ports::Memory;
use program::{Operand, Operands, TypedState, ValueType};
use std::alloc::Global;
use typing::Symbol;

/// The type on top of the stack.
fn top_of(state: &TypedState) -> Option<ValueType>
    ensures { result ≡ top_of state.now }
{
    state.stack.as_slice().last().copied()
}

/// The thread whose constructor is called.
fn constructed(top: Option<ValueType>) -> Operand
    ensures { result ≡ constructed top }
{
    match top {
        Some(ValueType::Fresh(thread)) => Operand::Make(thread),
        _ => Operand::Nothing,
    }
}

/// The thread that is started.
fn started(top: Option<ValueType>) -> Operand
    ensures { result ≡ started top }
{
    match top {
        Some(ValueType::Thread(thread)) => Operand::Start(thread),
        _ => Operand::Nothing,
    }
}

/// The thread whose end is waited for.
fn joined(top: Option<ValueType>) -> Operand
    ensures { result ≡ joined top }
{
    match top {
        Some(ValueType::Thread(thread)) => Operand::Join(thread),
        _ => Operand::Nothing,
    }
}

/// The thread that is asked whether it is alive.
fn asked(top: Option<ValueType>) -> Operand
    ensures { result ≡ asked top }
{
    match top {
        Some(ValueType::Thread(thread)) => Operand::Alive(thread),
        _ => Operand::Nothing,
    }
}

/// The thread whose target's constructor is called.
fn target_constructed(top: Option<ValueType>) -> Operand
    ensures { result ≡ target_constructed top }
{
    match top {
        Some(ValueType::FreshTarget(thread)) => Operand::Target(thread),
        _ => Operand::Nothing,
    }
}

/// The thread that is made around its target.
fn wrapped(top: Option<ValueType>) -> Operand
    ensures { result ≡ wrapped top }
{
    match top {
        Some(ValueType::Target(thread)) => Operand::Wrap(thread),
        _ => Operand::Nothing,
    }
}

/// The monitor that is entered or left.
fn monitor_in(top: Option<ValueType>) -> Operand
    ensures { result ≡ monitor_in top }
{
    match top {
        Some(ValueType::Lock(monitor)) => Operand::Monitor(monitor),
        _ => Operand::Nothing,
    }
}

/// What a name of the constant pool stands for, by the type on top of the stack.
fn named(symbol: Symbol, top: Option<ValueType>) -> Operand
    ensures { result ≡ named symbol top }
{
    match symbol {
        Symbol::Constant(value) => Operand::Constant(value),
        Symbol::Variable(variable) => Operand::Variable(variable),
        Symbol::Out => Operand::Out,
        Symbol::Print => Operand::Print,
        Symbol::Monitor(monitor) => Operand::Monitor(monitor),
        Symbol::Make(thread) => Operand::Make(thread),
        Symbol::Construct => constructed(top),
        Symbol::MakeTarget(thread) => Operand::Target(thread),
        Symbol::ConstructTarget => target_constructed(top),
        Symbol::Wrap => wrapped(top),
        Symbol::Start => started(top),
        Symbol::Join => joined(top),
        Symbol::Alive => asked(top),
        Symbol::Call { method, .. } => Operand::Method(method),
        Symbol::Nothing => Operand::Nothing,
    }
}

/// What an instruction names.
fn operand_of(instr: Instr, symbol: Symbol, top: Option<ValueType>) -> Operand
    ensures { result ≡ operand_of instr symbol top }
{
    match instr {
        Instr::Monitorenter | Instr::Monitorexit => monitor_in(top),
        _ => named(symbol, top),
    }
}

/// What each listed instruction names, by the symbols and the typed states in the same order.
pub fn operands_of(
    alloc: Global,
    listing: &[Listed],
    symbols: &[Symbol],
    states: &[TypedState],
) -> Result<Operands, Memory>
    requires named { length symbols.now ≡ length listing.now }
    requires typed { length states.now ≡ length listing.now }
    ensures { IfOk result (λ operands. operands ≡ operands_of listing.now symbols.now states.now) }
{
    let mut operands = Operands::new(alloc);
    for (place, item) in listing.iter().enumerate() {
        let operand = operand_of(item.instr, symbols[place], top_of(&states[place]));
        operands.push(operand)?;
    }
    Ok(operands)
}
