//! What each instruction does to the types of a frame, by what it names.

ghost use Rattle.std.specs.Prelude.{◌≡◌};
ghost use Rattle.std.specs.Option.{option_map, is_some};
ghost use Rattle.program.specs.Operations.{int_load_of, reference_load_of, int_store_of, reference_store_of, unary_of, binary_of, condition_of};
ghost use Rattle.typing.specs.Deeds.{tested_ints, constant_deed, access_deed, out_deed, monitor_deed, making_deed, constructor_deed, virtual_deed, static_deed, stack_deed, local_deed, operation_deed, own_deed, deed_of};

use crate::deed::Deed;
use crate::symbol::Symbol;
use opcodes::Instr;
use program::ValueType;

/// The local whose int is pushed.
fn int_load(instr: &Instr) -> Option<u32>
    ensures { result ≡ int_load_of instr.now }
{
    match instr {
        Instr::Iload { slot } => Some(u32::from(*slot)),
        Instr::Iload0 => Some(0),
        Instr::Iload1 => Some(1),
        Instr::Iload2 => Some(2),
        Instr::Iload3 => Some(3),
        _ => None,
    }
}

/// The local whose reference is pushed.
fn reference_load(instr: &Instr) -> Option<u32>
    ensures { result ≡ reference_load_of instr.now }
{
    match instr {
        Instr::Aload { slot } => Some(u32::from(*slot)),
        Instr::Aload0 => Some(0),
        Instr::Aload1 => Some(1),
        Instr::Aload2 => Some(2),
        Instr::Aload3 => Some(3),
        _ => None,
    }
}

/// The local into which an int is popped.
fn int_store(instr: &Instr) -> Option<u32>
    ensures { result ≡ int_store_of instr.now }
{
    match instr {
        Instr::Istore { slot } => Some(u32::from(*slot)),
        Instr::Istore0 => Some(0),
        Instr::Istore1 => Some(1),
        Instr::Istore2 => Some(2),
        Instr::Istore3 => Some(3),
        _ => None,
    }
}

/// The local into which a reference is popped.
fn reference_store(instr: &Instr) -> Option<u32>
    ensures { result ≡ reference_store_of instr.now }
{
    match instr {
        Instr::Astore { slot } => Some(u32::from(*slot)),
        Instr::Astore0 => Some(0),
        Instr::Astore1 => Some(1),
        Instr::Astore2 => Some(2),
        Instr::Astore3 => Some(3),
        _ => None,
    }
}

/// Whether the instruction is an operation on one int.
fn is_unary(instr: &Instr) -> bool
    ensures { result ≡ is_some (unary_of instr.now) }
{
    matches!(instr, Instr::Ineg | Instr::I2b | Instr::I2c | Instr::I2s)
}

/// Whether the instruction is an operation on two ints.
fn is_binary(instr: &Instr) -> bool
    ensures { result ≡ is_some (binary_of instr.now) }
{
    matches!(
        instr,
        Instr::Iadd
            | Instr::Isub
            | Instr::Imul
            | Instr::Ishl
            | Instr::Ishr
            | Instr::Iushr
            | Instr::Iand
            | Instr::Ior
            | Instr::Ixor
    )
}

/// How many ints a jump tests.
fn tested(instr: &Instr) -> Option<u32>
    ensures { result ≡ option_map tested_ints (condition_of instr.now) }
{
    match instr {
        Instr::Ifeq { .. }
        | Instr::Ifne { .. }
        | Instr::Iflt { .. }
        | Instr::Ifge { .. }
        | Instr::Ifgt { .. }
        | Instr::Ifle { .. } => Some(1),
        Instr::IfIcmpeq { .. }
        | Instr::IfIcmpne { .. }
        | Instr::IfIcmplt { .. }
        | Instr::IfIcmpge { .. }
        | Instr::IfIcmpgt { .. }
        | Instr::IfIcmple { .. } => Some(2),
        Instr::Goto { .. } => Some(0),
        _ => None,
    }
}

/// Instructions that work on the stack alone, and returns.
fn stack_deed(instr: &Instr) -> Deed
    ensures { result ≡ stack_deed instr.now }
{
    match instr {
        Instr::Nop => Deed::Operate {
            ints: 0,
            result: false,
        },
        Instr::Pop => Deed::Discard,
        Instr::Dup => Deed::Double,
        Instr::Swap => Deed::Exchange,
        Instr::Iinc { slot, delta: _ } => Deed::Increment(u32::from(*slot)),
        Instr::Monitorenter => Deed::Enter,
        Instr::Monitorexit => Deed::Leave,
        Instr::Return => Deed::Return,
        Instr::Ireturn => Deed::ReturnInt,
        _ => Deed::Misplaced,
    }
}

/// Operations on ints and jumps; what else works on the stack alone.
fn operation_deed(instr: &Instr) -> Deed
    ensures { result ≡ operation_deed instr.now }
{
    if is_unary(instr) {
        return Deed::Operate {
            ints: 1,
            result: true,
        };
    }
    if is_binary(instr) {
        return Deed::Operate {
            ints: 2,
            result: true,
        };
    }
    match tested(instr) {
        Some(ints) => Deed::Operate {
            ints,
            result: false,
        },
        None => stack_deed(instr),
    }
}

/// Loads and stores of locals.
fn local_deed(instr: &Instr) -> Option<Deed>
    ensures { result ≡ local_deed instr.now }
{
    if let Some(slot) = int_load(instr) {
        return Some(Deed::LoadInt(slot));
    }
    if let Some(slot) = reference_load(instr) {
        return Some(Deed::LoadReference(slot));
    }
    if let Some(slot) = int_store(instr) {
        return Some(Deed::StoreInt(slot));
    }
    if let Some(slot) = reference_store(instr) {
        return Some(Deed::StoreReference(slot));
    }
    None
}

/// What an instruction does that names nothing.
fn own_deed(instr: &Instr) -> Deed
    ensures { result ≡ own_deed instr.now }
{
    local_deed(instr).unwrap_or(operation_deed(instr))
}

/// What an instruction does that names a constant.
fn constant_deed(instr: &Instr) -> Deed
    ensures { result ≡ constant_deed instr.now }
{
    match instr {
        Instr::IconstM1
        | Instr::Iconst0
        | Instr::Iconst1
        | Instr::Iconst2
        | Instr::Iconst3
        | Instr::Iconst4
        | Instr::Iconst5
        | Instr::Bipush { .. }
        | Instr::Sipush { .. }
        | Instr::Ldc { .. }
        | Instr::LdcW { .. } => Deed::Operate {
            ints: 0,
            result: true,
        },
        _ => Deed::Misplaced,
    }
}

/// What an instruction does that names a variable.
fn access_deed(instr: &Instr) -> Deed
    ensures { result ≡ access_deed instr.now }
{
    match instr {
        Instr::Getstatic { .. } => Deed::Operate {
            ints: 0,
            result: true,
        },
        Instr::Putstatic { .. } => Deed::Operate {
            ints: 1,
            result: false,
        },
        _ => Deed::Misplaced,
    }
}

/// What an instruction does that names `System.out`.
fn out_deed(instr: &Instr) -> Deed
    ensures { result ≡ out_deed instr.now }
{
    match instr {
        Instr::Getstatic { .. } => Deed::Push(ValueType::Out),
        _ => Deed::Misplaced,
    }
}

/// What an instruction does that names a monitor.
fn monitor_deed(instr: &Instr, monitor: u32) -> Deed
    ensures { result ≡ monitor_deed instr.now monitor }
{
    match instr {
        Instr::Ldc { .. } | Instr::LdcW { .. } => Deed::Push(ValueType::Lock(monitor)),
        _ => Deed::Misplaced,
    }
}

/// What an instruction does that makes an object, by what a `new` of it does.
fn making_deed(instr: &Instr, deed: Deed) -> Deed
    ensures { result ≡ making_deed instr.now deed }
{
    match instr {
        Instr::New { .. } => deed,
        _ => Deed::Misplaced,
    }
}

/// What an instruction does that names a constructor, by what the constructor does.
fn constructor_deed(instr: &Instr, deed: Deed) -> Deed
    ensures { result ≡ constructor_deed instr.now deed }
{
    match instr {
        Instr::Invokespecial { .. } => deed,
        _ => Deed::Misplaced,
    }
}

/// What a call of an object's method does, by what the method does.
fn virtual_deed(instr: &Instr, deed: Deed) -> Deed
    ensures { result ≡ virtual_deed instr.now deed }
{
    match instr {
        Instr::Invokevirtual { .. } => deed,
        _ => Deed::Misplaced,
    }
}

/// What a call of a static method does.
fn static_deed(instr: &Instr, ints: u32, leaves: bool) -> Deed
    ensures { result ≡ static_deed instr.now ints leaves }
{
    match instr {
        Instr::Invokestatic { .. } => Deed::Operate {
            ints,
            result: leaves,
        },
        _ => Deed::Misplaced,
    }
}

/// What the instruction does that names this.
pub fn deed_of(instr: &Instr, symbol: &Symbol) -> Deed
    ensures { result ≡ deed_of instr.now symbol.now }
{
    match symbol {
        Symbol::Constant(_) => constant_deed(instr),
        Symbol::Variable(_) => access_deed(instr),
        Symbol::Out => out_deed(instr),
        Symbol::Print => virtual_deed(instr, Deed::Print),
        Symbol::Monitor(monitor) => monitor_deed(instr, *monitor),
        Symbol::Make(thread) => making_deed(instr, Deed::Make(*thread)),
        Symbol::Construct => constructor_deed(instr, Deed::Construct),
        Symbol::MakeTarget(thread) => making_deed(instr, Deed::MakeTarget(*thread)),
        Symbol::ConstructTarget => constructor_deed(instr, Deed::ConstructTarget),
        Symbol::Wrap => constructor_deed(instr, Deed::Wrap),
        Symbol::Start => virtual_deed(instr, Deed::Start),
        Symbol::Join => virtual_deed(instr, Deed::Join),
        Symbol::Alive => virtual_deed(instr, Deed::Ask),
        Symbol::Call {
            method: _,
            parameters,
            result,
        } => static_deed(instr, *parameters, *result),
        Symbol::Nothing => own_deed(instr),
    }
}
