//! What each instruction does, by what it names (JVMS 6.5).

ghost use Rattle.std.specs.Prelude.{◌≡◌};
ghost use Rattle.thread_meaning.specs.Doings.{stack_doing, local_doing, operation_doing, jump_doing, own_doing, access_doing, monitor_doing, making_doing, target_doing, wrapping_doing, calling_doing, doing_of};
ghost use Rattle.thread_meaning.specs.Tracing.{has_ended};

use crate::doing::{Binary, Comparison, Doing, Test, Unary};
use crate::value::Value;
use opcodes::Instr;
use program::Operand;

/// Instructions that work on the stack alone, and returns.
fn stack_doing(instr: &Instr) -> Doing
    ensures { result ≡ stack_doing instr.now }
{
    match instr {
        Instr::Nop => Doing::Nothing,
        Instr::Pop => Doing::Discard,
        Instr::Dup => Doing::Double,
        Instr::Swap => Doing::Exchange,
        Instr::Ireturn => Doing::ReturnInt,
        Instr::Return => Doing::Return,
        _ => Doing::Stuck,
    }
}

/// Loads and stores of locals.
fn local_doing(instr: &Instr) -> Doing
    ensures { result ≡ local_doing instr.now }
{
    match instr {
        Instr::Iload { slot } => Doing::LoadInt(u32::from(*slot)),
        Instr::Iload0 => Doing::LoadInt(0),
        Instr::Iload1 => Doing::LoadInt(1),
        Instr::Iload2 => Doing::LoadInt(2),
        Instr::Iload3 => Doing::LoadInt(3),
        Instr::Aload { slot } => Doing::LoadReference(u32::from(*slot)),
        Instr::Aload0 => Doing::LoadReference(0),
        Instr::Aload1 => Doing::LoadReference(1),
        Instr::Aload2 => Doing::LoadReference(2),
        Instr::Aload3 => Doing::LoadReference(3),
        Instr::Istore { slot } => Doing::StoreInt(u32::from(*slot)),
        Instr::Istore0 => Doing::StoreInt(0),
        Instr::Istore1 => Doing::StoreInt(1),
        Instr::Istore2 => Doing::StoreInt(2),
        Instr::Istore3 => Doing::StoreInt(3),
        Instr::Astore { slot } => Doing::StoreReference(u32::from(*slot)),
        Instr::Astore0 => Doing::StoreReference(0),
        Instr::Astore1 => Doing::StoreReference(1),
        Instr::Astore2 => Doing::StoreReference(2),
        Instr::Astore3 => Doing::StoreReference(3),
        Instr::Iinc { slot, delta } => Doing::Increment {
            slot: u32::from(*slot),
            delta: i32::from(*delta),
        },
        _ => Doing::Stuck,
    }
}

/// Operations on ints.
fn operation_doing(instr: &Instr) -> Doing
    ensures { result ≡ operation_doing instr.now }
{
    match instr {
        Instr::Ineg => Doing::Unary(Unary::Negate),
        Instr::I2b => Doing::Unary(Unary::ToByte),
        Instr::I2c => Doing::Unary(Unary::ToChar),
        Instr::I2s => Doing::Unary(Unary::ToShort),
        Instr::Iadd => Doing::Binary(Binary::Add),
        Instr::Isub => Doing::Binary(Binary::Subtract),
        Instr::Imul => Doing::Binary(Binary::Multiply),
        Instr::Ishl => Doing::Binary(Binary::ShiftLeft),
        Instr::Ishr => Doing::Binary(Binary::ShiftRight),
        Instr::Iushr => Doing::Binary(Binary::ShiftRightUnsigned),
        Instr::Iand => Doing::Binary(Binary::And),
        Instr::Ior => Doing::Binary(Binary::Or),
        Instr::Ixor => Doing::Binary(Binary::ExclusiveOr),
        _ => Doing::Stuck,
    }
}

/// A jump where an int passes a comparison with 0.
fn jump_by_zero(comparison: Comparison, distance: i16) -> Doing
    ensures { result ≡ Doing.Jump (Test.WithZero comparison) distance }
{
    Doing::Jump {
        test: Test::WithZero(comparison),
        distance,
    }
}

/// A jump where two ints pass a comparison.
fn jump_by_two(comparison: Comparison, distance: i16) -> Doing
    ensures { result ≡ Doing.Jump (Test.OfTwo comparison) distance }
{
    Doing::Jump {
        test: Test::OfTwo(comparison),
        distance,
    }
}

/// Jumps.
fn jump_doing(instr: &Instr) -> Doing
    ensures { result ≡ jump_doing instr.now }
{
    match instr {
        Instr::Ifeq { distance } => jump_by_zero(Comparison::Equal, *distance),
        Instr::Ifne { distance } => jump_by_zero(Comparison::NotEqual, *distance),
        Instr::Iflt { distance } => jump_by_zero(Comparison::Less, *distance),
        Instr::Ifge { distance } => jump_by_zero(Comparison::GreaterOrEqual, *distance),
        Instr::Ifgt { distance } => jump_by_zero(Comparison::Greater, *distance),
        Instr::Ifle { distance } => jump_by_zero(Comparison::LessOrEqual, *distance),
        Instr::IfIcmpeq { distance } => jump_by_two(Comparison::Equal, *distance),
        Instr::IfIcmpne { distance } => jump_by_two(Comparison::NotEqual, *distance),
        Instr::IfIcmplt { distance } => jump_by_two(Comparison::Less, *distance),
        Instr::IfIcmpge { distance } => jump_by_two(Comparison::GreaterOrEqual, *distance),
        Instr::IfIcmpgt { distance } => jump_by_two(Comparison::Greater, *distance),
        Instr::IfIcmple { distance } => jump_by_two(Comparison::LessOrEqual, *distance),
        Instr::Goto { distance } => Doing::Jump {
            test: Test::Always,
            distance: *distance,
        },
        _ => Doing::Stuck,
    }
}

/// What an instruction that names nothing does.
fn own_doing(instr: &Instr) -> Doing
    ensures { result ≡ own_doing instr.now }
{
    let other = operation_doing(instr).or_else(jump_doing(instr));
    stack_doing(instr).or_else(local_doing(instr).or_else(other))
}

/// What an instruction that names a variable does.
fn access_doing(instr: &Instr, variable: u32) -> Doing
    ensures { result ≡ access_doing instr.now variable }
{
    match instr {
        Instr::Getstatic { index: _ } => Doing::Read(variable),
        Instr::Putstatic { index: _ } => Doing::Write(variable),
        _ => Doing::Stuck,
    }
}

/// What an instruction that names a monitor does.
fn monitor_doing(instr: &Instr, monitor: u32) -> Doing
    ensures { result ≡ monitor_doing instr.now monitor }
{
    match instr {
        Instr::Ldc { index: _ } | Instr::LdcW { index: _ } => Doing::Put(Value::monitor(monitor)),
        Instr::Monitorenter => Doing::Lock(monitor),
        Instr::Monitorexit => Doing::Unlock(monitor),
        _ => Doing::Stuck,
    }
}

/// What the making of a thread's object, or its constructor's call, does.
fn making_doing(instr: &Instr, thread: u32) -> Doing
    ensures { result ≡ making_doing instr.now thread }
{
    match instr {
        Instr::New { index: _ } => Doing::Put(Value::object(thread)),
        Instr::Invokespecial { index: _ } => Doing::Construct(thread),
        _ => Doing::Stuck,
    }
}

/// What the making of a thread's target, or its constructor's call, does.
fn target_doing(instr: &Instr, thread: u32) -> Doing
    ensures { result ≡ target_doing instr.now thread }
{
    match instr {
        Instr::New { index: _ } => Doing::Put(Value::target(thread)),
        Instr::Invokespecial { index: _ } => Doing::ConstructTarget(thread),
        _ => Doing::Stuck,
    }
}

/// What the call of the constructor does that makes a thread around its target.
fn wrapping_doing(instr: &Instr, thread: u32) -> Doing
    ensures { result ≡ wrapping_doing instr.now thread }
{
    match instr {
        Instr::Invokespecial { index: _ } => Doing::Wrap(thread),
        _ => Doing::Stuck,
    }
}

/// Whether a thread is in a set of bits: bit k stands for thread k.
fn has_ended(ended: u8, thread: u32) -> bool
    ensures { result ≡ has_ended ended thread }
{
    thread < 32 && (u32::from(ended) >> thread) & 1 == 1
}

/// What a call of an object's method does, if the instruction is one, by what the method does.
fn calling_doing(instr: &Instr, doing: Doing) -> Doing
    ensures { result ≡ calling_doing instr.now doing }
{
    match instr {
        Instr::Invokevirtual { index: _ } => doing,
        _ => Doing::Stuck,
    }
}

/// What the instruction does that names this, where `isAlive` finds these threads ended.
pub fn what_it_does(ended: u8, instr: &Instr, operand: &Operand) -> Doing
    ensures { result ≡ doing_of (has_ended ended) instr.now operand.now }
{
    match operand {
        Operand::Constant(value) => Doing::Push(*value),
        Operand::Variable(variable) => access_doing(instr, *variable),
        Operand::Monitor(monitor) => monitor_doing(instr, *monitor),
        Operand::Make(thread) => making_doing(instr, *thread),
        Operand::Target(thread) => target_doing(instr, *thread),
        Operand::Wrap(thread) => wrapping_doing(instr, *thread),
        Operand::Start(thread) => calling_doing(instr, Doing::Start(*thread)),
        Operand::Join(thread) => calling_doing(instr, Doing::Join(*thread)),
        Operand::Alive(thread) => {
            let ended = has_ended(ended, *thread);
            calling_doing(
                instr,
                Doing::Ask {
                    thread: *thread,
                    ended,
                },
            )
        }
        Operand::Method(called) => match instr {
            Instr::Invokestatic { index: _ } => Doing::Call(*called),
            _ => Doing::Stuck,
        },
        Operand::Out => match instr {
            Instr::Getstatic { index: _ } => Doing::Put(Value::out()),
            _ => Doing::Stuck,
        },
        Operand::Print => Doing::Print,
        Operand::Nothing => own_doing(instr),
    }
}
