//! How instructions meet what they load and the stack.

ghost use Rattle.std.specs.Prelude.{◌≡◌, ◌∷◌, List, Some, None, IfOk, IfErr};
ghost use Rattle.program.specs.declared.value_type.ValueType.{ValueType};
ghost use Rattle.typing.specs.Changes.{leaves, below_ints, pushes_result, prints, discards, doubles, exchanges, loads_int, loads_reference, stores_int, stores_reference, increments, enters, exits, completes, constructs, constructs_target, wraps, starts, joins, asks, turns, returns_nothing, returns_int, meeting};
ghost use Rattle.typing.specs.Meets.{IsChange, IsMisfit};

use crate::change::{Changed, HeldChange, LocalChange, Misfit, ThreadChange};
use crate::deed::Deed;
use crate::object::Object;
use crate::stack::TypeStack;
use program::ValueType;

/// Pushes a type.
fn push(stack: &mut TypeStack, holds: ValueType) -> Result<Changed, Misfit>
    ensures ok { IfOk result (IsChange (leaves (holds ∷ stack.old)) stack.new) }
    ensures err { IfErr result (λ e. e ≡ Misfit.Memory) }
{
    match stack.push(holds) {
        Ok(()) => Ok(Changed::nothing()),
        Err(_) => Err(Misfit::Memory),
    }
}

/// Takes an int.
fn take_int(stack: &mut TypeStack) -> Result<(), Misfit>
    ensures ok { IfOk result (λ _. stack.old ≡ ValueType.Int ∷ stack.new) }
    ensures err { IfErr result (λ e. (e ≡ Misfit.Operands) × (below_ints 1 stack.old ≡ None)) }
{
    match stack.pop() {
        Some(ValueType::Int) => Ok(()),
        _ => Err(Misfit::Operands),
    }
}

/// Takes ints.
fn take_ints(stack: &mut TypeStack, ints: u32) -> Result<(), Misfit>
    ensures ok { IfOk result (λ _. below_ints ints stack.old ≡ Some stack.new) }
    ensures err { IfErr result (λ e. (e ≡ Misfit.Operands) × (below_ints ints stack.old ≡ None)) }
{
    for taken in 0..ints {
        match take_int(stack) {
            Ok(()) => {}
            Err(misfit) => return Err(misfit),
        }
    }
    Ok(())
}

/// Takes ints, and pushes an int or nothing.
fn operate(stack: &mut TypeStack, ints: u32, pushes: bool) -> Result<Changed, Misfit>
    ensures ok { IfOk result (IsChange (pushes_result pushes (below_ints ints stack.old)) stack.new) }
    ensures err { IfErr result (IsMisfit (pushes_result pushes (below_ints ints stack.old))) }
{
    take_ints(stack, ints)?;
    if !pushes {
        return Ok(Changed::nothing());
    }
    push(stack, ValueType::Int)
}

/// Takes an int and below it the object of `System.out`.
fn print(stack: &mut TypeStack) -> Result<Changed, Misfit>
    ensures ok { IfOk result (IsChange (prints stack.old) stack.new) }
    ensures err { IfErr result (IsMisfit (prints stack.old)) }
{
    match (stack.pop(), stack.pop()) {
        (Some(ValueType::Int), Some(ValueType::Out)) => Ok(Changed::nothing()),
        _ => Err(Misfit::Operands),
    }
}

/// Takes a value.
fn discard(stack: &mut TypeStack) -> Result<Changed, Misfit>
    ensures ok { IfOk result (IsChange (discards stack.old) stack.new) }
    ensures err { IfErr result (IsMisfit (discards stack.old)) }
{
    match stack.pop() {
        Some(_) => Ok(Changed::nothing()),
        None => Err(Misfit::Operands),
    }
}

/// Pushes the top of the stack again.
fn double(stack: &mut TypeStack) -> Result<Changed, Misfit>
    ensures ok { IfOk result (IsChange (doubles stack.old) stack.new) }
    ensures err { IfErr result (IsMisfit (doubles stack.old)) }
{
    let Some(holds) = stack.pop() else {
        return Err(Misfit::Operands);
    };
    if stack.push(holds).is_err() {
        return Err(Misfit::Memory);
    }
    push(stack, holds)
}

/// Exchanges the two topmost values.
fn exchange(stack: &mut TypeStack) -> Result<Changed, Misfit>
    ensures ok { IfOk result (IsChange (exchanges stack.old) stack.new) }
    ensures err { IfErr result (IsMisfit (exchanges stack.old)) }
{
    let Some(upper) = stack.pop() else {
        return Err(Misfit::Operands);
    };
    let Some(lower) = stack.pop() else {
        return Err(Misfit::Operands);
    };
    if stack.push(upper).is_err() {
        return Err(Misfit::Memory);
    }
    push(stack, lower)
}

/// Pushes the int of a local.
fn load_int(stack: &mut TypeStack, loaded: Option<ValueType>) -> Result<Changed, Misfit>
    ensures ok { IfOk result (IsChange (loads_int loaded stack.old) stack.new) }
    ensures err { IfErr result (IsMisfit (loads_int loaded stack.old)) }
{
    match loaded {
        Some(ValueType::Int) => push(stack, ValueType::Int),
        _ => Err(Misfit::Operands),
    }
}

/// Pushes the reference of a local.
fn load_reference(stack: &mut TypeStack, loaded: Option<ValueType>) -> Result<Changed, Misfit>
    ensures ok { IfOk result (IsChange (loads_reference loaded stack.old) stack.new) }
    ensures err { IfErr result (IsMisfit (loads_reference loaded stack.old)) }
{
    match loaded {
        None | Some(ValueType::Int) => Err(Misfit::Operands),
        Some(holds) => push(stack, holds),
    }
}

/// Takes an int and stores it in a local.
fn store_int(stack: &mut TypeStack, slot: u32) -> Result<Changed, Misfit>
    ensures ok { IfOk result (IsChange (stores_int slot stack.old) stack.new) }
    ensures err { IfErr result (IsMisfit (stores_int slot stack.old)) }
{
    match stack.pop() {
        Some(ValueType::Int) => Ok(Changed::in_local(LocalChange::Stores {
            slot,
            holds: ValueType::Int,
        })),
        _ => Err(Misfit::Operands),
    }
}

/// Takes a reference and stores it in a local.
fn store_reference(stack: &mut TypeStack, slot: u32) -> Result<Changed, Misfit>
    ensures ok { IfOk result (IsChange (stores_reference slot stack.old) stack.new) }
    ensures err { IfErr result (IsMisfit (stores_reference slot stack.old)) }
{
    match stack.pop() {
        None | Some(ValueType::Int) => Err(Misfit::Operands),
        Some(holds) => Ok(Changed::in_local(LocalChange::Stores { slot, holds })),
    }
}

/// Adds to the int of a local.
fn increment(loaded: Option<ValueType>, slot: u32) -> Result<Changed, Misfit>
    ensures ok { IfOk result (λ c. (stack : List ValueType) → IsChange (increments slot loaded stack) stack c) }
    ensures err { IfErr result (λ e. (stack : List ValueType) → IsMisfit (increments slot loaded stack) e) }
{
    match loaded {
        Some(ValueType::Int) => Ok(Changed::in_local(LocalChange::Stores {
            slot,
            holds: ValueType::Int,
        })),
        _ => Err(Misfit::Operands),
    }
}

/// Takes a class object, and enters its monitor.
fn enter(stack: &mut TypeStack) -> Result<Changed, Misfit>
    ensures ok { IfOk result (IsChange (enters stack.old) stack.new) }
    ensures err { IfErr result (IsMisfit (enters stack.old)) }
{
    match stack.pop() {
        None => Err(Misfit::Operands),
        Some(ValueType::Lock(monitor)) => Ok(Changed::in_held(HeldChange::Enters(monitor))),
        Some(_) => Err(Misfit::NoLock),
    }
}

/// Takes a class object, and leaves its monitor.
fn leave(stack: &mut TypeStack) -> Result<Changed, Misfit>
    ensures ok { IfOk result (IsChange (exits stack.old) stack.new) }
    ensures err { IfErr result (IsMisfit (exits stack.old)) }
{
    match stack.pop() {
        None => Err(Misfit::Operands),
        Some(ValueType::Lock(monitor)) => Ok(Changed::in_held(HeldChange::Leaves(monitor))),
        Some(_) => Err(Misfit::NoLock),
    }
}

/// Makes the object of a thread.
fn make(stack: &mut TypeStack, thread: u32) -> Result<Changed, Misfit>
    ensures ok { IfOk result (IsChange (turns (ThreadChange.Makes thread) (ValueType.Fresh thread ∷ stack.old)) stack.new) }
    ensures err { IfErr result (λ e. e ≡ Misfit.Memory) }
{
    match stack.push(ValueType::Fresh(thread)) {
        Ok(()) => Ok(Changed::in_thread(ThreadChange::Makes(thread))),
        Err(_) => Err(Misfit::Memory),
    }
}

/// Makes the target of a thread.
fn make_target(stack: &mut TypeStack, thread: u32) -> Result<Changed, Misfit>
    ensures ok { IfOk result (IsChange (leaves (ValueType.FreshTarget thread ∷ stack.old)) stack.new) }
    ensures err { IfErr result (IsMisfit (leaves (ValueType.FreshTarget thread ∷ stack.old))) }
{
    push(stack, ValueType::FreshTarget(thread))
}

/// The constructor of an object was called, which makes a thread ready or not.
fn construct_object(stack: &mut TypeStack, object: Object, thread: ThreadChange) -> Changed
    ensures { IsChange (completes object thread stack.old) stack.new result }
{
    stack.construct(object);
    Changed {
        local: LocalChange::Constructs(object),
        held: HeldChange::Stays,
        thread,
    }
}

/// Calls the constructor of a thread's object.
fn construct(stack: &mut TypeStack) -> Result<Changed, Misfit>
    ensures ok { IfOk result (IsChange (constructs stack.old) stack.new) }
    ensures err { IfErr result (IsMisfit (constructs stack.old)) }
{
    let Some(ValueType::Fresh(thread)) = stack.pop() else {
        return Err(Misfit::Operands);
    };
    let ready = ThreadChange::Readies(thread);
    Ok(construct_object(stack, Object::Thread(thread), ready))
}

/// Calls the constructor of a thread's target.
fn construct_target(stack: &mut TypeStack) -> Result<Changed, Misfit>
    ensures ok { IfOk result (IsChange (constructs_target stack.old) stack.new) }
    ensures err { IfErr result (IsMisfit (constructs_target stack.old)) }
{
    let Some(ValueType::FreshTarget(thread)) = stack.pop() else {
        return Err(Misfit::Operands);
    };
    let stays = ThreadChange::Stays;
    Ok(construct_object(stack, Object::Target(thread), stays))
}

/// Calls the constructor of a thread's object that takes the thread's target.
fn wrap(stack: &mut TypeStack) -> Result<Changed, Misfit>
    ensures ok { IfOk result (IsChange (wraps stack.old) stack.new) }
    ensures err { IfErr result (IsMisfit (wraps stack.old)) }
{
    let Some(ValueType::Target(target)) = stack.pop() else {
        return Err(Misfit::Operands);
    };
    let Some(ValueType::Fresh(thread)) = stack.pop() else {
        return Err(Misfit::Operands);
    };
    if target != thread {
        return Err(Misfit::Operands);
    }
    let ready = ThreadChange::Readies(thread);
    Ok(construct_object(stack, Object::Thread(thread), ready))
}

/// Starts a thread.
fn start(stack: &mut TypeStack) -> Result<Changed, Misfit>
    ensures ok { IfOk result (IsChange (starts stack.old) stack.new) }
    ensures err { IfErr result (IsMisfit (starts stack.old)) }
{
    match stack.pop() {
        Some(ValueType::Thread(thread)) => Ok(Changed::in_thread(ThreadChange::Starts(thread))),
        _ => Err(Misfit::Operands),
    }
}

/// Waits for the end of a thread.
fn join(stack: &mut TypeStack) -> Result<Changed, Misfit>
    ensures ok { IfOk result (IsChange (joins stack.old) stack.new) }
    ensures err { IfErr result (IsMisfit (joins stack.old)) }
{
    match stack.pop() {
        Some(ValueType::Thread(thread)) => Ok(Changed::in_thread(ThreadChange::Joins(thread))),
        _ => Err(Misfit::Operands),
    }
}

/// Asks whether a thread is alive.
fn ask(stack: &mut TypeStack) -> Result<Changed, Misfit>
    ensures ok { IfOk result (IsChange (asks stack.old) stack.new) }
    ensures err { IfErr result (IsMisfit (asks stack.old)) }
{
    let Some(ValueType::Thread(thread)) = stack.pop() else {
        return Err(Misfit::Operands);
    };
    match stack.push(ValueType::Int) {
        Ok(()) => Ok(Changed::in_thread(ThreadChange::Asks(thread))),
        Err(_) => Err(Misfit::Memory),
    }
}

/// Returns without a result.
fn return_nothing(has_result: bool) -> Result<Changed, Misfit>
    ensures ok { IfOk result (λ c. (stack : List ValueType) → IsChange (returns_nothing has_result stack) stack c) }
    ensures err { IfErr result (λ e. (stack : List ValueType) → IsMisfit (returns_nothing has_result stack) e) }
{
    if has_result {
        return Err(Misfit::Operands);
    }
    Ok(Changed::nothing())
}

/// Returns an int.
fn return_int(stack: &mut TypeStack, has_result: bool) -> Result<Changed, Misfit>
    ensures ok { IfOk result (IsChange (returns_int has_result stack.old) stack.new) }
    ensures err { IfErr result (IsMisfit (returns_int has_result stack.old)) }
{
    if !has_result {
        return Err(Misfit::Operands);
    }
    match stack.pop() {
        Some(ValueType::Int) => Ok(Changed::nothing()),
        _ => Err(Misfit::Operands),
    }
}

/// What an instruction changes, in a method with a result or without, by what it loads. The stack is changed on the spot;
/// where there is a misfit, it may be anything.
pub fn meet(
    stack: &mut TypeStack,
    has_result: bool,
    deed: Deed,
    loaded: Option<ValueType>,
) -> Result<Changed, Misfit>
    ensures ok { IfOk result (IsChange (meeting has_result deed loaded stack.old) stack.new) }
    ensures err { IfErr result (IsMisfit (meeting has_result deed loaded stack.old)) }
{
    match deed {
        Deed::Operate { ints, result } => operate(stack, ints, result),
        Deed::Push(holds) => push(stack, holds),
        Deed::Print => print(stack),
        Deed::Discard => discard(stack),
        Deed::Double => double(stack),
        Deed::Exchange => exchange(stack),
        Deed::LoadInt(_) => load_int(stack, loaded),
        Deed::LoadReference(_) => load_reference(stack, loaded),
        Deed::StoreInt(slot) => store_int(stack, slot),
        Deed::StoreReference(slot) => store_reference(stack, slot),
        Deed::Increment(slot) => increment(loaded, slot),
        Deed::Enter => enter(stack),
        Deed::Leave => leave(stack),
        Deed::Make(thread) => make(stack, thread),
        Deed::Construct => construct(stack),
        Deed::MakeTarget(thread) => make_target(stack, thread),
        Deed::ConstructTarget => construct_target(stack),
        Deed::Wrap => wrap(stack),
        Deed::Start => start(stack),
        Deed::Join => join(stack),
        Deed::Ask => ask(stack),
        Deed::Return => return_nothing(has_result),
        Deed::ReturnInt => return_int(stack, has_result),
        Deed::Misplaced => Err(Misfit::Operands),
    }
}
