//! Frames of methods, and the steps inside one (JVMS 3.6 and 6.5).

ghost use Rattle.std.specs.Prelude.{◌≡◌, [], ◌∷◌, Some, None, IfOk, IfErr, pos, ◌+ℤ◌};
ghost use Rattle.thread_meaning.specs.Changes.{natural_of};

use crate::doing::{Binary, Doing, Test, Unary};
use crate::effect::Effect;
use crate::end::TraceEnd;
use crate::stack::Stack;
use crate::value::Value;
use java_int::add;
use program::{Event, MethodId};

/// A method that is being run: where it stands in its code, its locals, and its stack.
#[derive(Debug, Drop)]
pub struct Frame {
    pub method: MethodId,
    pub pc: u64,
    pub locals: Vec<Option<Value>>,
    pub stack: Stack,
}

/// The place to which a jump goes.
fn target(pc: u32, distance: i16) -> Option<u64>
    ensures { result ≡ natural_of (pos pc +ℤ distance) }
{
    let place = i64::from(pc) + i64::from(distance);
    if place < 0 { None } else { Some(place as u64) }
}

impl Frame {
    ghost use Rattle.program.specs.Step.{shows};
    ghost use Rattle.thread_meaning.specs.Changes.{Makes, activation_of, goes_on, local_of, int_in, stores, branches, jumps, takes_monitor, takes_object, takes_target, wraps, asks, answer, asking, writes, prints, discards, doubles, exchanges, loads_int, loads_reference, stores_int, stores_reference, increments, applies_unary, applies_binary, change_of};

    /// The next instruction comes.
    fn go_on(&mut self, behind: u64, effect: Effect) -> Result<Effect, TraceEnd>
        ensures { Makes (Some (goes_on (activation_of self.old) behind self.old.stack effect)) result (activation_of self.new) }
    {
        self.pc = behind;
        Ok(effect)
    }

    /// The next instruction comes, with this value on the stack besides.
    fn go_on_with(&mut self, behind: u64, value: Value, effect: Effect) -> Result<Effect, TraceEnd>
        ensures { Makes (Some (goes_on (activation_of self.old) behind (value ∷ self.old.stack) effect)) result (activation_of self.new) }
    {
        self.stack.push(value)?;
        self.pc = behind;
        Ok(effect)
    }

    /// Takes the class object of this monitor.
    fn take_monitor(
        &mut self,
        behind: u64,
        monitor: u32,
        effect: Effect,
    ) -> Result<Effect, TraceEnd>
        ensures { Makes (takes_monitor (activation_of self.old) behind monitor effect) result (activation_of self.new) }
    {
        if self.stack.pop_monitor()? != monitor {
            return Err(TraceEnd::NotLinked);
        }
        self.go_on(behind, effect)
    }

    /// Takes the object of this thread.
    fn take_object(&mut self, behind: u64, thread: u32, effect: Effect) -> Result<Effect, TraceEnd>
        ensures { Makes (takes_object (activation_of self.old) behind thread effect) result (activation_of self.new) }
    {
        if self.stack.pop_object()? != thread {
            return Err(TraceEnd::NotLinked);
        }
        self.go_on(behind, effect)
    }

    /// Takes the class object of this monitor, and locks it.
    fn lock(&mut self, behind: u64, monitor: u32) -> Result<Effect, TraceEnd>
        ensures { Makes (takes_monitor (activation_of self.old) behind monitor (shows (Event.Lock monitor) [])) result (activation_of self.new) }
    {
        let event = Event::Lock { monitor };
        self.take_monitor(behind, monitor, Effect::of_event(Some(event)))
    }

    /// Takes the class object of this monitor, and unlocks it.
    fn unlock(&mut self, behind: u64, monitor: u32) -> Result<Effect, TraceEnd>
        ensures { Makes (takes_monitor (activation_of self.old) behind monitor (shows (Event.Unlock monitor) [])) result (activation_of self.new) }
    {
        let event = Event::Unlock { monitor };
        self.take_monitor(behind, monitor, Effect::of_event(Some(event)))
    }

    /// Takes the object of this thread, and starts it.
    fn start(&mut self, behind: u64, thread: u32) -> Result<Effect, TraceEnd>
        ensures { Makes (takes_object (activation_of self.old) behind thread (shows (Event.Start thread) [])) result (activation_of self.new) }
    {
        let event = Event::Start { thread };
        self.take_object(behind, thread, Effect::of_event(Some(event)))
    }

    /// Takes the object of this thread, and detects its end.
    fn join(&mut self, behind: u64, thread: u32) -> Result<Effect, TraceEnd>
        ensures { Makes (takes_object (activation_of self.old) behind thread (shows (Event.Detect thread) [])) result (activation_of self.new) }
    {
        let event = Event::Detect { thread };
        self.take_object(behind, thread, Effect::of_event(Some(event)))
    }

    /// Takes an int and writes it to a variable.
    fn write(&mut self, behind: u64, variable: u32) -> Result<Effect, TraceEnd>
        ensures { Makes (writes (activation_of self.old) behind variable) result (activation_of self.new) }
    {
        let value = self.stack.pop_int()?;
        let event = Event::Write { variable, value };
        self.go_on(behind, Effect::of_int(Some(event), value))
    }

    /// Takes an int and the object of `System.out`, and prints the int.
    fn print(&mut self, behind: u64) -> Result<Effect, TraceEnd>
        ensures { Makes (prints (activation_of self.old) behind) result (activation_of self.new) }
    {
        let value = self.stack.pop_int()?;
        self.stack.pop_out()?;
        self.go_on(behind, Effect::of_event(Some(Event::Print { value })))
    }

    /// Takes the target of this thread.
    fn take_target(&mut self, behind: u64, thread: u32) -> Result<Effect, TraceEnd>
        ensures { Makes (takes_target (activation_of self.old) behind thread) result (activation_of self.new) }
    {
        if self.stack.pop_target()? != thread {
            return Err(TraceEnd::NotLinked);
        }
        self.go_on(behind, Effect::silent())
    }

    /// Takes the target of this thread, and below it its object.
    fn wrap(&mut self, behind: u64, thread: u32) -> Result<Effect, TraceEnd>
        ensures { Makes (wraps (activation_of self.old) behind thread) result (activation_of self.new) }
    {
        if self.stack.pop_target()? != thread {
            return Err(TraceEnd::NotLinked);
        }
        self.take_object(behind, thread, Effect::silent())
    }

    /// Takes the object of this thread, and answers whether it is alive.
    fn ask(&mut self, behind: u64, thread: u32, ended: bool) -> Result<Effect, TraceEnd>
        ensures { Makes (asks (activation_of self.old) behind thread ended) result (activation_of self.new) }
    {
        if self.stack.pop_object()? != thread {
            return Err(TraceEnd::NotLinked);
        }
        if ended {
            let effect = Effect::of_int(Some(Event::Detect { thread }), 0);
            self.go_on_with(behind, Value::int(0), effect)
        } else {
            self.go_on_with(behind, Value::int(1), Effect::of_int(None, 1))
        }
    }

    /// Takes a value.
    fn discard(&mut self, behind: u64) -> Result<Effect, TraceEnd>
        ensures { Makes (discards (activation_of self.old) behind) result (activation_of self.new) }
    {
        self.stack.pop()?;
        self.go_on(behind, Effect::silent())
    }

    /// Pushes the top value again.
    fn double(&mut self, behind: u64) -> Result<Effect, TraceEnd>
        ensures { Makes (doubles (activation_of self.old) behind) result (activation_of self.new) }
    {
        let value = self.stack.pop()?;
        self.stack.push(value)?;
        self.go_on_with(behind, value, Effect::of_value(&value))
    }

    /// Exchanges the two topmost values.
    fn exchange(&mut self, behind: u64) -> Result<Effect, TraceEnd>
        ensures { Makes (exchanges (activation_of self.old) behind) result (activation_of self.new) }
    {
        let upper = self.stack.pop()?;
        let lower = self.stack.pop()?;
        self.stack.push(upper)?;
        self.go_on_with(behind, lower, Effect::of_values(&lower, &upper))
    }

    /// What a local holds.
    fn local(&self, slot: u32) -> Result<Value, TraceEnd>
        ensures ok { IfOk result (λ value. local_of (activation_of self.now) slot ≡ Some value) }
        ensures err { IfErr result (λ e. (e ≡ TraceEnd.NotLinked) × (local_of (activation_of self.now) slot ≡ None)) }
    {
        match self.locals.get(slot as usize) {
            Some(Some(value)) => Ok(*value),
            _ => Err(TraceEnd::NotLinked),
        }
    }

    /// The int that a local holds.
    fn int_local(&self, slot: u32) -> Result<i32, TraceEnd>
        ensures ok { IfOk result (λ n. int_in (activation_of self.now) slot ≡ Some n) }
        ensures err { IfErr result (λ e. (e ≡ TraceEnd.NotLinked) × (int_in (activation_of self.now) slot ≡ None)) }
    {
        self.local(slot)?.as_int().ok_or(TraceEnd::NotLinked)
    }

    /// Stores a value in a local.
    fn store(
        &mut self,
        behind: u64,
        slot: u32,
        value: Value,
        effect: Effect,
    ) -> Result<Effect, TraceEnd>
        ensures { Makes (stores (activation_of self.old) behind slot value self.old.stack effect) result (activation_of self.new) }
    {
        if slot as usize >= self.locals.len() {
            return Err(TraceEnd::NotLinked);
        }
        self.locals[slot as usize] = Some(value);
        self.go_on(behind, effect)
    }

    /// Pushes the int of a local.
    fn load_int(&mut self, behind: u64, slot: u32) -> Result<Effect, TraceEnd>
        ensures { Makes (loads_int (activation_of self.old) behind slot) result (activation_of self.new) }
    {
        let value = self.int_local(slot)?;
        self.go_on_with(behind, Value::int(value), Effect::of_int(None, value))
    }

    /// Pushes the reference of a local.
    fn load_reference(&mut self, behind: u64, slot: u32) -> Result<Effect, TraceEnd>
        ensures { Makes (loads_reference (activation_of self.old) behind slot) result (activation_of self.new) }
    {
        let value = self.local(slot)?;
        if !value.is_reference() {
            return Err(TraceEnd::NotLinked);
        }
        self.go_on_with(behind, value, Effect::silent())
    }

    /// Takes an int and stores it in a local.
    fn store_int(&mut self, behind: u64, slot: u32) -> Result<Effect, TraceEnd>
        ensures { Makes (stores_int (activation_of self.old) behind slot) result (activation_of self.new) }
    {
        let value = self.stack.pop_int()?;
        self.store(behind, slot, Value::int(value), Effect::of_int(None, value))
    }

    /// Takes a reference and stores it in a local.
    fn store_reference(&mut self, behind: u64, slot: u32) -> Result<Effect, TraceEnd>
        ensures { Makes (stores_reference (activation_of self.old) behind slot) result (activation_of self.new) }
    {
        let value = self.stack.pop()?;
        if !value.is_reference() {
            return Err(TraceEnd::NotLinked);
        }
        self.store(behind, slot, value, Effect::silent())
    }

    /// Adds to the int of a local.
    fn increment(&mut self, behind: u64, slot: u32, delta: i32) -> Result<Effect, TraceEnd>
        ensures { Makes (increments (activation_of self.old) behind slot delta) result (activation_of self.new) }
    {
        let value = add(self.int_local(slot)?, delta);
        self.store(behind, slot, Value::int(value), Effect::of_int(None, value))
    }

    /// Replaces an int by the result of an operation.
    fn apply_unary(&mut self, behind: u64, operation: Unary) -> Result<Effect, TraceEnd>
        ensures { Makes (applies_unary (activation_of self.old) behind operation) result (activation_of self.new) }
    {
        let value = operation.apply(self.stack.pop_int()?);
        self.go_on_with(behind, Value::int(value), Effect::of_int(None, value))
    }

    /// Replaces two ints by the result of an operation.
    fn apply_binary(&mut self, behind: u64, operation: Binary) -> Result<Effect, TraceEnd>
        ensures { Makes (applies_binary (activation_of self.old) behind operation) result (activation_of self.new) }
    {
        let upper = self.stack.pop_int()?;
        let lower = self.stack.pop_int()?;
        let value = operation.apply(lower, upper);
        self.go_on_with(behind, Value::int(value), Effect::of_int(None, value))
    }

    /// Jumps, where the condition holds.
    fn branch(
        &mut self,
        behind: u64,
        at: u32,
        distance: i16,
        taken: bool,
    ) -> Result<Effect, TraceEnd>
        requires { self.old.pc ≡ at }
        ensures { Makes (branches (activation_of self.old) behind self.old.stack distance taken) result (activation_of self.new) }
    {
        if !taken {
            return self.go_on(behind, Effect::silent());
        }
        let target = target(at, distance).ok_or(TraceEnd::NotLinked)?;
        self.go_on(target, Effect::of_jump(target <= u64::from(at)))
    }

    /// Jumps, where the test is passed.
    fn jump(&mut self, behind: u64, at: u32, test: Test, distance: i16) -> Result<Effect, TraceEnd>
        requires { self.old.pc ≡ at }
        ensures { Makes (jumps (activation_of self.old) behind test distance) result (activation_of self.new) }
    {
        match test {
            Test::Always => self.branch(behind, at, distance, true),
            Test::WithZero(comparison) => {
                let value = self.stack.pop_int()?;
                self.branch(behind, at, distance, comparison.holds(value, 0))
            }
            Test::OfTwo(comparison) => {
                let upper = self.stack.pop_int()?;
                let lower = self.stack.pop_int()?;
                self.branch(behind, at, distance, comparison.holds(lower, upper))
            }
        }
    }

    /// One step inside the frame, by what its instruction does: no read, call or return.
    pub fn execute(&mut self, behind: u64, at: u32, doing: Doing) -> Result<Effect, TraceEnd>
        requires { self.old.pc ≡ at }
        ensures { Makes (change_of doing behind (activation_of self.old)) result (activation_of self.new) }
    {
        match doing {
            Doing::Push(value) => self.go_on_with(
                behind,
                Value::int(value),
                Effect::of_int(None, value),
            ),
            Doing::Put(value) => self.go_on_with(behind, value, Effect::silent()),
            Doing::Lock(monitor) => self.lock(behind, monitor),
            Doing::Unlock(monitor) => self.unlock(behind, monitor),
            Doing::Construct(thread) => self.take_object(behind, thread, Effect::silent()),
            Doing::Start(thread) => self.start(behind, thread),
            Doing::Join(thread) => self.join(behind, thread),
            Doing::ConstructTarget(thread) => self.take_target(behind, thread),
            Doing::Wrap(thread) => self.wrap(behind, thread),
            Doing::Ask { thread, ended } => self.ask(behind, thread, ended),
            Doing::Write(variable) => self.write(behind, variable),
            Doing::Print => self.print(behind),
            Doing::Nothing => self.go_on(behind, Effect::silent()),
            Doing::Discard => self.discard(behind),
            Doing::Double => self.double(behind),
            Doing::Exchange => self.exchange(behind),
            Doing::LoadInt(slot) => self.load_int(behind, slot),
            Doing::LoadReference(slot) => self.load_reference(behind, slot),
            Doing::StoreInt(slot) => self.store_int(behind, slot),
            Doing::StoreReference(slot) => self.store_reference(behind, slot),
            Doing::Increment { slot, delta } => self.increment(behind, slot, delta),
            Doing::Unary(operation) => self.apply_unary(behind, operation),
            Doing::Binary(operation) => self.apply_binary(behind, operation),
            Doing::Jump { test, distance } => self.jump(behind, at, test, distance),
            _ => Err(TraceEnd::NotLinked),
        }
    }
}
