//! The steps of a thread.

ghost use Rattle.std.specs.Prelude.{◌≡◌, ◌≢◌, ◌+◌, [], IfOk, IfErr};
ghost use Rattle.std.specs.Option.{option_map};
ghost use Rattle.opcodes.specs.Instructions.{length_of};
ghost use Rattle.thread_meaning.specs.Changes.{activation_of};
ghost use Rattle.thread_meaning.specs.Doings.{doing_of};
ghost use Rattle.thread_meaning.specs.Tracing.{has_ended};
ghost use Rattle.thread_meaning.specs.Outcomes.{Acts, Steps, StaysInside, GoesOnBehind, CannotGoOn, IsEntered, CannotEnter};

use crate::code::{Here, look, method_of};
use crate::decoding::what_it_does;
use crate::doing::Doing;
use crate::effect::Effect;
use crate::end::TraceEnd;
use crate::frame::Frame;
use crate::frames::Frames;
use crate::stack::Stack;
use crate::value::Value;
use program::{Event, Method, MethodId, Program};
use std::alloc::Global;

/// The event that unlocks the monitor of a synchronized method.
fn unlocks(monitor: Option<u32>) -> Option<Event>
    ensures { result ≡ option_map Event.Unlock monitor }
{
    match monitor {
        Some(monitor) => Some(Event::Unlock { monitor }),
        None => None,
    }
}

/// The event that locks the monitor of a synchronized method.
fn locks(monitor: Option<u32>) -> Option<Event>
    ensures { result ≡ option_map Event.Lock monitor }
{
    match monitor {
        Some(monitor) => Some(Event::Lock { monitor }),
        None => None,
    }
}

/// The frame of a method that is called from another, whose stack has its arguments.
fn enter(alloc: Global, called: &Method, caller: &mut Frame) -> Result<Frame, TraceEnd>
    ensures ok { IfOk result (IsEntered called.now caller.old caller.new) }
    ensures err { IfErr result (CannotEnter called.now caller.old) }
{
    let count = called.frame.parameters;
    let mut locals = caller.stack.pop_arguments(alloc, count)?;
    let empty = called.frame.max_locals.saturating_sub(count) as usize;
    let others = vec![in alloc; None; empty].map_err(|_| TraceEnd::Memory)?;
    locals
        .extend_from_slice(&others)
        .map_err(|_| TraceEnd::Memory)?;
    Ok(Frame {
        method: called.id,
        pc: 0,
        locals,
        stack: Stack::new(alloc),
    })
}

impl Frames {
    ghost use Rattle.std.specs.Prelude.{ℕ, ℤ, Option};
    ghost use Rattle.program.specs.Program.{Prog};

    /// A step inside the innermost frame.
    fn inside(
        &mut self,
        mut top: Frame,
        behind: u64,
        at: u32,
        doing: Doing,
    ) -> Result<Effect, TraceEnd>
        requires place { top.pc ≡ at }
        requires stays { StaysInside doing }
        ensures { (p : Prog) (monitor : Option ℕ) (read : Option ℤ) → Acts p monitor doing behind (activation_of top) self.old read result self.new }
    {
        let effect = top.execute(behind, at, doing)?;
        self.push(top)?;
        Ok(effect)
    }

    /// A read of a variable, which gives this value.
    fn read(
        &mut self,
        mut top: Frame,
        behind: u64,
        variable: u32,
        read: Option<i32>,
    ) -> Result<Effect, TraceEnd>
        ensures { (p : Prog) (monitor : Option ℕ) → Acts p monitor (Doing.Read variable) behind (activation_of top) self.old read result self.new }
    {
        let Some(value) = read else {
            return Err(TraceEnd::ReadsShort);
        };
        top.stack.push(Value::int(value))?;
        top.pc = behind;
        self.push(top)?;
        Ok(Effect::of_int(Some(Event::Read { variable, value }), value))
    }

    /// A call of a static method.
    fn call(
        &mut self,
        alloc: Global,
        program: &Program,
        mut top: Frame,
        id: MethodId,
    ) -> Result<Effect, TraceEnd>
        ensures { (monitor : Option ℕ) (behind : ℕ) (read : Option ℤ) → Acts program.now monitor (Doing.Call id) behind (activation_of top) self.old read result self.new }
    {
        if top.method == id {
            return Err(TraceEnd::NotLinked);
        }
        if self.is_running(id) {
            return Err(TraceEnd::NotLinked);
        }
        let called = method_of(program, id)?;
        let frame = enter(alloc, called, &mut top)?;
        self.push(top)?;
        self.push(frame)?;
        Ok(Effect::of_event(locks(called.frame.monitor)))
    }

    /// The innermost frame, gone on behind its call.
    fn behind_call(&mut self, program: &Program) -> Result<Frame, TraceEnd>
        ensures ok { IfOk result (λ frame. GoesOnBehind program.now self.old (activation_of frame) self.new) }
        ensures err { IfErr result (λ e. (e ≡ TraceEnd.NotLinked) × CannotGoOn program.now self.old) }
    {
        let Some(mut caller) = self.pop() else {
            return Err(TraceEnd::NotLinked);
        };
        let call = look(program, caller.method, caller.pc)?;
        caller.pc = u64::from(call.pc) + u64::from(call.instr.length());
        Ok(caller)
    }

    /// A return without a result, from a method with this monitor.
    fn return_nothing(
        &mut self,
        program: &Program,
        top: Frame,
        monitor: Option<u32>,
    ) -> Result<Effect, TraceEnd>
        ensures { (behind : ℕ) (read : Option ℤ) → Acts program.now monitor Doing.Return behind (activation_of top) self.old read result self.new }
    {
        if self.is_empty() {
            return Ok(Effect::silent());
        }
        let caller = self.behind_call(program)?;
        self.push(caller)?;
        Ok(Effect::of_event(unlocks(monitor)))
    }

    /// A return of an int, from a method with this monitor.
    fn return_int(
        &mut self,
        program: &Program,
        mut top: Frame,
        monitor: Option<u32>,
    ) -> Result<Effect, TraceEnd>
        ensures { (behind : ℕ) (read : Option ℤ) → Acts program.now monitor Doing.ReturnInt behind (activation_of top) self.old read result self.new }
    {
        let value = top.stack.pop_int()?;
        let mut caller = self.behind_call(program)?;
        caller.stack.push(Value::int(value))?;
        self.push(caller)?;
        Ok(Effect::of_int(unlocks(monitor), value))
    }

    /// The step by the instruction at which the innermost frame stands.
    fn act(
        &mut self,
        alloc: Global,
        program: &Program,
        top: Frame,
        here: Here,
        ended: u8,
        read: Option<i32>,
    ) -> Result<Effect, TraceEnd>
        requires { top.pc ≡ here.pc }
        ensures { Acts program.now here.frame.monitor (doing_of (has_ended ended) here.instr here.names) (here.pc + length_of here.instr) (activation_of top) self.old read result self.new }
    {
        let behind = u64::from(here.pc) + u64::from(here.instr.length());
        match what_it_does(ended, &here.instr, &here.names) {
            Doing::Read(variable) => self.read(top, behind, variable, read),
            Doing::Call(id) => self.call(alloc, program, top, id),
            Doing::Return => self.return_nothing(program, top, here.frame.monitor),
            Doing::ReturnInt => self.return_int(program, top, here.frame.monitor),
            doing => self.inside(top, behind, here.pc, doing),
        }
    }

    /// The next step, where `isAlive` finds these threads ended, and which gets this value if it is a read.
    pub fn step(
        &mut self,
        alloc: Global,
        program: &Program,
        ended: u8,
        read: Option<i32>,
    ) -> Result<Effect, TraceEnd>
        requires { self.old ≢ [] }
        ensures { Steps program.now (has_ended ended) self.old read result self.new }
    {
        let Some(top) = self.pop() else {
            unreachable!();
        };
        let here = look(program, top.method, top.pc)?;
        self.act(alloc, program, top, here, ended, read)
    }
}
