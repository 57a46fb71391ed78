//! The walk along the run of a thread.

ghost use Rattle.std.specs.Prelude.{◌≡◌, ◌≢◌, ◌<◌, ◌≤◌, ◌+◌, [], length, slice_get, if◌then◌else◌, IsTrue, IfOk, IfErr, OnOk};
ghost use Rattle.line_text.specs.Bounds.{IsBounds};
ghost use Rattle.program.specs.Step.{entered_with, parameters_of};
ghost use Rattle.thread_meaning.specs.Changes.{activation_of};
ghost use Rattle.thread_meaning.specs.Tracing.{Starts, CannotStart, Noted, Advances, Stops, Finishes, Ends, has_ended};

use crate::code::method_of;
use crate::effect::Effect;
use crate::end::TraceEnd;
use crate::events::Events;
use crate::frame::Frame;
use crate::frames::Frames;
use crate::stack::Stack;
use crate::value::Value;
use line_text::Values;
use line_text::bounds::Bounds;
use program::{Event, Method, Program};
use std::alloc::Global;

/// The events of a thread's run, and the values that it prints.
#[derive(Debug, Drop)]
pub struct Trace {
    pub events: Events,
    pub printed: Values,
}

/// Where the run stands: its frames, its events and printed values so far, how many reads are used, and how many backward
/// jumps are left.
#[derive(Debug, Drop)]
pub struct Walk {
    pub frames: Frames,
    pub events: Events,
    pub printed: Values,
    pub used: usize,
    pub jumps: u32,
}

/// The frame of the method that a thread runs. Main has its argument, a `run()V` its object.
fn first_frame(alloc: Global, method: &Method, thread: u32) -> Result<Frame, TraceEnd>
    ensures ok { IfOk result (λ frame. activation_of frame ≡ entered_with method.now (parameters_of thread)) }
    ensures err { IfErr result (λ e. e ≡ TraceEnd.Memory) }
{
    let value = if thread == 0 {
        Value::args()
    } else {
        Value::this()
    };
    let mut locals = vec![in alloc; Some(value); 1].map_err(|_| TraceEnd::Memory)?;
    let empty = method.frame.max_locals.saturating_sub(1) as usize;
    let others = vec![in alloc; None; empty].map_err(|_| TraceEnd::Memory)?;
    locals
        .extend_from_slice(&others)
        .map_err(|_| TraceEnd::Memory)?;
    Ok(Frame {
        method: method.id,
        pc: 0,
        locals,
        stack: Stack::new(alloc),
    })
}

/// The walk before the first step.
pub fn begin(
    alloc: Global,
    program: &Program,
    thread: u32,
    bounds: &Bounds,
) -> Result<Walk, TraceEnd>
    requires { thread < length program.now.threads }
    ensures ok { IfOk result (Starts program.now thread bounds.now) }
    ensures err { IfErr result (CannotStart program.now thread) }
{
    let method = method_of(program, program.entry(thread))?;
    let mut frames = Frames::new(alloc);
    frames.push(first_frame(alloc, method, thread)?)?;
    let mut events = Events::new(alloc);
    events.push(Event::First).map_err(|_| TraceEnd::Memory)?;
    Ok(Walk {
        frames,
        events,
        printed: Values::new(alloc),
        used: 0,
        jumps: bounds.jumps,
    })
}

/// The value for the next read, if one is left.
fn next_read(reads: &[i32], used: usize) -> Option<i32>
    ensures { result ≡ slice_get reads.now used }
{
    reads.get(used).copied()
}

/// How many backward jumps are left behind a step.
fn jumps_behind(jumps: u32, backward: bool) -> Result<u32, TraceEnd>
    ensures ok { IfOk result (λ left. left + (if backward then 1 else 0) ≡ jumps) }
    ensures err { IfErr result (λ e. (e ≡ TraceEnd.PastJumps) × IsTrue backward × (jumps ≡ 0)) }
{
    if !backward {
        return Ok(jumps);
    }
    if jumps == 0 {
        return Err(TraceEnd::PastJumps);
    }
    Ok(jumps - 1)
}

impl Walk {
    /// Notes what a step did.
    fn note(&mut self, effect: &Effect) -> Result<(), TraceEnd>
        requires { self.old.used < usize.MAX }
        ensures ok { OnOk result (Noted effect.now self.old self.new) }
        ensures err { IfErr result (λ e. e ≡ TraceEnd.Memory) }
    {
        let Some(event) = effect.event() else {
            return Ok(());
        };
        match event {
            Event::Read { .. } => self.used += 1,
            Event::Print { value } => self.printed.push(value).map_err(|_| TraceEnd::Memory)?,
            _ => {}
        }
        self.events.push(event).map_err(|_| TraceEnd::Memory)
    }

    /// Goes one step further.
    pub fn advance(
        &mut self,
        alloc: Global,
        program: &Program,
        reads: &[i32],
        ended: u8,
        bounds: &Bounds,
    ) -> Result<(), TraceEnd>
        requires under_way { self.old.frames ≢ [] }
        requires used { self.old.used ≤ length reads.now }
        requires bounds { IsBounds bounds.now }
        ensures ok { OnOk result (Advances program.now (has_ended ended) reads.now bounds.now self.old self.new) }
        ensures err { IfErr result (Stops program.now (has_ended ended) reads.now bounds.now self.old) }
    {
        let read = next_read(reads, self.used);
        let effect = self.frames.step(alloc, program, ended, read)?;
        if !effect.fits(bounds.width) {
            return Err(TraceEnd::PastWidth);
        }
        self.jumps = jumps_behind(self.jumps, effect.is_backward())?;
        self.note(&effect)
    }

    /// The trace behind the last step.
    pub fn finish(self, given: usize) -> Result<Trace, TraceEnd>
        ensures ok { IfOk result (Finishes given self) }
        ensures err { IfErr result (Ends given self) }
    {
        let Walk {
            frames: _,
            mut events,
            printed,
            used,
            jumps: _,
        } = self;
        if used < given {
            return Err(TraceEnd::ReadsLeft {
                count: (given - used) as u64,
            });
        }
        events.push(Event::Last).map_err(|_| TraceEnd::Memory)?;
        Ok(Trace { events, printed })
    }
}
