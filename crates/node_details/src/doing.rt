//! What threads do at the nodes of a graph.

ghost use Rattle.std.specs.Prelude.{◌≡◌, ◌+◌, ◌≤◌, IfOk, map};
ghost use Rattle.std.specs.Option.{option_map};
ghost use Rattle.node_details.specs.Actions as spec;
ghost use Rattle.node_details.specs.Frames.{frame_of};

use crate::known::KnownFrame;
use opcodes::Instr;
use ports::Memory;
use program::{Frame, HeldMonitor, Kind, Operand, Program};

/// An action by its kind, and the number of its variable, monitor or thread.
#[derive(Clone, Copy, Debug, PartialEq, Eq)]
pub struct Act {
    pub kind: Kind,
    pub operand: Option<u32>,
}

/// An action on what has this number.
fn acts_on(kind: Kind, number: u32) -> Act
    ensures { result ≡ spec.acts_on kind number }
{
    Act {
        kind,
        operand: Some(number),
    }
}

/// An action on what has this number, if there is one.
fn acts_on_any(kind: Kind, number: Option<u32>) -> Option<Act>
    ensures { result ≡ option_map (spec.acts_on kind) number }
{
    match number {
        Some(number) => Some(acts_on(kind, number)),
        None => None,
    }
}

/// The access of an instruction to a variable.
fn access(program: &Program, number: u32, instr: &Instr) -> Option<Act>
    ensures { result ≡ spec.access program.now number instr.now }
{
    let volatile = program.variables().get(number as usize)?.volatile;
    match (instr, volatile) {
        (Instr::Getstatic { .. }, false) => Some(acts_on(Kind::Read, number)),
        (Instr::Getstatic { .. }, true) => Some(acts_on(Kind::VolatileRead, number)),
        (Instr::Putstatic { .. }, false) => Some(acts_on(Kind::Write, number)),
        (Instr::Putstatic { .. }, true) => Some(acts_on(Kind::VolatileWrite, number)),
        _ => None,
    }
}

/// What an instruction does to a monitor.
fn entering(monitor: u32, instr: &Instr) -> Option<Act>
    ensures { result ≡ spec.entering monitor instr.now }
{
    match instr {
        Instr::Monitorenter => Some(acts_on(Kind::Lock, monitor)),
        Instr::Monitorexit => Some(acts_on(Kind::Unlock, monitor)),
        _ => None,
    }
}

/// The monitor of a method with this frame.
fn monitor_of(called: Option<Frame>) -> Option<u32>
    ensures { result ≡ spec.monitor_of called }
{
    match called {
        Some(frame) => frame.monitor,
        None => None,
    }
}

/// What the return of a method does.
fn leaving(is_called: bool, monitor: Option<u32>, instr: &Instr) -> Option<Act>
    ensures { result ≡ spec.leaving is_called monitor instr.now }
{
    match instr {
        Instr::Return | Instr::Ireturn if is_called => acts_on_any(Kind::Unlock, monitor),
        _ => None,
    }
}

/// What asking for a thread does.
fn asking(thread: u32, alive: bool) -> Option<Act>
    ensures { result ≡ spec.asking thread alive }
{
    if alive {
        None
    } else {
        Some(acts_on(Kind::Detect, thread))
    }
}

/// What the instruction of a frame does, which stands within others or not, and finds a thread alive or not.
pub fn act_of(program: &Program, frame: &KnownFrame, is_called: bool, alive: bool) -> Option<Act>
    ensures { result ≡ spec.act_of program.now (frame_of frame.now) is_called alive }
{
    match frame.names {
        Operand::Variable(number) => access(program, number, &frame.instr),
        Operand::Monitor(monitor) => entering(monitor, &frame.instr),
        Operand::Method(_) => acts_on_any(Kind::Lock, monitor_of(frame.called)),
        Operand::Start(thread) => Some(acts_on(Kind::Start, thread)),
        Operand::Join(thread) => Some(acts_on(Kind::Detect, thread)),
        Operand::Alive(thread) => asking(thread, alive),
        Operand::Print => Some(Act {
            kind: Kind::Print,
            operand: None,
        }),
        Operand::Nothing => leaving(is_called, frame.frame.monitor, &frame.instr),
        Operand::Constant(_)
        | Operand::Make(_)
        | Operand::Target(_)
        | Operand::Wrap(_)
        | Operand::Out => None,
    }
}

/// The sum of two numbers; one past 2^32 counts as want of memory.
fn sum(a: u32, b: u32) -> Result<u32, Memory>
    ensures { IfOk result (λ both. both ≡ a + b) }
{
    match a.checked_add(b) {
        Some(both) => Ok(both),
        None => Err(Memory),
    }
}

/// How often a frame has entered a monitor and not left it again.
fn entered(monitor: u32, held: &[HeldMonitor]) -> Result<u32, Memory>
    ensures { IfOk result (λ times. times ≡ spec.entered monitor held.now) }
{
    let mut times = 0;
    for one in held {
        times = sum(times, if one.monitor == monitor { one.count } else { 0 })?;
    }
    Ok(times)
}

/// How often the method of a frame that is called holds a monitor.
fn own_lock(monitor: u32, own: Option<u32>) -> u32
    ensures value { result ≡ spec.own_lock monitor own }
    ensures few { result ≤ 1 }
{
    if own == Some(monitor) { 1 } else { 0 }
}

/// How often these frames, which are called, hold a monitor.
fn held_within(monitor: u32, frames: &[KnownFrame]) -> Result<u32, Memory>
    ensures { IfOk result (λ times. times ≡ spec.held_within monitor (map frame_of frames.now)) }
{
    let mut times = 0;
    for frame in frames {
        let own = sum(
            entered(monitor, frame.state.held.as_slice())?,
            own_lock(monitor, frame.frame.monitor),
        )?;
        times = sum(times, own)?;
    }
    Ok(times)
}

/// How often the frames of a thread hold a monitor, of which the outermost comes first.
fn times_held(monitor: u32, frames: &[KnownFrame]) -> Result<u32, Memory>
    ensures { IfOk result (λ times. times ≡ spec.times_held monitor (map frame_of frames.now)) }
{
    let Some((outermost, within)) = frames.split_first() else {
        return Ok(0);
    };
    sum(
        entered(monitor, outermost.state.held.as_slice())?,
        held_within(monitor, within)?,
    )
}

/// Whether an action is a lock of a monitor that these frames don't hold, or an unlock of one that they hold once.
///
/// # Errors
/// `Memory` where a monitor is held 2^32 times.
pub fn is_outermost(frames: &[KnownFrame], act: Act) -> Result<bool, Memory>
    ensures { IfOk result (λ is. is ≡ spec.is_outermost (map frame_of frames.now) act) }
{
    match (act.kind, act.operand) {
        (Kind::Lock, Some(monitor)) => Ok(times_held(monitor, frames)? == 0),
        (Kind::Unlock, Some(monitor)) => Ok(times_held(monitor, frames)? == 1),
        _ => Ok(false),
    }
}
