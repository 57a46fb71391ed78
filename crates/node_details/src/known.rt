//! What is known of the frames of a thread before an instruction.

ghost use Rattle.std.specs.Prelude.{◌≡◌, Contains, IfOk, map};
ghost use Rattle.code_paths.specs.Hops.{place_of};
ghost use Rattle.node_details.specs.Frames.{AreKnown, AreThere, IsCalledFrame, IsCalledThere, IsKnown, IsThere, frame_of};

use code_paths::CodePlace;
use opcodes::Instr;
use ports::Memory;
use program::{Frame, Operand, Program, TypedState};
use std::alloc::Global;
use thread_meaning::look;

/// A frame of a thread: that of its method, the instruction where it stands, what that names, the frame of the method that it
/// calls, if it calls one, and what is known before it.
#[derive(Clone, Copy, Debug)]
pub struct KnownFrame<'a> {
    pub frame: Frame,
    pub instr: Instr,
    pub names: Operand,
    pub called: Option<Frame>,
    pub state: &'a TypedState,
}

/// The frame of the method that an instruction calls, if it calls one.
fn called_frame(program: &Program, names: Operand) -> Option<Frame>
    requires { IsCalledThere program.now names }
    ensures { IsCalledFrame program.now names result }
{
    match names {
        Operand::Method(called) => Some(program.frame(called)),
        _ => None,
    }
}

/// What is known at a place.
fn known_at<'a>(program: &'a Program, at: CodePlace) -> KnownFrame<'a>
    requires { IsThere program.now at }
    ensures { IsKnown program.now at (frame_of result) }
{
    let Ok(here) = look(program, at.method, at.pc) else {
        unreachable!();
    };
    KnownFrame {
        frame: here.frame,
        instr: here.instr,
        names: here.names,
        called: called_frame(program, here.names),
        state: program.typed(at.method, here.pc),
    }
}

/// What is known at each place of a chain: of calls that wait, the outermost first, and of the instruction that comes next.
///
/// # Errors
/// `Memory` where there is no room for it.
pub fn known_frames<'a>(
    alloc: Global,
    program: &'a Program,
    chain: &[CodePlace],
) -> Result<Vec<KnownFrame<'a>>, Memory>
    requires { AreThere program.now chain.now }
    ensures { IfOk result (λ frames. AreKnown program.now chain.now (map frame_of frames.items)) }
{
    let mut frames = Vec::with_capacity(alloc, chain.len()).map_err(|_| Memory)?;
    for at in chain {
        frames.push(known_at(program, *at)).map_err(|_| Memory)?;
    }
    Ok(frames)
}
