//! What is known of the nodes of a graph.

ghost use Rattle.std.specs.Prelude.{◌≡◌, ◌<◌, ◌+◌, ◌++◌, [], ◌∷◌, Contains, IfOk, IfSome, Some, length, map, pos};
ghost use Rattle.node_details.specs.Frames.{AreThere, frame_of};
ghost use Rattle.node_details.specs.Nodes.{IsDetailsOf, IsStandingIn, MayBeNode, bare_action};
ghost use Rattle.node_details.specs.Nodes as spec;
ghost use Rattle.node_details.specs.Slots.{sizes_of};

use crate::doing::{Act, act_of, is_outermost};
use crate::known::{KnownFrame, known_frames};
use crate::slots::{int_slots, slots_below, top_of};
use code_paths::CodePlace;
use opcodes::Instr;
use ports::Memory;
use program::{Items, Kind, Operand, Program};
use spots::{Position, Spot, Standing};
use std::alloc::Global;

/// The instruction before which a node stands, by its place in the code of a method: what it names, the int that it pushes
/// where it says that itself, how many parameters its method has, the first slot of its frame, the first slot above the stack,
/// and the slots of all ints, the outermost frame's first.
#[derive(Debug, Drop)]
pub struct NodeInstruction {
    pub place: CodePlace,
    pub instr: Instr,
    pub names: Operand,
    pub constant: Option<i32>,
    pub parameters: u32,
    pub base: u32,
    pub top: u32,
    pub int_slots: Items<u32>,
}

/// The action of a node, and whether it locks a monitor that its thread doesn't hold, or unlocks one that it holds once.
#[derive(Clone, Copy, Debug, PartialEq, Eq)]
pub struct NodeAction {
    pub act: Act,
    pub outermost: bool,
}

/// What is known of a node: its instruction, if it is neither beginning nor end of its thread, and its action, if it has one.
#[derive(Debug, Drop)]
pub struct NodeDetails {
    pub instruction: Option<NodeInstruction>,
    pub action: Option<NodeAction>,
}

/// The int that an instruction with this name pushes, if it is one that it says itself: a constant, or an answer.
fn constant_of(answer: bool, names: Operand) -> Option<i32>
    ensures { result ≡ spec.constant_of answer names }
{
    match names {
        Operand::Constant(n) => Some(n),
        Operand::Alive(_) if answer => Some(1),
        Operand::Alive(_) => Some(0),
        _ => None,
    }
}

/// The action of a thread that begins, or ends.
fn bare_action(kind: Kind) -> Option<NodeAction>
    ensures { result ≡ Some (spec.bare_action kind) }
{
    let act = Act {
        kind,
        operand: None,
    };
    Some(NodeAction {
        act,
        outermost: false,
    })
}

/// The action of a thread with these frames.
fn action_in(frames: &[KnownFrame], act: Option<Act>) -> Result<Option<NodeAction>, Memory>
    ensures { IfOk result (λ action. action ≡ spec.action_in (map frame_of frames.now) act) }
{
    let Some(act) = act else {
        return Ok(None);
    };
    Ok(Some(NodeAction {
        act,
        outermost: is_outermost(frames, act)?,
    }))
}

/// Whether there are frames.
fn are_some(frames: &[KnownFrame]) -> bool
    ensures { result ≡ spec.are_some (map frame_of frames.now) }
{
    frames.first().is_some()
}

/// What is known of a node before an instruction.
fn standing(alloc: Global, program: &Program, stand: &Standing) -> Result<NodeDetails, Memory>
    requires there { AreThere program.now stand.now.places }
    requires some { 0 < length stand.now.places }
    ensures { IfOk result (IsStandingIn program.now stand.now) }
{
    let chain = stand.places.as_slice();
    let frames = known_frames(alloc, program, chain)?;
    let Some((place, _)) = chain.split_last() else {
        unreachable!();
    };
    let Some((innermost, outer)) = frames.as_slice().split_last() else {
        unreachable!();
    };
    let base = slots_below(outer)?;
    let act = act_of(program, innermost, are_some(outer), stand.answer);
    let instruction = NodeInstruction {
        place: *place,
        instr: innermost.instr,
        names: innermost.names,
        constant: constant_of(stand.answer, innermost.names),
        parameters: innermost.frame.parameters,
        base,
        top: top_of(base, innermost)?,
        int_slots: Items::of(int_slots(alloc, frames.as_slice())?),
    };
    Ok(NodeDetails {
        instruction: Some(instruction),
        action: action_in(frames.as_slice(), act)?,
    })
}

/// What is known of a spot, each place of which stands at a typed instruction of the program, as those of nodes do.
///
/// # Errors
/// `Memory` where there is no room for it, or a number is past 2^32.
pub fn details_of(alloc: Global, program: &Program, spot: &Spot) -> Result<NodeDetails, Memory>
    requires { MayBeNode program.now spot.now }
    ensures { IfOk result (IsDetailsOf program.now spot.now) }
{
    match &spot.position {
        Position::Begin => Ok(NodeDetails {
            instruction: None,
            action: bare_action(Kind::First),
        }),
        Position::At(stand) => standing(alloc, program, stand),
        Position::End => Ok(NodeDetails {
            instruction: None,
            action: bare_action(Kind::Last),
        }),
    }
}
