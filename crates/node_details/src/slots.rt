//! Slots: the locals and the places of the stack of all frames of a thread, numbered one after the other.

ghost use Rattle.std.specs.Prelude.{◌≡◌, ◌+◌, ◌-◌, ◌++◌, ◌≤◌, IfOk, OnOk, length, map, take};
ghost use Rattle.node_details.specs.Frames.{frame_of};
ghost use Rattle.node_details.specs.Slots.{frame_slots, int_at, int_slots_of, local_slots, size_of, sizes_of, stack_slots};
ghost use Rattle.node_details.specs.Slots as spec;

use crate::known::KnownFrame;
use ports::Memory;
use program::{Frame, TypedLocal, ValueType};
use std::alloc::Global;

/// The number that lies so far above another one; a number past 2^32 counts as want of memory.
fn above(base: u32, distance: u32) -> Result<u32, Memory>
    ensures { IfOk result (λ slot. slot ≡ base + distance) }
{
    match base.checked_add(distance) {
        Some(slot) => Ok(slot),
        None => Err(Memory),
    }
}

/// Adds a slot, if it is that of an int.
fn add_int(slots: &mut Vec<u32>, holds: ValueType, slot: u32) -> Result<(), Memory>
    ensures { OnOk result (slots.new.items ≡ slots.old.items ++ int_at holds slot) }
{
    if holds == ValueType::Int {
        slots.push(slot).map_err(|_| Memory)?;
    }
    Ok(())
}

/// Adds the slots of the ints among the locals of a frame.
fn add_locals(slots: &mut Vec<u32>, base: u32, locals: &[TypedLocal]) -> Result<(), Memory>
    ensures { OnOk result (slots.new.items ≡ slots.old.items ++ local_slots base locals.now) }
{
    for local in locals {
        add_int(slots, local.holds, above(base, local.slot)?)?;
    }
    Ok(())
}

/// Adds the slots of the ints on a stack whose lowest place has this slot.
fn add_stack(slots: &mut Vec<u32>, base: u32, types: &[ValueType]) -> Result<(), Memory>
    ensures { OnOk result (slots.new.items ≡ slots.old.items ++ stack_slots base types.now) }
{
    let mut slot = base;
    for holds in types {
        add_int(slots, *holds, slot)?;
        slot = above(slot, 1)?;
    }
    Ok(())
}

/// How many arguments a call of a method with this frame takes.
fn arguments(called: Option<Frame>) -> usize
    ensures { result ≡ spec.arguments_of called }
{
    match called {
        Some(frame) => frame.parameters as usize,
        None => 0,
    }
}

/// How many places of a frame's stack count, where others stand further in.
fn kept_places(frame: &KnownFrame, within: &[KnownFrame]) -> usize
    ensures value { result ≡ spec.kept_places (frame_of frame.now) (map frame_of within.now) }
    ensures few { result ≤ length frame.now.state.now.stack }
{
    let height = frame.state.stack.len();
    if within.is_empty() {
        height
    } else {
        height.saturating_sub(arguments(frame.called))
    }
}

/// Adds the slots of the ints of a frame, of whose stack only so many of the lowest places count.
fn add_frame(slots: &mut Vec<u32>, base: u32, frame: &KnownFrame, kept: usize) -> Result<(), Memory>
    requires { kept ≤ length frame.now.state.now.stack }
    ensures { OnOk result (slots.new.items ≡ slots.old.items ++ frame_slots base (frame_of frame.now) kept) }
{
    add_locals(slots, base, frame.state.locals.as_slice())?;
    let stack = above(base, frame.frame.max_locals)?;
    add_stack(slots, stack, &frame.state.stack.as_slice()[..kept])
}

/// The first slot behind a frame.
fn behind(base: u32, frame: &KnownFrame) -> Result<u32, Memory>
    ensures { IfOk result (λ slot. slot ≡ base + size_of (frame_of frame.now)) }
{
    above(above(base, frame.frame.max_locals)?, frame.frame.max_stack)
}

/// The slots of all ints of these frames, the outermost of which comes first.
///
/// # Errors
/// `Memory` where there is no room for them, or a slot is past 2^32.
pub fn int_slots(alloc: Global, frames: &[KnownFrame]) -> Result<Vec<u32>, Memory>
    ensures { IfOk result (λ slots. slots.items ≡ int_slots_of 0 (map frame_of frames.now)) }
{
    let mut slots = Vec::new(alloc);
    let mut base = 0;
    for (place, frame) in frames.iter().enumerate() {
        let kept = kept_places(frame, &frames[place + 1..]);
        add_frame(&mut slots, base, frame, kept)?;
        base = behind(base, frame)?;
    }
    Ok(slots)
}

/// How many slots these frames have.
///
/// # Errors
/// `Memory` where there are 2^32 or more.
pub fn slots_below(frames: &[KnownFrame]) -> Result<u32, Memory>
    ensures { IfOk result (λ slots. slots ≡ sizes_of (map frame_of frames.now)) }
{
    let mut base = 0;
    for frame in frames {
        base = behind(base, frame)?;
    }
    Ok(base)
}

/// The first slot above the stack of a frame whose locals begin at this slot.
///
/// # Errors
/// `Memory` where it is past 2^32.
pub fn top_of(base: u32, frame: &KnownFrame) -> Result<u32, Memory>
    ensures { IfOk result (λ slot. slot ≡ base + frame.now.frame.max_locals + length frame.now.state.now.stack) }
{
    let Ok(height) = u32::try_from(frame.state.stack.len()) else {
        return Err(Memory);
    };
    above(above(base, frame.frame.max_locals)?, height)
}
