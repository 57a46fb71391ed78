//! The circuits of shifts: the gates behind each stage.

ghost use Rattle.std.specs.Prelude.{◌≡◌, ◌<◌, ◌^◌};
ghost use Rattle.circuits.specs.Shifts as spec;

use crate::gate::{Gate, Input, Pair, Triple};
use crate::inputs::{inner, lower, not_upper, upper};

/// How far a stage moves.
fn distance(stage: u32) -> u32
    requires { stage < 5 }
    ensures { result ≡ 2 ^ stage }
{
    match stage {
        0 => 1,
        1 => 2,
        2 => 4,
        3 => 8,
        _ => 16,
    }
}

/// A bit before a stage.
fn before_stage(stage: u32, bit: u32) -> Input
    requires stage { stage < 5 }
    requires bit { bit < 32 }
    ensures { result ≡ spec.before_stage stage bit }
{
    if stage == 0 {
        return lower(bit);
    }
    inner(32 * (stage - 1) + bit)
}

/// What comes to a place where a stage moves a bit there, or keeps its own.
fn moved(stage: u32, far: u32, bit: u32) -> Gate
    requires stage { stage < 5 }
    requires far { far < 32 }
    requires bit { bit < 32 }
    ensures { result ≡ spec.moved stage far bit }
{
    Gate::Three(
        Triple::Choice,
        upper(stage),
        before_stage(stage, far),
        before_stage(stage, bit),
    )
}

/// What comes to a place where nothing is moved there.
fn vacated(stage: u32, bit: u32) -> Gate
    requires stage { stage < 5 }
    requires bit { bit < 32 }
    ensures { result ≡ spec.vacated stage bit }
{
    Gate::Two(Pair::And, not_upper(stage), before_stage(stage, bit))
}

fn shl_stage(stage: u32, bit: u32) -> Gate
    requires stage { stage < 5 }
    requires bit { bit < 32 }
    ensures { result ≡ spec.shl_stage stage bit }
{
    let distance = distance(stage);
    if bit < distance {
        return vacated(stage, bit);
    }
    moved(stage, bit - distance, bit)
}

fn ushr_stage(stage: u32, bit: u32) -> Gate
    requires stage { stage < 5 }
    requires bit { bit < 32 }
    ensures { result ≡ spec.ushr_stage stage bit }
{
    let far = bit + distance(stage);
    if 31 < far {
        return vacated(stage, bit);
    }
    moved(stage, far, bit)
}

fn shr_stage(stage: u32, bit: u32) -> Gate
    requires stage { stage < 5 }
    requires bit { bit < 32 }
    ensures { result ≡ spec.shr_stage stage bit }
{
    if bit == 31 {
        return Gate::Same(before_stage(stage, 31));
    }
    let far = (bit + distance(stage)).min(31);
    moved(stage, far, bit)
}

/// The gate of an inner bit of a shift to the left.
pub fn shl_inner(j: u32) -> Gate
    requires { j < 160 }
    ensures { result ≡ spec.shl_inner j }
{
    shl_stage(j / 32, j % 32)
}

/// That of an unsigned shift to the right.
pub fn ushr_inner(j: u32) -> Gate
    requires { j < 160 }
    ensures { result ≡ spec.ushr_inner j }
{
    ushr_stage(j / 32, j % 32)
}

/// That of a shift to the right.
pub fn shr_inner(j: u32) -> Gate
    requires { j < 160 }
    ensures { result ≡ spec.shr_inner j }
{
    shr_stage(j / 32, j % 32)
}

/// A bit of what is shifted.
pub fn shift_result(bit: u32) -> Gate
    requires { bit < 32 }
    ensures { result ≡ spec.shift_result bit }
{
    Gate::Same(inner(128 + bit))
}
