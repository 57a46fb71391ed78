//! The circuits of conditional jumps.

ghost use Rattle.std.specs.Prelude.{◌≡◌};
ghost use Rattle.circuits.specs.Tests as spec;

use crate::gate::{Gate, Pair, Triple, Wire};
use crate::inputs::{inner, lower, negated, not_upper, upper};

/// Whether the bits below a place are 0.
pub fn zero_inner(j: u32) -> Gate
    ensures { result ≡ spec.zero_inner j }
{
    if j == 0 {
        return Gate::Constant(true);
    }
    Gate::Two(Pair::And, inner(j - 1), not_upper(j - 1))
}

/// The same, and at last whether the int is above 0.
pub fn above_zero_inner(j: u32) -> Gate
    ensures { result ≡ spec.above_zero_inner j }
{
    if j == 33 {
        return Gate::Two(Pair::And, not_upper(31), negated(Wire::InnerBit(32)));
    }
    zero_inner(j)
}

/// Whether the bits below a place are equal.
pub fn equal_inner(j: u32) -> Gate
    ensures { result ≡ spec.equal_inner j }
{
    if j == 0 {
        return Gate::Constant(true);
    }
    let bit = j - 1;
    Gate::Three(Triple::StillEqual, inner(bit), lower(bit), upper(bit))
}

/// Whether the bits below a place are less in the lower operand.
pub fn below_inner(j: u32) -> Gate
    ensures { result ≡ spec.below_inner j }
{
    if j == 0 {
        return Gate::Constant(false);
    }
    let bit = j - 1;
    if bit == 31 {
        return Gate::Three(Triple::Less, upper(31), lower(31), inner(31));
    }
    Gate::Three(Triple::Less, lower(bit), upper(bit), inner(bit))
}

/// Whether the bits below a place are less in the upper operand.
pub fn above_inner(j: u32) -> Gate
    ensures { result ≡ spec.above_inner j }
{
    if j == 0 {
        return Gate::Constant(false);
    }
    let bit = j - 1;
    if bit == 31 {
        return Gate::Three(Triple::Less, lower(31), upper(31), inner(31));
    }
    Gate::Three(Triple::Less, upper(bit), lower(bit), inner(bit))
}
