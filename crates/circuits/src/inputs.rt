//! Inputs of gates.

ghost use Rattle.std.specs.Prelude.{◌≡◌};
ghost use Rattle.circuits.specs.Gates as spec;

use crate::gate::{Input, Wire};

/// The bit itself.
pub fn plain(wire: Wire) -> Input
    ensures { result ≡ spec.plain wire }
{
    Input {
        wire,
        positive: true,
    }
}

/// The opposite of a bit.
pub fn negated(wire: Wire) -> Input
    ensures { result ≡ spec.negated wire }
{
    Input {
        wire,
        positive: false,
    }
}

/// An inner bit.
pub fn inner(j: u32) -> Input
    ensures { result ≡ spec.inner j }
{
    plain(Wire::InnerBit(j))
}

/// A bit of the lower of two operands.
pub fn lower(bit: u32) -> Input
    ensures { result ≡ spec.lower bit }
{
    plain(Wire::LowerBit(bit))
}

/// A bit of the upper of two operands, or of the only one.
pub fn upper(bit: u32) -> Input
    ensures { result ≡ spec.upper bit }
{
    plain(Wire::UpperBit(bit))
}

/// The opposite of a bit of the upper operand.
pub fn not_upper(bit: u32) -> Input
    ensures { result ≡ spec.not_upper bit }
{
    negated(Wire::UpperBit(bit))
}
