//! The circuit of a product: rows, their sums, and what is carried there.

ghost use Rattle.std.specs.Prelude.{◌≡◌, ◌<◌};
ghost use Rattle.circuits.specs.Products as spec;

use crate::gate::{Gate, Input, Pair, Triple};
use crate::inputs::{inner, lower, upper};

/// A bit of a row.
fn row_bit(row: u32, bit: u32) -> Input
    requires row { row < 32 }
    requires bit { bit < 32 }
    ensures { result ≡ spec.row_bit row bit }
{
    inner(32 * row + bit)
}

/// A bit of the sum of the rows up to one.
fn sum_bit(row: u32, bit: u32) -> Input
    requires row { row < 32 }
    requires bit { bit < 32 }
    ensures { result ≡ spec.sum_bit row bit }
{
    inner(1024 + 32 * row + bit)
}

/// What is carried into a place where a row is added.
fn carry_bit(row: u32, bit: u32) -> Input
    requires row { row < 32 }
    requires bit { bit < 32 }
    ensures { result ≡ spec.carry_bit row bit }
{
    inner(2048 + 32 * row + bit)
}

fn row_gate(row: u32, bit: u32) -> Option<Gate>
    requires row { row < 32 }
    requires bit { bit < 32 }
    ensures { result ≡ spec.row_gate row bit }
{
    if bit < row {
        return None;
    }
    Some(Gate::Two(Pair::And, lower(bit - row), upper(row)))
}

fn sum_gate(row: u32, bit: u32) -> Option<Gate>
    requires row { row < 32 }
    requires bit { bit < 32 }
    ensures { result ≡ spec.sum_gate row bit }
{
    if row == 0 {
        return Some(Gate::Same(row_bit(0, bit)));
    }
    if bit < row {
        return None;
    }
    Some(Gate::Three(
        Triple::Sum,
        sum_bit(row - 1, bit),
        row_bit(row, bit),
        carry_bit(row, bit),
    ))
}

/// What is carried on where the row after another one is added.
fn carry_on(before: u32, bit: u32) -> Option<Gate>
    requires row { before < 31 }
    requires bit { bit < 32 }
    ensures { result ≡ spec.carry_on before bit }
{
    if bit == 0 {
        return None;
    }
    let below = bit - 1;
    if below < before + 1 {
        return None;
    }
    Some(Gate::Three(
        Triple::Majority,
        sum_bit(before, below),
        row_bit(before + 1, below),
        carry_bit(before + 1, below),
    ))
}

fn carry_gate(row: u32, bit: u32) -> Option<Gate>
    requires row { row < 32 }
    requires bit { bit < 32 }
    ensures { result ≡ spec.carry_gate row bit }
{
    if row == 0 {
        return None;
    }
    if bit == row {
        return Some(Gate::Constant(false));
    }
    carry_on(row - 1, bit)
}

/// The gate of an inner bit of a product, if it has one.
pub fn mul_inner(j: u32) -> Option<Gate>
    requires { j < 3072 }
    ensures { result ≡ spec.mul_inner j }
{
    if j < 1024 {
        return row_gate(j / 32, j % 32);
    }
    if j < 2048 {
        return sum_gate((j - 1024) / 32, (j - 1024) % 32);
    }
    carry_gate((j - 2048) / 32, (j - 2048) % 32)
}

/// A bit of a product.
pub fn mul_result(bit: u32) -> Gate
    requires { bit < 32 }
    ensures { result ≡ spec.mul_result bit }
{
    Gate::Same(sum_bit(bit, bit))
}
