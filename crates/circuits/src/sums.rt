//! The circuits of sums: the gates of carries and of results.

ghost use Rattle.std.specs.Prelude.{◌≡◌, ◌<◌, ◌≤◌};
ghost use Rattle.circuits.specs.Sums as spec;

use crate::gate::{Gate, Pair, Triple, Wire};
use crate::inputs::{inner, lower, not_upper, plain, upper};
use java_int::bit;

/// Whether a bit of an int is 1.
pub fn is_set(a: i32, at: u32) -> bool
    requires { at < 32 }
    ensures { result ≡ spec.is_set a at }
{
    bit(a, at)
}

/// The carry into a place of a sum.
pub fn add_inner(j: u32) -> Gate
    ensures { result ≡ spec.add_inner j }
{
    if j == 0 {
        return Gate::Constant(false);
    }
    let below = j - 1;
    Gate::Three(Triple::Majority, lower(below), upper(below), inner(below))
}

/// A bit of a sum.
pub fn add_result(bit: u32) -> Gate
    ensures { result ≡ spec.add_result bit }
{
    Gate::Three(Triple::Sum, lower(bit), upper(bit), inner(bit))
}

/// The carry into a place of a difference.
pub fn sub_inner(j: u32) -> Gate
    ensures { result ≡ spec.sub_inner j }
{
    if j == 0 {
        return Gate::Constant(true);
    }
    let below = j - 1;
    Gate::Three(
        Triple::Majority,
        lower(below),
        not_upper(below),
        inner(below),
    )
}

/// A bit of a difference.
pub fn sub_result(bit: u32) -> Gate
    ensures { result ≡ spec.sub_result bit }
{
    Gate::Three(Triple::Sum, lower(bit), not_upper(bit), inner(bit))
}

/// The carry into a place of a negation.
pub fn neg_inner(j: u32) -> Gate
    ensures { result ≡ spec.neg_inner j }
{
    if j == 0 {
        return Gate::Constant(true);
    }
    let below = j - 1;
    Gate::Two(Pair::And, not_upper(below), inner(below))
}

/// A bit of a negation.
pub fn neg_result(bit: u32) -> Gate
    ensures { result ≡ spec.neg_result bit }
{
    Gate::Two(Pair::Xor, not_upper(bit), inner(bit))
}

/// How a known bit is added to another bit and the carry: what is carried on.
fn carried(known: bool) -> Pair
    ensures { result ≡ spec.carried known }
{
    if known { Pair::Or } else { Pair::And }
}

/// How a known bit is added to another bit and the carry: what stands in the place.
fn added(known: bool) -> Pair
    ensures { result ≡ spec.added known }
{
    if known { Pair::Equal } else { Pair::Xor }
}

/// The carry into a place where a known int is added to a local.
pub fn increment_inner(delta: i32, local: u8, j: u32) -> Gate
    requires { j ≤ 32 }
    ensures { result ≡ spec.increment_inner delta local j }
{
    if j == 0 {
        return Gate::Constant(false);
    }
    let bit = j - 1;
    Gate::Two(
        carried(is_set(delta, bit)),
        plain(Wire::LocalBit { local, bit }),
        inner(bit),
    )
}

/// A bit of the sum of a known int and a local.
pub fn increment_result(delta: i32, local: u8, bit: u32) -> Gate
    requires { bit < 32 }
    ensures { result ≡ spec.increment_result delta local bit }
{
    Gate::Two(
        added(is_set(delta, bit)),
        plain(Wire::LocalBit { local, bit }),
        inner(bit),
    )
}
