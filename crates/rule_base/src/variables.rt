//! Variables by their families.

ghost use Rattle.std.specs.Prelude.{◌≡◌, [], ◌∷◌};
ghost use Rattle.rule_base.specs.Literals as spec;
ghost use Rattle.var_names.specs.declared.args.Arg.TheVariants.{Number};

use var_names::{Arg, Args, Family, Var};

fn two(a: u32, b: u32) -> Args
    ensures { result ≡ Number a ∷ Number b ∷ [] }
{
    let mut args = Args::new();
    args.push(Arg::Number(a));
    args.push(Arg::Number(b));
    args
}

fn three(a: u32, b: u32, c: u32) -> Args
    ensures { result ≡ Number a ∷ Number b ∷ Number c ∷ [] }
{
    let mut args = two(a, b);
    args.push(Arg::Number(c));
    args
}

fn four(a: u32, b: u32, c: u32, d: u32) -> Args
    ensures { result ≡ Number a ∷ Number b ∷ Number c ∷ Number d ∷ [] }
{
    let mut args = three(a, b, c);
    args.push(Arg::Number(d));
    args
}

/// A node is taken in a copy.
pub fn on(copy: u32, node: u32) -> Var
    ensures { result ≡ spec.on copy node }
{
    Var::new(Family::On, two(copy, node))
}

/// An edge is taken in a copy.
pub fn go(copy: u32, edge: u32) -> Var
    ensures { result ≡ spec.go copy edge }
{
    Var::new(Family::Go, two(copy, edge))
}

/// A bit of a slot at a node.
pub fn sl(copy: u32, node: u32, slot: u32, bit: u32) -> Var
    ensures { result ≡ spec.sl copy node slot bit }
{
    Var::new(Family::Sl, four(copy, node, slot, bit))
}

/// A bit of the result of a node.
pub fn re(copy: u32, node: u32, bit: u32) -> Var
    ensures { result ≡ spec.re copy node bit }
{
    Var::new(Family::Re, three(copy, node, bit))
}

/// An inner bit of the circuit of a node.
pub fn ca(copy: u32, node: u32, j: u32) -> Var
    ensures { result ≡ spec.ca copy node j }
{
    Var::new(Family::Ca, three(copy, node, j))
}
